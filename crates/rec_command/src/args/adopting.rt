//! What adopt and write are asked for.
ghost use Rattle.clap.specs.Words.{found_of, rows_of};
ghost use Rattle.rec_command.specs.declared.tools.Tool.TheVariants.{Adopt, Write};
ghost use Rattle.rec_command.specs.Refusals.{IsOrRefuses};
ghost use Rattle.rec_command.specs.Words.{Orders};

use super::found::{before_file, copied, given, is_given};
use super::refusal::Refusal;
use super::{ChangeOrder, Order};
use clap::ArgMatches;
use std::alloc::Global;

/// What adopt is asked for.
pub fn adopt_order(alloc: Global, options: &ArgMatches) -> Result<Order, Refusal>
    ensures { IsOrRefuses (Orders Adopt (rows_of (found_of options.now))) result }
{
    let old = copied(alloc, before_file(options))?;
    Ok(Order::Change(ChangeOrder::AdoptAt(old)))
}

/// What write is asked for. Standard input can be read once.
pub fn write_order(alloc: Global, options: &ArgMatches) -> Result<Order, Refusal>
    ensures { IsOrRefuses (Orders Write (rows_of (found_of options.now))) result }
{
    let Some(path) = given(options, "new") else {
        return Err(Refusal::Rule("write: NEW is needed"));
    };
    let over = given(options, "over");
    if path == "-" && over == Some("-") {
        return Err(Refusal::Rule("write: only one of NEW and --over can be standard input"));
    }
    Ok(Order::Change(ChangeOrder::WriteAt {
        path: String::from_str(alloc, path)?,
        over: copied(alloc, over)?,
        force: is_given(options, "force"),
    }))
}
