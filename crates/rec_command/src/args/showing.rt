//! What history and show are asked for.
ghost use Rattle.clap.specs.Words.{found_of, rows_of};
ghost use Rattle.rec_command.specs.declared.tools.Tool.TheVariants.{History, Show};
ghost use Rattle.rec_command.specs.Refusals.{IsOrRefuses};
ghost use Rattle.rec_command.specs.Words.{Orders};

use super::Order;
use super::found::{before_file, is_given};
use super::numbers::edit_given;
use super::refusal::Refusal;
use super::style::style_of;
use clap::ArgMatches;
use rec_tools::Look;
use std::alloc::Global;

const NO_NUMBER: &str = "show: N must be a number from 1 to 18446744073709551615, in digits alone";

/// What history is asked for: to list the edits, or to print what each changed too.
pub fn history_order(alloc: Global, options: &ArgMatches) -> Result<Order, Refusal>
    ensures { IsOrRefuses (Orders History (rows_of (found_of options.now))) result }
{
    if !is_given(options, "patch") {
        return Ok(Order::Look(Look::History));
    }
    let style = style_of(alloc, options)?;
    Ok(Order::Look(Look::Log(style)))
}

/// What show is asked for.
pub fn show_order(alloc: Global, options: &ArgMatches) -> Result<Order, Refusal>
    ensures { IsOrRefuses (Orders Show (rows_of (found_of options.now))) result }
{
    let edit = edit_given(before_file(options), NO_NUMBER)?;
    let style = style_of(alloc, options)?;
    Ok(Order::Look(Look::Diff(edit, style)))
}
