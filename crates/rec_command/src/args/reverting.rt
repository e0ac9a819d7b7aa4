//! What revert is asked for.
ghost use Rattle.clap.specs.Words.{found_of, rows_of};
ghost use Rattle.rec_command.specs.declared.tools.Tool.TheVariants.{Revert};
ghost use Rattle.rec_command.specs.Refusals.{IsOrRefuses};
ghost use Rattle.rec_command.specs.Words.{Orders};

use super::found::{given, is_given};
use super::numbers::edit_given;
use super::refusal::Refusal;
use super::{ChangeOrder, Order};
use clap::ArgMatches;
use rec_tools::Change;

const NO_NUMBER: &str =
    "revert: N must be a number from 1 to 18446744073709551615, in digits alone";

/// What revert is asked for: which edit it takes back.
pub fn revert_order(options: &ArgMatches) -> Result<Order, Refusal>
    ensures { IsOrRefuses (Orders Revert (rows_of (found_of options.now))) result }
{
    let Some(number) = edit_given(given(options, "n"), NO_NUMBER)? else {
        return Err(Refusal::Rule("revert: N is needed"));
    };
    let force = is_given(options, "force");
    Ok(Order::Change(ChangeOrder::Whole(Change::Revert { number, force })))
}
