//! What forget is asked for.
ghost use Rattle.std.specs.Prelude.{ℕ, MatchOption};
ghost use Rattle.clap.specs.Words.{found_of, rows_of};
ghost use Rattle.rec_command.specs.declared.tools.Tool.TheVariants.{Forget};
ghost use Rattle.rec_command.specs.Refusals.{IsOrRefuses};
ghost use Rattle.rec_command.specs.Words.{IsNumber, Orders};

use super::found::{given, is_given};
use super::refusal::Refusal;
use super::{ChangeOrder, Order};
use clap::ArgMatches;
use rec_tools::Change;

/// What forget is asked for: how many of the edits that can be undone it keeps, and whether dropped edits go too.
pub fn forget_order(options: &ArgMatches) -> Result<Order, Refusal>
    ensures { IsOrRefuses (Orders Forget (rows_of (found_of options.now))) result }
{
    let Some(digits) = given(options, "n") else {
        return Err(Refusal::Rule("forget: N is needed"));
    };
    match number_of(digits) {
        Some(newest) => Ok(Order::Change(ChangeOrder::Whole(Change::Forget {
            newest,
            dropped: is_given(options, "dropped"),
        }))),
        None => Err(Refusal::Rule(
            "forget: N must be a number from 0 to 4294967295, in digits alone",
        )),
    }
}

/// The number that decimal digits write.
fn number_of(digits: &str) -> Option<u32>
    ensures { MatchOption result ((n : ℕ) → ¬ IsNumber 32 digits.now n) (IsNumber 32 digits.now) }
{
    // `parse` would take a plus sign before them.
    if digits.starts_with('+') {
        return None;
    }
    digits.parse().ok()
}
