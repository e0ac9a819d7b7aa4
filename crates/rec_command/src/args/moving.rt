//! What undo and redo are asked for.
ghost use Rattle.std.specs.Prelude.{codes};
ghost use Rattle.clap.specs.Words.{first_of, found_of, rows_of};
ghost use Rattle.rec_command.specs.declared.tools.Tool.TheVariants.{Undo, Redo};
ghost use Rattle.rec_command.specs.Refusals.{IsOrRefuses};
ghost use Rattle.rec_command.specs.Words.{IsEditGiven, Orders};

use super::found::given;
use super::numbers::edit_given;
use super::refusal::Refusal;
use super::{ChangeOrder, Order};
use clap::ArgMatches;
use rec_tools::{Change, Direction};

const NO_NUMBER: &str =
    "--through: N must be a number from 1 to 18446744073709551615, in digits alone";

/// What undo is asked for.
pub fn undo_order(options: &ArgMatches) -> Result<Order, Refusal>
    ensures { IsOrRefuses (Orders Undo (rows_of (found_of options.now))) result }
{
    Ok(Order::Change(match through(options)? {
        None => ChangeOrder::Whole(Change::Undo(None)),
        Some(number) => ChangeOrder::Through(Direction::Backward, number),
    }))
}

/// What redo is asked for.
pub fn redo_order(options: &ArgMatches) -> Result<Order, Refusal>
    ensures { IsOrRefuses (Orders Redo (rows_of (found_of options.now))) result }
{
    Ok(Order::Change(match through(options)? {
        None => ChangeOrder::Whole(Change::Redo(None)),
        Some(number) => ChangeOrder::Through(Direction::Forward, number),
    }))
}

/// The number of the last edit that is undone or redone, where it is given.
fn through(options: &ArgMatches) -> Result<Option<usize>, Refusal>
    ensures { IsOrRefuses (IsEditGiven (first_of (codes "through") (rows_of (found_of options.now)))) result }
{
    edit_given(given(options, "through"), NO_NUMBER)
}
