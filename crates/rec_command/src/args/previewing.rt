//! What is asked for as a dry run.
ghost use Rattle.clap.specs.Words.{found_of, rows_of};
ghost use Rattle.rec_command.specs.declared.tools.Tool.{Tool as ToolOf};
ghost use Rattle.rec_command.specs.Refusals.{IsOrRefuses};
ghost use Rattle.rec_command.specs.Words.{AsksChange, Orders, OrdersOrPreviews};

use super::found::is_given;
use super::refusal::Refusal;
use super::style::style_of;
use super::{ChangeOrder, Order};
use clap::ArgMatches;
use std::alloc::Global;

/// An order, or the preview of its change where the options ask for a dry run.
pub fn or_preview(alloc: Global, order: Order, options: &ArgMatches) -> Result<Order, Refusal>
    ensures { (tool : ToolOf) → Orders tool (rows_of (found_of options.now)) order
        → IsOrRefuses (OrdersOrPreviews tool (rows_of (found_of options.now))) result }
{
    match order {
        Order::Change(change) => change_or_preview(alloc, change, options),
        Order::Look(_) | Order::Preview(_, _) => Ok(order),
    }
}

/// A change, or the preview of it.
fn change_or_preview(
    alloc: Global,
    change: ChangeOrder,
    options: &ArgMatches,
) -> Result<Order, Refusal>
    ensures { (tool : ToolOf) → AsksChange tool (rows_of (found_of options.now)) change
        → IsOrRefuses (OrdersOrPreviews tool (rows_of (found_of options.now))) result }
{
    if !is_given(options, "dry-run") {
        return Ok(Order::Change(change));
    }
    let style = style_of(alloc, options)?;
    Ok(Order::Preview(change, style))
}
