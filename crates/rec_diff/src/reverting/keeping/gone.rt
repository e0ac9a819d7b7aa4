//! Whether what an edit only took out stays out.
ghost use Rattle.std.specs.Prelude.{◌≡◌, ◌↔◌, ℕ, ◌<◌, ◌≤◌, List, length, IsTrue, IfOk};
ghost use Rattle.std.specs.List.{AllByRecursion};
ghost use Rattle.rec_text.specs.Places.{AreFrom};
ghost use Rattle.rec_journal.specs.Revisions.{LeadsBy};
ghost use Rattle.rec_diff.specs.Changes.{Stretch};
ghost use Rattle.rec_diff.specs.Placed.{Placed, size};
ghost use Rattle.rec_diff.specs.proving.Keeping.{AreAfter, AreLed, AreRead, GoesBy, IsLed, StayOut, all_out, is_out_by};
ghost use Rattle.rec_diff.specs.proving.Keeping.{later_steps, some_take_out};
ghost use Rattle.rec_diff.specs.proving.Numbering.{IsReached};
ghost use Rattle.rec_diff.specs.proving.Reading.{placed, placed_of};

use crate::reverting::edits::Edits;
use crate::reverting::keeping::Readings;
use crate::reverting::making::ends_by;
use crate::reverting::weaving::Woven;
use crate::turn::Turn;
use rec_text::Element;
use std::alloc::{AllocError, Global};

/// Whether an element is a field, and lies within a turn that only took out.
fn goes_by(turn: Turn, element: &Element<'_>) -> bool
    ensures { IsTrue result ↔ GoesBy turn (placed element.now) }
{
    if !turn.takes_out() || !element.is_field() || element.at < turn.start.old {
        return false;
    }
    ends_by(element, turn.end.old)
}

/// Whether a field lies within a turn that only took out; the turns are those that don't end before it.
fn is_taken_out(turns: &[Turn], element: &Element<'_>) -> bool
    requires order { (least : ℕ) × AreAfter least turns.now }
    requires first { IsReached turns.now element.now.at }
    requires some { 0 < length element.now.raw.now }
    ensures { result ≡ is_out_by turns.now (placed element.now) }
{
    match turns.split_first() {
        Some((turn, _)) => goes_by(*turn, element),
        None => false,
    }
}

/// The turns that don't end before a place, or there.
fn turns_after(turns: &[Turn], at: usize) -> &[Turn]
    requires { (least : ℕ) × AreAfter least turns.now }
    ensures order { (least : ℕ) × AreAfter least result.now }
    ensures first { IsReached result.now at }
    ensures same { (x : Placed) → at ≤ x.at → 0 < size x → is_out_by turns.now x ≡ is_out_by result.now x }
{
    let mut left = turns;
    while let Some((turn, rest)) = left.split_first() {
        if turn.end.old > at {
            return left;
        }
        left = rest;
    }
    left
}

/// Whether none of the fields that only went has a number.
fn are_still_out(turns: &[Turn], elements: &[Element<'_>], numbers: &[Option<usize>]) -> bool
    requires order { (least : ℕ) × AreAfter least turns.now }
    requires elements { AreFrom 0 elements.now }
    requires some { AllByRecursion (λ e. 0 < length e.raw.now) elements.now }
    ensures { result ≡ all_out turns.now elements.now numbers.now }
{
    let mut left = turns;
    for (element, number) in elements.iter().zip(numbers.iter()) {
        left = turns_after(left, element.at);
        if number.is_some() && is_taken_out(left, element) {
            return false;
        }
    }
    true
}

/// Whether one of these turns only takes out.
fn take_out(turns: &[Turn]) -> bool
    ensures { result ≡ some_take_out turns.now }
{
    for turn in turns {
        if turn.takes_out() {
            return true;
        }
    }
    false
}

/// Whether no field that the edit only took out is there again.
pub(crate) fn stay_out(
    alloc: Global,
    edits: Edits<'_>,
    woven: &Woven,
    readings: &Readings<'_>,
) -> Result<bool, AllocError>
    requires own { LeadsBy edits.steps.now edits.before.now edits.after.now }
    requires later { LeadsBy (later_steps edits) edits.after.now edits.here.now }
    requires led { (left : List ℕ) × IsLed edits woven.now left × AreRead edits left readings.now }
    ensures { IfOk result (λ out. (left : List ℕ) (change later ahead back : List Stretch)
        → AreLed edits.entry woven.now left change later ahead back → AreRead edits.entry left readings.now
        → IsTrue out ↔ StayOut edits.entry change (placed_of readings.now.before) (placed_of readings.now.here)) }
{
    if !take_out(&woven.change) {
        return Ok(true);
    }
    let turns = edits.all_turns(alloc)?;
    let before = &readings.before;
    let numbers = before.numbers_in(alloc, &turns, &readings.here)?;
    Ok(are_still_out(&woven.change, before.elements(), &numbers))
}
