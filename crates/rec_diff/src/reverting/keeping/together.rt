//! Whether records that are left are put together of one of before and of what the edits made of it.
ghost use Rattle.std.specs.Prelude.{◌≡◌, ◌↔◌, ℕ, ◌<◌, List, [], Any, length, slice_get, Some, IsTrue, IfOk, IfErr, MatchOption};
ghost use Rattle.std.specs.List.{AllByRecursion};
ghost use Rattle.rec_text.specs.declared.fault.Fault.TheVariants.{OutOfMemory};
ghost use Rattle.rec_journal.specs.Revisions.{LeadsBy};
ghost use Rattle.rec_diff.specs.declared.turn.Turn.{Turn};
ghost use Rattle.rec_diff.specs.Changes.{Stretch};
ghost use Rattle.rec_diff.specs.Keeping.{IsPutTogether};
ghost use Rattle.rec_diff.specs.Making.{StaysAmong, StepsMake};
ghost use Rattle.rec_diff.specs.Placed.{PlacedRecord};
ghost use Rattle.rec_diff.specs.proving.Keeping.{AreBeside, AreLed, AreOwn, AreRead, AreUnput, HaveNoOther, IsAgain, IsLed};
ghost use Rattle.rec_diff.specs.proving.Keeping.{IsLedOn, IsUntouched, all_there, later_steps, record_again};
ghost use Rattle.rec_diff.specs.proving.Reading.{AreMade, AreNumbers, AreTurnsOf, IsReading, placed_of, text_of_reading};

use crate::reverting::edits::Edits;
use crate::reverting::keeping::Readings;
use crate::reverting::keeping::known::Known;
use crate::reverting::making::{Made, made_by_edits, made_of, shared, then};
use crate::reverting::reading::Reading;
use crate::reverting::spread::{Spread, spreads};
use crate::reverting::weaving::Woven;
use rec_text::Fault;
use std::alloc::{AllocError, Global};

/// Whether all of these elements have a number.
fn are_there(fields: &[usize], numbers: &[Option<usize>]) -> bool
    ensures { result ≡ all_there numbers.now fields.now }
{
    for field in fields {
        if made_of(Some(*field), numbers).is_none() {
            return false;
        }
    }
    true
}

/// The record in which all fields are, where this tells of those that are there.
fn again_in(spread: Spread, fields: &[usize], numbers: &[Option<usize>]) -> Option<usize>
    ensures { result ≡ record_again spread (all_there numbers.now fields.now) }
{
    match spread {
        Spread::In(other) => {
            if are_there(fields, numbers) {
                Some(other)
            } else {
                None
            }
        }
        _ => None,
    }
}

/// Of each record of a text the one of another text in which all its fields are.
fn all_again(
    alloc: Global,
    one: &Reading<'_>,
    numbers: &[Option<usize>],
    other: &Reading<'_>,
) -> Result<Made, AllocError>
    requires own { IsReading one.now }
    requires other { IsReading other.now }
    ensures { IfOk result (λ again. (parts : List Stretch) (turns : List Turn)
        → AreTurnsOf parts (text_of_reading one.now) (text_of_reading other.now) turns
        → AreNumbers parts (placed_of one.now) (placed_of other.now) numbers.now
        → AreMade (λ own its. AllByRecursion (StaysAmong parts its.fields) own.fields) (placed_of one.now)
        (placed_of other.now) again.items) }
{
    let mut again = Vec::with_capacity(alloc, one.count())?;
    let spreads = spreads(alloc, one, numbers, other)?;
    let mut number = 0;
    for spread in spreads.iter() {
        again.push(again_in(*spread, one.fields_of(number), numbers))?;
        number += 1;
    }
    Ok(again)
}

/// Those of some records that aren't put together where the later edits didn't touch a field.
fn others_untouched(
    alloc: Global,
    edits: Edits<'_>,
    known: Known<'_, '_>,
    own: &[Option<usize>],
    records: &[usize],
) -> Result<Vec<usize>, AllocError>
    requires own { AreOwn edits known.readings.now own.now }
    requires later { LeadsBy (later_steps edits) edits.after.now edits.here.now }
    requires read { (left : List ℕ) × AreRead edits left known.readings.now }
    requires beside { (ahead back : List Stretch) × AreBeside known ahead back }
    requires records { (k : ℕ) → Any (◌≡◌ k) records.now → k < length (placed_of known.readings.now.left).records }
    ensures { IfOk result (λ others. AreUnput (IsUntouched edits.entry (placed_of known.entry.readings.now.here))
        edits.entry known.entry records.now others.items) }
{
    let untouched = untouched(alloc, edits, known.readings)?;
    let led = then(alloc, own, &untouched)?;
    known.others_than(alloc, records, &led)
}

/// Those of some records that aren't put together where all fields are there again.
fn others_again(
    alloc: Global,
    edits: Edits<'_>,
    woven: &Woven,
    known: Known<'_, '_>,
    own: &[Option<usize>],
    records: &[usize],
) -> Result<Vec<usize>, AllocError>
    requires own { AreOwn edits known.readings.now own.now }
    requires read { (left : List ℕ) × AreRead edits left known.readings.now }
    requires led { (later : List Stretch) × AreTurnsOf later edits.after.now edits.here.now woven.now.later.items }
    requires beside { (ahead back : List Stretch) × AreBeside known ahead back }
    requires records { (k : ℕ) → Any (◌≡◌ k) records.now → k < length (placed_of known.readings.now.left).records }
    ensures { IfOk result (λ others. (later : List Stretch)
        → AreTurnsOf later edits.entry.after.now edits.entry.here.now woven.now.later.items
        → AreUnput (IsAgain later) edits.entry known.entry records.now others.items) }
{
    let again = again(alloc, woven, known.readings)?;
    let led = then(alloc, own, &again)?;
    known.others_than(alloc, records, &led)
}

/// Those of some records that aren't put together where the later edits made the one of the other, step by step.
fn others_led(
    alloc: Global,
    edits: Edits<'_>,
    known: Known<'_, '_>,
    own: &[Option<usize>],
    records: Vec<usize>,
) -> Result<Vec<usize>, Fault>
    requires own { AreOwn edits known.readings.now own.now }
    requires later { LeadsBy (later_steps edits) edits.after.now edits.here.now }
    requires read { (left : List ℕ) × AreRead edits left known.readings.now }
    requires beside { (ahead back : List Stretch) × AreBeside known ahead back }
    requires records { (k : ℕ) → Any (◌≡◌ k) records.items → k < length (placed_of known.readings.now.left).records }
    ensures others { IfOk result (λ others. AreUnput (IsLedOn edits.entry) edits.entry known.entry records.items
        others.items) }
    ensures refusals { IfErr result (λ fault. fault ≡ OutOfMemory) }
{
    let Some(later) = later_made(alloc, edits, known.readings)? else {
        return Ok(records);
    };
    let led = then(alloc, own, &later)?;
    Ok(known.others_than(alloc, &records, &led)?)
}

/// Whether records that are left are each put together of one of before and of what the edits made of it.
pub(crate) fn are_put_together(
    alloc: Global,
    edits: Edits<'_>,
    woven: &Woven,
    known: Known<'_, '_>,
    records: &[usize],
) -> Result<bool, Fault>
    requires own { LeadsBy edits.steps.now edits.before.now edits.after.now }
    requires later { LeadsBy (later_steps edits) edits.after.now edits.here.now }
    requires led { (left : List ℕ) × IsLed edits woven.now left × AreRead edits left known.readings.now }
    requires beside { (ahead back : List Stretch) × AreBeside known ahead back }
    requires no_other { (ahead back : List Stretch) × AreBeside known ahead back × HaveNoOther ahead back
        (placed_of known.readings.now.before) (placed_of known.readings.now.here)
        (placed_of known.readings.now.left) }
    requires records { (k : ℕ) → Any (◌≡◌ k) records.now → k < length (placed_of known.readings.now.left).records }
    ensures together { IfOk result (λ are. (left : List ℕ) (change later ahead back : List Stretch)
        → AreLed edits.entry woven.now left change later ahead back → AreRead edits.entry left known.entry.readings.now
        → AreBeside known.entry ahead back
        → HaveNoOther ahead back (placed_of known.entry.readings.now.before)
        (placed_of known.entry.readings.now.here) (placed_of known.entry.readings.now.left)
        → IsTrue are ↔ ((k : ℕ) (own : PlacedRecord) → Any (◌≡◌ k) records.now
        → slice_get (placed_of known.entry.readings.now.left).records k ≡ Some own
        → IsPutTogether edits.entry.steps.now (later_steps edits.entry) change later ahead back
        (placed_of known.entry.readings.now.before) (placed_of known.entry.readings.now.after)
        (placed_of known.entry.readings.now.here) (placed_of known.entry.readings.now.left) own)) }
    ensures refusals { IfErr result (λ fault. fault ≡ OutOfMemory) }
{
    if is_none(records) {
        return Ok(true);
    }
    let Some(own) = own_made(alloc, edits, known.readings)? else {
        return Ok(false);
    };
    let touched = others_untouched(alloc, edits, known, &own, records)?;
    if is_none(&touched) {
        return Ok(true);
    }
    let gone = others_again(alloc, edits, woven, known, &own, &touched)?;
    if is_none(&gone) {
        return Ok(true);
    }
    let others = others_led(alloc, edits, known, &own, gone)?;
    Ok(is_none(&others))
}

fn is_none(numbers: &[usize]) -> bool
    ensures { IsTrue result ↔ (numbers.now ≡ []) }
{
    numbers.is_empty()
}

/// What the edit makes of the records before it.
fn own_made(alloc: Global, edits: Edits<'_>, readings: &Readings<'_>) -> Result<Option<Made>, Fault>
    requires own { LeadsBy edits.steps.now edits.before.now edits.after.now }
    requires read { (left : List ℕ) × AreRead edits left readings.now }
    ensures made { IfOk result (λ answer. MatchOption answer
        ((one other : PlacedRecord)
        → StepsMake edits.entry.steps.now edits.entry.before.now edits.entry.after.now one other → ⊥)
        (λ made. AreOwn edits.entry readings.now made.items)) }
    ensures refusals { IfErr result (λ fault. fault ≡ OutOfMemory) }
{
    made_by_edits(alloc, &[edits.steps], edits.before, readings.before.count())
}

/// What the later edits make of the records after it.
fn later_made(
    alloc: Global,
    edits: Edits<'_>,
    readings: &Readings<'_>,
) -> Result<Option<Made>, Fault>
    requires later { LeadsBy (later_steps edits) edits.after.now edits.here.now }
    requires read { (left : List ℕ) × AreRead edits left readings.now }
    ensures made { IfOk result (λ answer. MatchOption answer
        ((one other : PlacedRecord) → IsLedOn edits.entry one other → ⊥)
        (λ made. AreMade (IsLedOn edits.entry) (placed_of readings.now.after) (placed_of readings.now.here)
        made.items)) }
    ensures refusals { IfErr result (λ fault. fault ≡ OutOfMemory) }
{
    made_by_edits(alloc, edits.later, edits.after, readings.after.count())
}

/// Of each record after the edit the one of here that shares a field with it which the later ones didn't touch.
fn untouched(alloc: Global, edits: Edits<'_>, readings: &Readings<'_>) -> Result<Made, AllocError>
    requires later { LeadsBy (later_steps edits) edits.after.now edits.here.now }
    requires read { (left : List ℕ) × AreRead edits left readings.now }
    ensures { IfOk result (λ made. AreMade (IsUntouched edits.entry (placed_of readings.now.here))
        (placed_of readings.now.after) (placed_of readings.now.here) made.items) }
{
    let cuts = edits.later_cuts(alloc)?;
    let after = &readings.after;
    let here = &readings.here;
    let numbers = after.numbers_in(alloc, &cuts, here)?;
    shared(alloc, after, here, &numbers)
}

/// Of each record after the edit the one of here in which all its fields are.
fn again(alloc: Global, woven: &Woven, readings: &Readings<'_>) -> Result<Made, AllocError>
    requires after { IsReading readings.now.after }
    requires here { IsReading readings.now.here }
    requires later { (parts : List Stretch) × AreTurnsOf parts (text_of_reading readings.now.after)
        (text_of_reading readings.now.here) woven.now.later.items }
    ensures { IfOk result (λ made. (parts : List Stretch)
        → AreTurnsOf parts (text_of_reading readings.now.after) (text_of_reading readings.now.here)
        woven.now.later.items
        → AreMade (IsAgain parts) (placed_of readings.now.after) (placed_of readings.now.here) made.items) }
{
    let after = &readings.after;
    let here = &readings.here;
    let numbers = after.numbers_in(alloc, &woven.later, here)?;
    all_again(alloc, after, &numbers, here)
}
