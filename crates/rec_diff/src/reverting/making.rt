//! What changes make of records.
ghost use Rattle.std.specs.Prelude.{◌≡◌, ◌⊎◌, ◌↔◌, ℕ, ◌<◌, ◌≤◌, List, ◌++◌, length, map, slice_get, Option, Some};
ghost use Rattle.std.specs.Prelude.{◌+◌, IsTrue, IfOk, IfErr, MatchOption};
ghost use Rattle.rec_text.specs.declared.fault.Fault.TheVariants.{OutOfMemory};
ghost use Rattle.rec_journal.specs.declared.event.EditStep.{EditStep};
ghost use Rattle.rec_journal.specs.Patch.{Splices};
ghost use Rattle.rec_journal.specs.Revisions.{LeadsBy, joined_steps, step_lists};
ghost use Rattle.rec_diff.specs.Changes.{Stretch};
ghost use Rattle.rec_diff.specs.Making.{Makes, StepMakes};
ghost use Rattle.rec_diff.specs.Placed.{IsPlaced, PlacedRecord, PlacedText};
ghost use Rattle.rec_diff.specs.proving.Making.{AreInPlaceBy, AreLeast, AreMadeBySteps, ArePassed, AreSharedBy, IsAmong};
ghost use Rattle.rec_diff.specs.proving.Making.{IsInPlaceBy, IsNext, IsSharedBy, MakeNothing, made_at, noted, pair_noted};
ghost use Rattle.rec_diff.specs.proving.Making.{pair_of};
ghost use Rattle.rec_diff.specs.proving.Reading.{AreMade, AreTurnsOf, IsReading, placed_of, text_of_reading};

use crate::lining::turns_of;
use crate::reverting::reading::Reading;
use crate::turn::{Place, Texts, Turn};
use rec_journal::{Bytes, EditStep};
use rec_text::{Element, Fault};
use std::alloc::{AllocError, Global};

/// Of each record of one text the record of another that is made of it, if there is one.
pub(crate) type Made = Vec<Option<usize>>;

/// A record of one text and a record of another.
#[derive(Clone, Copy)]
struct Pair {
    one: usize,
    other: usize,
}

/// Notes that a record of the other text is made of one, where none before it is.
fn note(made: &mut Made, one: usize, other: usize)
    ensures { made.new.items ≡ noted one other made.old.items }
{
    if let Some(found) = made.get_mut(one) {
        *found = match *found {
            Some(earlier) if earlier <= other => Some(earlier),
            _ => Some(other),
        };
    }
}

/// The same of a pair, where there is one.
fn note_pair(made: &mut Made, pair: Option<Pair>)
    ensures { made.new.items ≡ pair_noted pair made.old.items }
{
    if let Some(pair) = pair {
        note(made, pair.one, pair.other);
    }
}

/// The record of an element, and that of the one that it is in another text, where both are fields.
fn shared_by(
    one: &Reading<'_>,
    other: &Reading<'_>,
    index: usize,
    number: Option<usize>,
) -> Option<Pair>
    requires own { IsReading one.now }
    requires other { IsReading other.now }
    ensures { (r k : ℕ) → (result ≡ Some (pair_of r k))
        ↔ IsSharedBy (placed_of one.now) (placed_of other.now) index number r k }
{
    let Some(number) = number else {
        return None;
    };
    let Some(another) = other.owner_of(number) else {
        return None;
    };
    let Some(own) = one.owner_of(index) else {
        return None;
    };
    Some(Pair {
        one: own,
        other: another,
    })
}

/// Of each record the first one of the other text that shares a field with it.
pub(crate) fn shared(
    alloc: Global,
    one: &Reading<'_>,
    other: &Reading<'_>,
    numbers: &[Option<usize>],
) -> Result<Made, AllocError>
    requires own { IsReading one.now }
    requires other { IsReading other.now }
    ensures least { IfOk result (λ made.
        AreLeast (AreSharedBy (placed_of one.now) (placed_of other.now) numbers.now) made.items) }
    ensures length { IfOk result (λ made. length made.items ≡ length (placed_of one.now).records) }
{
    let mut made = Vec::new(alloc);
    made.resize(one.count(), None)?;
    let mut index = 0;
    for number in numbers {
        note_pair(&mut made, shared_by(one, other, index, *number));
        index += 1;
    }
    Ok(made)
}

/// What is between two places of a text.
#[derive(Clone, Copy)]
enum Among {
    /// No field, and no blank line.
    Nothing,
    /// Fields of this record, and no blank line.
    Fields(usize),
    /// A blank line.
    Blank,
}

impl Among {
    ghost use Rattle.std.specs.Prelude.{◌≡◌};
    ghost use Rattle.rec_text.specs.Places.{piece_of};
    ghost use Rattle.rec_text.specs.Records.{is_blank_piece};
    ghost use Rattle.rec_diff.specs.proving.Making.{among_with};

    /// With one more element, which may be a field of a record.
    fn with(self, element: &Element<'_>, owner: Option<usize>) -> Among
        ensures { result ≡ among_with self (is_blank_piece (piece_of element.now)) owner }
    {
        if element.is_blank() {
            return Among::Blank;
        }
        match self {
            Among::Nothing => match owner {
                Some(record) => Among::Fields(record),
                None => Among::Nothing,
            },
            _ => self,
        }
    }
}

/// Whether an element ends before a place, or there.
pub(crate) fn ends_by(element: &Element<'_>, place: usize) -> bool
    ensures { IsTrue result ↔ (element.now.at + length element.now.raw.now ≤ place) }
{
    element.at <= place && element.raw.len() <= place - element.at
}

/// The number of the first element, from this one on, that doesn't end before a place, or there.
fn pass(reading: &Reading<'_>, first: usize, at: usize) -> usize
    requires reading { IsReading reading.now }
    requires passed { ArePassed (placed_of reading.now) first at }
    ensures passed { ArePassed (placed_of reading.now) result at }
    ensures next { IsNext (placed_of reading.now) result at }
{
    let mut index = first;
    while let Some(element) = reading.elements().get(index) {
        if !ends_by(element, at) {
            return index;
        }
        index += 1;
    }
    index
}

/// What there is before a place, from the element of this number on.
fn among_from(reading: &Reading<'_>, first: usize, end: usize) -> Among
    requires { IsReading reading.now }
    ensures { IsAmong (placed_of reading.now) first end result }
{
    let mut among = Among::Nothing;
    let mut index = first;
    while let Some(element) = reading.elements().get(index) {
        if element.at >= end {
            return among;
        }
        among = among.with(element, reading.owner_of(index));
        index += 1;
    }
    among
}

/// The records of which fields of the one go and fields of the other come, by a turn.
fn in_place(
    turn: Turn,
    one: &Reading<'_>,
    old: usize,
    other: &Reading<'_>,
    new: usize,
) -> Option<Pair>
    requires own { IsReading one.now }
    requires other { IsReading other.now }
    requires old_order { turn.start.old ≤ turn.end.old }
    requires new_order { turn.start.new ≤ turn.end.new }
    requires old_passed { ArePassed (placed_of one.now) old turn.start.old }
    requires old_next { IsNext (placed_of one.now) old turn.start.old }
    requires new_passed { ArePassed (placed_of other.now) new turn.start.new }
    requires new_next { IsNext (placed_of other.now) new turn.start.new }
    ensures { (r k : ℕ) → (result ≡ Some (pair_of r k))
        ↔ IsInPlaceBy (placed_of one.now) (placed_of other.now) turn r k }
{
    let Among::Fields(record) = among_from(one, old, turn.end.old) else {
        return None;
    };
    let Among::Fields(another) = among_from(other, new, turn.end.new) else {
        return None;
    };
    Some(Pair {
        one: record,
        other: another,
    })
}

/// Notes of each turn the two records of which fields of the one go and fields of the other come.
fn note_places(made: &mut Made, turns: &[Turn], one: &Reading<'_>, other: &Reading<'_>)
    requires own { IsReading one.now }
    requires other { IsReading other.now }
    requires turns { (parts : List Stretch)
        × AreTurnsOf parts (text_of_reading one.now) (text_of_reading other.now) turns.now }
    ensures least { (numbers : List (Option ℕ))
        → AreLeast (AreSharedBy (placed_of one.now) (placed_of other.now) numbers) made.old.items
        → AreLeast (λ r k. AreSharedBy (placed_of one.now) (placed_of other.now) numbers r k
        ⊎ AreInPlaceBy (placed_of one.now) (placed_of other.now) turns.now r k) made.new.items }
    ensures length { length made.new.items ≡ length made.old.items }
{
    let mut old = 0;
    let mut new = 0;
    for turn in turns {
        old = pass(one, old, turn.start.old);
        new = pass(other, new, turn.start.new);
        note_pair(made, in_place(*turn, one, old, other, new));
    }
}

/// What a change makes of the records of a text, where both texts read.
pub(crate) fn made_by(
    alloc: Global,
    turns: &[Turn],
    one: &Reading<'_>,
    other: &Reading<'_>,
) -> Result<Made, AllocError>
    requires own { IsReading one.now }
    requires other { IsReading other.now }
    requires turns { (parts : List Stretch)
        × AreTurnsOf parts (text_of_reading one.now) (text_of_reading other.now) turns.now }
    ensures { IfOk result (λ made. (parts : List Stretch)
        → AreTurnsOf parts (text_of_reading one.now) (text_of_reading other.now) turns.now
        → AreMade (Makes parts (placed_of one.now) (placed_of other.now)) (placed_of one.now) (placed_of other.now)
        made.items) }
{
    let numbers = one.numbers_in(alloc, turns, other)?;
    let mut made = shared(alloc, one, other, &numbers)?;
    note_places(&mut made, turns, one, other);
    Ok(made)
}

/// What a step makes of records; none where one of the texts doesn't read.
fn made_by_step(
    alloc: Global,
    step: &EditStep,
    before: &[u8],
    after: &[u8],
) -> Result<Option<Made>, Fault>
    requires { Splices step.now.patch before.now after.now }
    ensures made { IfOk result (λ answer. MatchOption answer
        ((one other : PlacedRecord) → StepMakes step.now before.now after.now one other → ⊥)
        (λ made. (text : PlacedText) × (next : PlacedText) × IsPlaced before.now text × IsPlaced after.now next
        × AreMade (StepMakes step.now before.now after.now) text next made.items)) }
    ensures refusals { IfErr result (λ fault. fault ≡ OutOfMemory) }
{
    let Some(one) = Reading::of(alloc, before)? else {
        return Ok(None);
    };
    let Some(other) = Reading::of(alloc, after)? else {
        return Ok(None);
    };
    let turns = turns_of(alloc, step.patch.hunks(), Texts { before, after })?;
    Ok(Some(made_by(alloc, &turns, &one, &other)?))
}

/// What is made of records by one change and then by another.
pub(crate) fn then(
    alloc: Global,
    made: &[Option<usize>],
    next: &[Option<usize>],
) -> Result<Made, AllocError>
    ensures { IfOk result (λ both. both.items ≡ map (made_at next.now) made.now) }
{
    let mut both = Vec::with_capacity(alloc, made.len())?;
    for record in made {
        both.push(made_of(*record, next))?;
    }
    Ok(both)
}

/// What is made of a record, if there is one.
pub(crate) fn made_of(one: Option<usize>, made: &[Option<usize>]) -> Option<usize>
    ensures { result ≡ made_at made.now one }
{
    *made.get(one?)?
}

/// Of each record itself.
fn kept(alloc: Global, count: usize) -> Result<Made, AllocError>
    ensures each { IfOk result (λ made. (k : ℕ) → k < count → slice_get made.items k ≡ Some (Some k)) }
    ensures length { IfOk result (λ made. length made.items ≡ count) }
{
    let mut made = Vec::with_capacity(alloc, count)?;
    for record in 0..count {
        made.push(Some(record))?;
    }
    Ok(made)
}

/// What steps make of records of a text, of which others made these; none where a text doesn't read.
fn made_by_steps(
    alloc: Global,
    steps: &[EditStep],
    text: &mut Bytes,
    made: Made,
) -> Result<Option<Made>, Fault>
    requires { (after : List ℕ) × LeadsBy steps.now text.old after }
    ensures made { IfOk result (λ answer. MatchOption answer
        ((first : List EditStep) (start : List ℕ) → LeadsBy first start text.old
        → MakeNothing (first ++ steps.now) start)
        (λ all. LeadsBy steps.now text.old text.new × ((first : List EditStep) (start : List ℕ) (own : PlacedText)
        → IsPlaced start own → LeadsBy first start text.old → AreMadeBySteps first start own text.old made.items
        → AreMadeBySteps (first ++ steps.now) start own text.new all.items))) }
    ensures refusals { IfErr result (λ fault. fault ≡ OutOfMemory) }
{
    let mut made = made;
    for step in steps {
        let next = step.patch.apply(alloc, text.as_slice())?;
        let Some(by_step) = made_by_step(alloc, step, text.as_slice(), next.as_slice())? else {
            return Ok(None);
        };
        made = then(alloc, &made, &by_step)?;
        *text = next;
    }
    Ok(Some(made))
}

/// What edits make of this many records of a text; none where a text doesn't read.
pub(crate) fn made_by_edits(
    alloc: Global,
    edits: &[&[EditStep]],
    text: &[u8],
    count: usize,
) -> Result<Option<Made>, Fault>
    requires { (after : List ℕ) × LeadsBy (joined_steps (step_lists edits.now)) text.now after }
    ensures made { IfOk result (λ answer. MatchOption answer
        (MakeNothing (joined_steps (step_lists edits.now)) text.now)
        (λ made. (own : PlacedText) (after : List ℕ) → IsPlaced text.now own → length own.records ≡ count
        → LeadsBy (joined_steps (step_lists edits.now)) text.now after
        → AreMadeBySteps (joined_steps (step_lists edits.now)) text.now own after made.items)) }
    ensures refusals { IfErr result (λ fault. fault ≡ OutOfMemory) }
{
    let mut here = Bytes::copy_of(alloc, text)?;
    let mut made = kept(alloc, count)?;
    for steps in edits {
        let Some(by_edit) = made_by_steps(alloc, steps, &mut here, made)? else {
            return Ok(None);
        };
        made = by_edit;
    }
    Ok(Some(made))
}
