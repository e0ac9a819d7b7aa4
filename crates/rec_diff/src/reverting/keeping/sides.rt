//! A text beside what is left of it.
ghost use Rattle.std.specs.Prelude.{◌≡◌, ◌↔◌, List, slice_get, Some, IsTrue, IfOk};
ghost use Rattle.std.specs.List.{AllZip};
ghost use Rattle.rec_diff.specs.Changes.{Stretch};
ghost use Rattle.rec_diff.specs.proving.Keeping.{IsSide, all_numbered, is_number, spread_in};
ghost use Rattle.rec_diff.specs.proving.Making.{made_at};
ghost use Rattle.rec_diff.specs.proving.Reading.{AreTurnsOf, IsReading, placed_of, text_of_reading};

use crate::reverting::making::made_of;
use crate::reverting::reading::Reading;
use crate::reverting::spread::{Spread, spreads};
use crate::turn::Turn;
use std::alloc::{AllocError, Global};

/// A text, which is that before the edit or that of here, beside what is left.
#[derive(Drop)]
pub(crate) struct Side {
    /// Of each of its elements the number that it has in what is left.
    pub(crate) in_left: Vec<Option<usize>>,
    /// Of each element that is left its number in the text.
    pub(crate) of_left: Vec<Option<usize>>,
    /// Where the fields of each record are that are left.
    to_left: Vec<Spread>,
    /// Whence the fields of each record came that is left.
    pub(crate) from_text: Vec<Spread>,
}

pub(crate) fn side_of(
    alloc: Global,
    turns: &[Turn],
    text: &Reading<'_>,
    left: &Reading<'_>,
) -> Result<Side, AllocError>
    requires text { IsReading text.now }
    requires left { IsReading left.now }
    requires turns { (parts : List Stretch)
        × AreTurnsOf parts (text_of_reading text.now) (text_of_reading left.now) turns.now }
    ensures { IfOk result (λ side. (parts : List Stretch)
        → AreTurnsOf parts (text_of_reading text.now) (text_of_reading left.now) turns.now
        → IsSide parts (placed_of text.now) (placed_of left.now) side) }
{
    let in_left = text.numbers_in(alloc, turns, left)?;
    let of_left = text.origins_in(alloc, turns, left)?;
    let to_left = spreads(alloc, text, &in_left, left)?;
    let from_text = spreads(alloc, left, &of_left, text)?;
    Ok(Side {
        in_left,
        of_left,
        to_left,
        from_text,
    })
}

pub(crate) fn spread_at(spreads: &[Spread], record: usize) -> Spread
    ensures { result ≡ spread_in spreads.now «record» }
{
    match spreads.get(record) {
        Some(spread) => *spread,
        None => Spread::Nowhere,
    }
}

/// Whether the element of an index has this number.
fn has_number(numbers: &[Option<usize>], element: usize, wanted: usize) -> bool
    ensures { result ≡ is_number (made_at numbers.now (Some element)) wanted }
{
    match made_of(Some(element), numbers) {
        Some(number) => number == wanted,
        None => false,
    }
}

/// Whether the elements of these indexes have these numbers, as far as there are both.
fn have_numbers(numbers: &[Option<usize>], elements: &[usize], wanted: &[usize]) -> bool
    ensures { result ≡ all_numbered numbers.now elements.now wanted.now }
{
    for (element, number) in elements.iter().zip(wanted.iter()) {
        if !has_number(numbers, *element, *number) {
            return false;
        }
    }
    true
}

/// Whether these are the numbers of these elements.
fn are_numbered(elements: &[usize], numbers: &[Option<usize>], wanted: &[usize]) -> bool
    ensures { IsTrue result ↔ AllZip (λ i n. slice_get numbers.now i ≡ Some (Some n)) elements.now wanted.now }
{
    elements.len() == wanted.len() && have_numbers(numbers, elements, wanted)
}

impl Side {
    ghost use Rattle.std.specs.Prelude.{◌≡◌, ◌↔◌, ℕ, List, Any, slice_get, Some, IsTrue};
    ghost use Rattle.rec_diff.specs.declared.reverting.spread.Spread.{Spread};
    ghost use Rattle.rec_diff.specs.declared.turn.Turn.{Turn};
    ghost use Rattle.rec_diff.specs.Changes.{Stretch};
    ghost use Rattle.rec_diff.specs.Keeping.{HasWhatIsLeft, IsWhole};
    ghost use Rattle.rec_diff.specs.Placed.{PlacedRecord};
    ghost use Rattle.rec_diff.specs.proving.Keeping.{IsSide, spread_in};
    ghost use Rattle.rec_diff.specs.proving.Reading.{AreTurnsOf, IsReading, placed_of, text_of_reading};

    /// Whether a record that is left is this one of the text, as a whole.
    fn is_whole_of(&self, text: &Reading<'_>, left: &Reading<'_>, one: usize, record: usize) -> bool
        requires text { IsReading text.now }
        requires left { IsReading left.now }
        ensures { (parts : List Stretch) (turns : List Turn) (old own : PlacedRecord)
            → AreTurnsOf parts (text_of_reading text.now) (text_of_reading left.now) turns
            → IsSide parts (placed_of text.now) (placed_of left.now) self.now
            → slice_get (placed_of text.now).records one ≡ Some old
            → slice_get (placed_of left.now).records «record» ≡ Some own
            → IsTrue result ↔ IsWhole parts old own }
    {
        are_numbered(left.fields_of(record), &self.of_left, text.fields_of(one))
            && text.has_type_of(one, left, record)
    }

    /// Whether a record that is left is a whole one of the text.
    pub(crate) fn is_whole(&self, text: &Reading<'_>, left: &Reading<'_>, record: usize) -> bool
        requires text { IsReading text.now }
        requires left { IsReading left.now }
        ensures { (parts : List Stretch) (turns : List Turn) (own : PlacedRecord)
            → AreTurnsOf parts (text_of_reading text.now) (text_of_reading left.now) turns
            → IsSide parts (placed_of text.now) (placed_of left.now) self.now
            → slice_get (placed_of left.now).records «record» ≡ Some own
            → IsTrue result ↔ Any (λ one. IsWhole parts one own) (placed_of text.now).records }
    {
        match spread_at(&self.from_text, record) {
            Spread::In(one) => self.is_whole_of(text, left, one, record),
            _ => false,
        }
    }

    /// Whether a record that is left has what is left of one of the text, nothing else of the text, and the type of its set.
    pub(crate) fn has_what_is_left(
        &self,
        text: &Reading<'_>,
        left: &Reading<'_>,
        one: usize,
        record: usize,
    ) -> bool
        requires text { IsReading text.now }
        requires left { IsReading left.now }
        ensures { (parts : List Stretch) (turns : List Turn) (old own : PlacedRecord)
            → AreTurnsOf parts (text_of_reading text.now) (text_of_reading left.now) turns
            → IsSide parts (placed_of text.now) (placed_of left.now) self.now
            → slice_get (placed_of text.now).records one ≡ Some old
            → slice_get (placed_of left.now).records «record» ≡ Some own
            → IsTrue result ↔ (HasWhatIsLeft parts (placed_of text.now) old (placed_of left.now) own
            × (old.record_type ≡ own.record_type)) }
    {
        if !spread_at(&self.to_left, one).is_within(record) {
            return false;
        }
        if !spread_at(&self.from_text, record).is_within(one) {
            return false;
        }
        text.has_type_of(one, left, record)
    }

    /// Whether nothing is left of a record of the text.
    pub(crate) fn is_gone(&self, one: usize) -> bool
        ensures { IsTrue result ↔ (spread_in self.now.to_left.items one ≡ Spread.Nowhere) }
    {
        match spread_at(&self.to_left, one) {
            Spread::Nowhere => true,
            _ => false,
        }
    }
}
