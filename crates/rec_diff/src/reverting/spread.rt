//! Where the fields of records are in another text.
ghost use Rattle.std.specs.Prelude.{◌≡◌, ◌↔◌, ℕ, List, Some, IfOk};
ghost use Rattle.rec_diff.specs.declared.turn.Turn.{Turn};
ghost use Rattle.rec_diff.specs.Changes.{Stretch};
ghost use Rattle.rec_diff.specs.proving.Reading.{AreTurnsOf, AreNumbers, AreOrigins, AreSpreads, IsReading};
ghost use Rattle.rec_diff.specs.proving.Reading.{StaysIn, WasIn, AreSpreadsBy, IsFoundIn, IsSpread};
ghost use Rattle.rec_diff.specs.proving.Reading.{placed_of, text_of_reading};

use crate::reverting::reading::Reading;
use std::alloc::{AllocError, Global};

/// Which record of another text has what is there of a record's fields.
#[derive(Clone, Copy, PartialEq, Eq)]
pub(crate) enum Spread {
    /// Nothing is there.
    Nowhere,
    /// All that is there is in this one.
    In(usize),
    /// Several have some of it.
    Several,
}

impl Spread {
    ghost use Rattle.std.specs.Prelude.{◌≡◌, ◌↔◌, Some, IsTrue};
    ghost use Rattle.rec_diff.specs.proving.Keeping.{IsWithin};
    ghost use Rattle.rec_diff.specs.proving.Reading.{spread_with};

    /// With one more field, in a record.
    fn with(self, one: usize) -> Spread
        ensures { result ≡ spread_with self (Some one) }
    {
        match self {
            Spread::Nowhere => Spread::In(one),
            Spread::In(other) => {
                if other == one {
                    Spread::In(one)
                } else {
                    Spread::Several
                }
            }
            Spread::Several => Spread::Several,
        }
    }

    /// With one more field, which may be in a record.
    fn with_owner(self, owner: Option<usize>) -> Spread
        ensures { result ≡ spread_with self owner }
    {
        match owner {
            Some(one) => self.with(one),
            None => self,
        }
    }

    /// Whether there is nothing in any other record.
    pub(crate) fn is_within(self, one: usize) -> bool
        ensures { IsTrue result ↔ IsWithin self one }
    {
        match self {
            Spread::Nowhere => true,
            Spread::In(other) => other == one,
            Spread::Several => false,
        }
    }
}

/// The record in which a field is in another text, in which elements have these numbers.
fn owner_there(field: usize, numbers: &[Option<usize>], other: &Reading<'_>) -> Option<usize>
    requires { IsReading other.now }
    ensures { (k : ℕ) → (result ≡ Some k) ↔ IsFoundIn numbers.now (placed_of other.now) field k }
{
    match numbers.get(field) {
        Some(number) => match *number {
            Some(number) => other.owner_of(number),
            None => None,
        },
        None => None,
    }
}

/// Where fields are in another text, in which elements have these numbers.
fn spread_of(fields: &[usize], numbers: &[Option<usize>], other: &Reading<'_>) -> Spread
    requires { IsReading other.now }
    ensures { IsSpread (IsFoundIn numbers.now (placed_of other.now)) fields.now result }
{
    let mut spread = Spread::Nowhere;
    for field in fields {
        spread = spread.with_owner(owner_there(*field, numbers, other));
    }
    spread
}

/// The same of each record.
fn spreads_by(
    alloc: Global,
    one: &Reading<'_>,
    numbers: &[Option<usize>],
    other: &Reading<'_>,
) -> Result<Vec<Spread>, AllocError>
    requires own { IsReading one.now }
    requires other { IsReading other.now }
    ensures { IfOk result (λ spreads. AreSpreadsBy numbers.now (placed_of one.now) (placed_of other.now)
        (placed_of one.now).records spreads.items) }
{
    let mut spreads = Vec::with_capacity(alloc, one.count())?;
    for number in 0..one.count() {
        spreads.push(spread_of(one.fields_of(number), numbers, other))?;
    }
    Ok(spreads)
}

/// Of each record of one text where its fields are in the other, in which its elements have these numbers.
pub(crate) fn spreads(
    alloc: Global,
    one: &Reading<'_>,
    numbers: &[Option<usize>],
    other: &Reading<'_>,
) -> Result<Vec<Spread>, AllocError>
    requires own { IsReading one.now }
    requires other { IsReading other.now }
    ensures stay { IfOk result (λ spreads. (parts : List Stretch) (turns : List Turn)
        → AreTurnsOf parts (text_of_reading one.now) (text_of_reading other.now) turns
        → AreNumbers parts (placed_of one.now) (placed_of other.now) numbers.now
        → AreSpreads (StaysIn parts (placed_of other.now)) (placed_of one.now) spreads.items) }
    ensures were { IfOk result (λ spreads. (parts : List Stretch) (turns : List Turn)
        → AreTurnsOf parts (text_of_reading other.now) (text_of_reading one.now) turns
        → AreOrigins parts (placed_of other.now) (placed_of one.now) numbers.now
        → AreSpreads (WasIn parts (placed_of other.now)) (placed_of one.now) spreads.items) }
{
    spreads_by(alloc, one, numbers, other)
}
