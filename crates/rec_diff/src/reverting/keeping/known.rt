//! What is known of the records that are left, beside the texts before the edit and of here.
ghost use Rattle.std.specs.Prelude.{◌≡◌, ◌↔◌, ℕ, ◌<◌, true, false, length, slice_get, Some, IsTrue, IfOk, OnOk};
ghost use Rattle.rec_diff.specs.proving.Keeping.{listed_unless, marked};

use crate::reverting::keeping::Readings;
use crate::reverting::keeping::sides::{Side, spread_at};
use crate::reverting::making::made_of;
use crate::reverting::spread::Spread;
use std::alloc::{AllocError, Global};

/// What is known of the four texts.
#[derive(Clone, Copy)]
pub(crate) struct Known<'k, 't> {
    pub(crate) readings: &'k Readings<'t>,
    pub(crate) before: &'k Side,
    pub(crate) here: &'k Side,
}

impl<'k, 't> Known<'k, 't> {
    ghost use Rattle.std.specs.Prelude.{◌≡◌, ◌↔◌, ◌<◌, ℕ, true, List, Any, length, slice_get, Some, IsTrue, IfOk};
    ghost use Rattle.rec_diff.specs.Changes.{Stretch};
    ghost use Rattle.rec_diff.specs.Placed.{PlacedRecord};
    ghost use Rattle.rec_diff.specs.proving.Keeping.{AreBeside, AreLeading, AreOthers, AreThose, HaveNoOther, IsOfGone, IsOneWhole};
    ghost use Rattle.rec_diff.specs.proving.Keeping.{IsGoneTo, IsPutBy, IsPutOf, IsPutOfGone};
    ghost use Rattle.rec_diff.specs.proving.Reading.{placed_of};

    /// Whether a record that is left is a whole one of here or a whole one of before.
    fn is_whole(self, record: usize) -> bool
        requires { (ahead back : List Stretch) × AreBeside self ahead back }
        ensures { (ahead back : List Stretch) (own : PlacedRecord) → AreBeside self.entry ahead back
            → slice_get (placed_of self.entry.readings.now.left).records «record» ≡ Some own
            → IsTrue result ↔ IsOneWhole ahead back (placed_of self.entry.readings.now.before)
            (placed_of self.entry.readings.now.here) own }
    {
        let Readings {
            before,
            here,
            left,
            ..
        } = self.readings;
        if self.here.is_whole(here, left, record) {
            return true;
        }
        self.before.is_whole(before, left, record)
    }

    /// The records that are left and are neither whole ones of here nor whole ones of before.
    pub(crate) fn mixed(self, alloc: Global) -> Result<Vec<usize>, AllocError>
        requires { (ahead back : List Stretch) × AreBeside self ahead back }
        ensures { IfOk result (λ mixed. (ahead back : List Stretch) → AreBeside self.entry ahead back
            → AreThose (IsOneWhole ahead back (placed_of self.entry.readings.now.before)
            (placed_of self.entry.readings.now.here)) (placed_of self.entry.readings.now.left) mixed.items) }
    {
        let mut mixed = Vec::new(alloc);
        for number in 0..self.readings.left.count() {
            add_unless(&mut mixed, self.is_whole(number), number)?;
        }
        Ok(mixed)
    }

    /// The record of here to which one of its type led of which nothing is left, if this one did.
    fn gone_to(self, record: usize, new: Option<usize>) -> Option<usize>
        requires { (ahead back : List Stretch) × AreBeside self ahead back }
        ensures { (j : ℕ) → (result ≡ Some j) ↔ IsGoneTo (placed_of self.entry.readings.now.before)
            (placed_of self.entry.readings.now.here) self.entry.before.now.to_left.items «record» new j }
    {
        let Some(new) = new else {
            return None;
        };
        if self.before.is_gone(record)
            && self
                .readings
                .before
                .has_type_of(record, &self.readings.here, new)
        {
            Some(new)
        } else {
            None
        }
    }

    /// Of each record of here whether one of its type of which nothing is left led to it.
    fn made_of_gone(self, alloc: Global, led: &[Option<usize>]) -> Result<Vec<bool>, AllocError>
        requires { (ahead back : List Stretch) × AreBeside self ahead back }
        ensures { IfOk result (λ of_gone. (j : ℕ) → j < length (placed_of self.entry.readings.now.here).records
            → (slice_get of_gone.items j ≡ Some true)
            ↔ IsOfGone led.now (placed_of self.entry.readings.now.before) (placed_of self.entry.readings.now.here)
            self.entry.before.now.to_left.items j) }
    {
        let mut made = none_marked(alloc, self.readings.here.count())?;
        let mut number = 0;
        for new in led {
            mark(&mut made, self.gone_to(number, *new));
            number += 1;
        }
        Ok(made)
    }

    /// Whether a record holds what is left of one of before and of one of here, and is of their type.
    fn is_put_of(self, old: usize, new: usize, record: usize) -> bool
        requires { (ahead back : List Stretch) × AreBeside self ahead back }
        ensures { (ahead back : List Stretch) (one other own : PlacedRecord) → AreBeside self.entry ahead back
            → slice_get (placed_of self.entry.readings.now.before).records old ≡ Some one
            → slice_get (placed_of self.entry.readings.now.here).records new ≡ Some other
            → slice_get (placed_of self.entry.readings.now.left).records «record» ≡ Some own
            → IsTrue result ↔ IsPutOf ahead back (placed_of self.entry.readings.now.before)
            (placed_of self.entry.readings.now.here) (placed_of self.entry.readings.now.left) one other own }
    {
        let Readings {
            before,
            here,
            left,
            ..
        } = self.readings;
        if !self.before.has_what_is_left(before, left, old, record) {
            return false;
        }
        self.here.has_what_is_left(here, left, new, record)
    }

    /// Whether a record holds what is left of one of here, to which one led of which nothing is left.
    fn is_put_of_gone(self, of_gone: &[bool], record: usize) -> bool
        requires { (ahead back : List Stretch) × AreBeside self ahead back }
        ensures { (ahead back : List Stretch) (own : PlacedRecord) → AreBeside self.entry ahead back
            → slice_get (placed_of self.entry.readings.now.left).records «record» ≡ Some own
            → IsTrue result ↔ IsPutOfGone of_gone.now back (placed_of self.entry.readings.now.here)
            (placed_of self.entry.readings.now.left) self.entry.here.now.from_text.items «record» own }
    {
        match spread_at(&self.here.from_text, record) {
            Spread::In(new) => {
                is_marked(of_gone, new)
                    && self
                        .here
                        .has_what_is_left(&self.readings.here, &self.readings.left, new, record)
            }
            _ => false,
        }
    }

    /// Whether a record is put together of one of before and of one of here, to which that one led.
    fn is_put_together(self, led: &[Option<usize>], of_gone: &[bool], record: usize) -> bool
        requires known { (ahead back : List Stretch) × AreBeside self ahead back }
        requires led { AreLeading led.now (placed_of self.readings.now.before) (placed_of self.readings.now.here) }
        requires of_gone { (j : ℕ) → j < length (placed_of self.readings.now.here).records
            → (slice_get of_gone.now j ≡ Some true) ↔ IsOfGone led.now (placed_of self.readings.now.before)
            (placed_of self.readings.now.here) self.before.now.to_left.items j }
        ensures { (ahead back : List Stretch) (own : PlacedRecord) → AreBeside self.entry ahead back
            → HaveNoOther ahead back (placed_of self.entry.readings.now.before)
            (placed_of self.entry.readings.now.here) (placed_of self.entry.readings.now.left)
            → slice_get (placed_of self.entry.readings.now.left).records «record» ≡ Some own
            → IsTrue result ↔ IsPutBy led.now ahead back (placed_of self.entry.readings.now.before)
            (placed_of self.entry.readings.now.here) (placed_of self.entry.readings.now.left) own }
    {
        match spread_at(&self.before.from_text, record) {
            Spread::In(old) => match made_of(Some(old), led) {
                Some(new) => self.is_put_of(old, new, record),
                None => false,
            },
            Spread::Nowhere => self.is_put_of_gone(of_gone, record),
            Spread::Several => false,
        }
    }

    /// Those of some records that aren't put together of one of before and of what came of it.
    pub(crate) fn others_than(
        self,
        alloc: Global,
        records: &[usize],
        led: &[Option<usize>],
    ) -> Result<Vec<usize>, AllocError>
        requires known { (ahead back : List Stretch) × AreBeside self ahead back }
        requires led { AreLeading led.now (placed_of self.readings.now.before) (placed_of self.readings.now.here) }
        requires records { (k : ℕ) → Any (◌≡◌ k) records.now → k < length (placed_of self.readings.now.left).records }
        ensures { IfOk result (λ others. (ahead back : List Stretch) → AreBeside self.entry ahead back
            → HaveNoOther ahead back (placed_of self.entry.readings.now.before)
            (placed_of self.entry.readings.now.here) (placed_of self.entry.readings.now.left)
            → AreOthers (IsPutBy led.now ahead back (placed_of self.entry.readings.now.before)
            (placed_of self.entry.readings.now.here) (placed_of self.entry.readings.now.left))
            (placed_of self.entry.readings.now.left) records.now others.items) }
    {
        let of_gone = self.made_of_gone(alloc, led)?;
        let mut others = Vec::new(alloc);
        for record in records {
            let is_put = self.is_put_together(led, &of_gone, *record);
            add_unless(&mut others, is_put, *record)?;
        }
        Ok(others)
    }
}

/// Adds a number, unless this is so.
fn add_unless(list: &mut Vec<usize>, is_so: bool, number: usize) -> Result<(), AllocError>
    ensures { OnOk result (list.new.items ≡ listed_unless is_so number list.old.items) }
{
    if !is_so {
        list.push(number)?;
    }
    Ok(())
}

/// Of each of this many records that it isn't marked.
fn none_marked(alloc: Global, count: usize) -> Result<Vec<bool>, AllocError>
    ensures each { IfOk result (λ made. (k : ℕ) → k < count → slice_get made.items k ≡ Some false) }
    ensures length { IfOk result (λ made. length made.items ≡ count) }
{
    let mut made = Vec::with_capacity(alloc, count)?;
    for number in 0..count {
        made.push(false)?;
    }
    Ok(made)
}

/// Marks the record of a number, where there is one.
fn mark(made: &mut Vec<bool>, one: Option<usize>)
    ensures { made.new.items ≡ marked one made.old.items }
{
    if let Some(number) = one
        && let Some(found) = made.get_mut(number)
    {
        *found = true;
    }
}

fn is_marked(made: &[bool], one: usize) -> bool
    ensures { IsTrue result ↔ (slice_get made.now one ≡ Some true) }
{
    match made.get(one) {
        Some(found) => *found,
        None => false,
    }
}
