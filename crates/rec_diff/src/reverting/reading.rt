//! A text that reads: its elements, and its records with the types of their sets.
ghost use Rattle.std.specs.Prelude.{◌≡◌, ◌≤◌, ◌<◌, ◌+◌, ◌^◌, ◌++◌, length, map, IfOk, MatchOption};
ghost use Rattle.std.specs.Prelude.{◌≢◌, Some, None, IfErr, option_and_then, slice_get};
ghost use Rattle.std.specs.List.{between};
ghost use Rattle.rec_text.specs.declared.fault.Fault.TheVariants.{OutOfMemory};
ghost use Rattle.rec_diff.specs.proving.Reading.{IsTypeAt, field_number, field_numbers, last_type, owner_in, with_type};

use crate::reverting::numbering::numbers;
use crate::turn::{Place, Turn, turned};
use rec_check::type_named;
use rec_text::{Bytes, Database, Element, Fault, elements_in, read};
use std::alloc::{AllocError, Global};
use std::ops::Range;

/// A record: its elements, which ones of all fields are its own, and which one of all types that are named is
/// that of its set.
#[derive(Drop)]
struct Record {
    elements: Range<usize>,
    fields: Range<usize>,
    record_type: Option<usize>,
}

/// The records of a text, with their fields and types.
#[derive(Drop)]
struct Records {
    each: Vec<Record>,
    /// The indexes of the elements that are fields, record by record.
    fields: Vec<usize>,
    /// Of each element the record of which it is a field.
    owners: Vec<Option<usize>>,
    types: Vec<Bytes>,
}

/// A text by its elements and records.
#[derive(Drop)]
pub(crate) struct Reading<'t> {
    database: Database<'t>,
    records: Records,
}

/// The record of this number, where an element of it is a field.
fn owner_in(element: &Element<'_>, number: usize) -> Option<usize>
    ensures { result ≡ owner_in number element.now }
{
    if element.is_field() {
        Some(number)
    } else {
        None
    }
}

/// Adds of each element the record of which it is a field, where they are those of the record of this number.
fn add_owners(
    owners: &mut Vec<Option<usize>>,
    elements: &[Element<'_>],
    number: usize,
) -> Result<(), AllocError>
    ensures { IfOk result (λ _. owners.new.items ≡ owners.old.items ++ map (owner_in number) elements.now) }
{
    for element in elements {
        owners.push(owner_in(element, number))?;
    }
    Ok(())
}

/// Adds the index of an element, if it is a field.
fn add_field(
    fields: &mut Vec<usize>,
    element: &Element<'_>,
    number: usize,
) -> Result<(), AllocError>
    ensures { IfOk result (λ _. fields.new.items ≡ fields.old.items ++ field_number number element.now) }
{
    if element.is_field() {
        fields.push(number)?;
    }
    Ok(())
}

/// Adds the indexes of fields, where the first of these elements has this one.
fn add_fields(
    fields: &mut Vec<usize>,
    elements: &[Element<'_>],
    first: usize,
) -> Result<(), AllocError>
    requires { first + length elements.now < 2 ^ 64 }
    ensures { IfOk result (λ _. fields.new.items ≡ fields.old.items ++ field_numbers first elements.now) }
{
    let mut number = first;
    for element in elements {
        add_field(fields, element, number)?;
        number += 1;
    }
    Ok(())
}

/// Adds the type that a record names, if any, and says which one its set has: the last one that is named.
fn add_type(types: &mut Vec<Bytes>, named: Option<Bytes>) -> Result<Option<usize>, AllocError>
    ensures types { IfOk result (λ _. types.new.items ≡ with_type types.old.items named) }
    ensures last { IfOk result (λ last. IsTypeAt types.new.items last (last_type types.new.items)) }
{
    if let Some(named) = named {
        types.push(named)?;
    }
    Ok(types.len().checked_sub(1))
}

/// The type of a number, if there is one.
fn named_in(types: &[Bytes], number: Option<usize>) -> Option<&[u8]>
    ensures { MatchOption result
        (option_and_then (slice_get types.now) number ≡ None)
        (λ named. option_and_then (slice_get types.now) number ≡ Some named.now) }
{
    match number {
        Some(number) => match types.get(number) {
            Some(named) => Some(named.as_slice()),
            None => None,
        },
        None => None,
    }
}

/// No reading, unless memory ran out.
fn none_unless_memory<'t>(fault: Fault) -> Result<Option<Reading<'t>>, Fault>
    ensures none { IfOk result (λ answer. (answer ≡ None) × (fault ≢ OutOfMemory)) }
    ensures refusals { IfErr result (λ refused. refused ≡ OutOfMemory) }
{
    match fault {
        Fault::OutOfMemory => Err(Fault::OutOfMemory),
        _ => Ok(None),
    }
}

/// The part of some numbers that has these indexes.
fn part_of<'n>(numbers: &'n [usize], range: &Range<usize>) -> &'n [usize]
    requires order { range.now.start ≤ range.now.end }
    requires within { range.now.end ≤ length numbers.now }
    ensures { result.now ≡ between range.now.start range.now.end numbers.now }
{
    &numbers[range.start..range.end]
}

impl Records {
    ghost use Rattle.std.specs.Prelude.{◌≡◌, ◌≤◌, List, [], ◌∷◌, ◌++◌, length, IfOk, IfErr};
    ghost use Rattle.rec_text.specs.declared.fault.Fault.TheVariants.{OutOfMemory};
    ghost use Rattle.rec_text.specs.Elements.{Piece};
    ghost use Rattle.rec_text.specs.Places.{AreFrom, pieces_of};
    ghost use Rattle.rec_diff.specs.proving.Reading.{IsReadSoFar, ranges_of};

    fn new(alloc: Global) -> Records
        ensures so_far { (pieces : List Piece) → IsReadSoFar pieces result }
        ensures none { result.each.items ≡ [] }
        ensures owners { result.owners.items ≡ [] }
    {
        Records {
            each: Vec::new(alloc),
            fields: Vec::new(alloc),
            owners: Vec::new(alloc),
            types: Vec::new(alloc),
        }
    }

    /// Adds the next record, which has the elements of a range.
    fn add(
        &mut self,
        alloc: Global,
        elements: &[Element<'_>],
        range: &Range<usize>,
    ) -> Result<(), Fault>
        requires so_far { IsReadSoFar (pieces_of elements.now) self.old }
        requires places { AreFrom 0 elements.now }
        requires order { range.now.start ≤ range.now.end }
        requires within { range.now.end ≤ length elements.now }
        requires after { length self.old.owners.items ≤ range.now.start }
        ensures so_far { IfOk result (λ _. IsReadSoFar (pieces_of elements.now) self.new) }
        ensures ranges { IfOk result (λ _. ranges_of self.new.each.items
            ≡ ranges_of self.old.each.items ++ range.now ∷ []) }
        ensures end { IfOk result (λ _. length self.new.owners.items ≡ range.now.end) }
        ensures refusals { IfErr result (λ fault. fault ≡ OutOfMemory) }
    {
        let own = elements_in(elements, range);
        let named = type_named(alloc, own)?;
        let start = self.fields.len();
        self.owners.resize(range.start, None)?;
        add_owners(&mut self.owners, own, self.each.len())?;
        add_fields(&mut self.fields, own, range.start)?;
        let record_type = add_type(&mut self.types, named)?;
        self.each.push(Record {
            elements: range.start..range.end,
            fields: start..self.fields.len(),
            record_type,
        })?;
        Ok(())
    }
}

impl<'t> Reading<'t> {
    ghost use Rattle.std.specs.Prelude.{◌≡◌, ◌↔◌, ℕ, List, length, map, Some};
    ghost use Rattle.std.specs.Prelude.{IfOk, IfErr, IsTrue, MatchOption};
    ghost use Rattle.rec_text.specs.declared.fault.Fault.TheVariants.{OutOfMemory};
    ghost use Rattle.rec_text.specs.Places.{AreFrom};
    ghost use Rattle.rec_diff.specs.Changes.{Stretch};
    ghost use Rattle.rec_diff.specs.Placed.{PlacedText, IsPlaced};
    ghost use Rattle.rec_diff.specs.proving.Reading.{AreTurnsOf, AreNumbers, AreOrigins, ArePicked, IsFieldOf};
    ghost use Rattle.rec_diff.specs.proving.Reading.{IsReading, fields_at, placed, placed_of};
    ghost use Rattle.rec_diff.specs.proving.Reading.{text_of_reading, type_at};

    fn of_database(alloc: Global, database: Database<'t>) -> Result<Reading<'t>, Fault>
        ensures read { IfOk result (λ reading. IsReading reading) }
        ensures text { IfOk result (λ reading. reading.database ≡ database.entry) }
        ensures refusals { IfErr result (λ fault. fault ≡ OutOfMemory) }
    {
        let elements = database.elements();
        let mut records = Records::new(alloc);
        for range in database.records() {
            records.add(alloc, elements, &range)?;
        }
        records.owners.resize(elements.len(), None)?;
        Ok(Reading { database, records })
    }

    /// Reads a text; none where it doesn't read.
    pub(crate) fn of(alloc: Global, text: &'t [u8]) -> Result<Option<Reading<'t>>, Fault>
        ensures read { IfOk result (λ answer. MatchOption answer
            ((p : PlacedText) → IsPlaced text.now p → ⊥)
            (λ r. IsReading r × (text_of_reading r ≡ text.now))) }
        ensures refusals { IfErr result (λ fault. fault ≡ OutOfMemory) }
    {
        match read(alloc, text) {
            Ok(database) => Ok(Some(Reading::of_database(alloc, database)?)),
            Err(fault) => none_unless_memory(fault),
        }
    }

    /// Of each element the number of the element of another text that it is, where turns lead there.
    pub(crate) fn numbers_in(
        &self,
        alloc: Global,
        turns: &[Turn],
        other: &Reading<'_>,
    ) -> Result<Vec<Option<usize>>, AllocError>
        requires one { IsReading self.now }
        requires other { IsReading other.now }
        requires turns { (parts : List Stretch)
            × AreTurnsOf parts (text_of_reading self.now) (text_of_reading other.now) turns.now }
        ensures { IfOk result (λ numbers. (parts : List Stretch)
            → AreTurnsOf parts (text_of_reading self.now) (text_of_reading other.now) turns.now
            → AreNumbers parts (placed_of self.now) (placed_of other.now) numbers.items) }
    {
        let last = Place {
            old: self.database.text().len(),
            new: other.database.text().len(),
        };
        numbers(alloc, turns, last, self.elements(), other.elements())
    }

    /// Of each element of another text the number of the element that it was, where turns lead there.
    pub(crate) fn origins_in(
        &self,
        alloc: Global,
        turns: &[Turn],
        other: &Reading<'_>,
    ) -> Result<Vec<Option<usize>>, AllocError>
        requires one { IsReading self.now }
        requires other { IsReading other.now }
        requires turns { (parts : List Stretch)
            × AreTurnsOf parts (text_of_reading self.now) (text_of_reading other.now) turns.now }
        ensures { IfOk result (λ numbers. (parts : List Stretch)
            → AreTurnsOf parts (text_of_reading self.now) (text_of_reading other.now) turns.now
            → AreOrigins parts (placed_of self.now) (placed_of other.now) numbers.items) }
    {
        let back = turned(alloc, turns)?;
        other.numbers_in(alloc, &back, self)
    }

    pub(crate) fn elements(&self) -> &[Element<'t>]
        ensures elements { map placed result.now ≡ (placed_of self.now).elements }
        ensures places { AreFrom 0 result.now }
    {
        self.database.elements()
    }

    /// How many records there are.
    pub(crate) fn count(&self) -> usize
        ensures { result ≡ length (placed_of self.now).records }
    {
        self.records.each.len()
    }

    /// The indexes of a record's fields among the elements.
    pub(crate) fn fields_of(&self, number: usize) -> &[usize]
        requires { IsReading self.now }
        ensures { ArePicked (placed_of self.now).elements result.now (fields_at (placed_of self.now) number) }
    {
        match self.records.each.get(number) {
            Some(own) => part_of(&self.records.fields, &own.fields),
            None => &[],
        }
    }

    /// The record of which an element is a field.
    pub(crate) fn owner_of(&self, element: usize) -> Option<usize>
        requires { IsReading self.now }
        ensures { (k : ℕ) → (result ≡ Some k) ↔ IsFieldOf (placed_of self.now) element k }
    {
        match self.records.owners.get(element) {
            Some(owner) => *owner,
            None => None,
        }
    }

    /// The type of a record's set.
    fn type_of(&self, number: usize) -> Option<&[u8]>
        requires { IsReading self.now }
        ensures { MatchOption result
            (type_at (placed_of self.now) number ≡ None)
            (λ named. type_at (placed_of self.now) number ≡ Some named.now) }
    {
        match self.records.each.get(number) {
            Some(own) => named_in(&self.records.types, own.record_type),
            None => None,
        }
    }

    /// Whether a record is of a set of the same type as one of another text.
    pub(crate) fn has_type_of(&self, number: usize, other: &Reading<'_>, one: usize) -> bool
        requires own { IsReading self.now }
        requires other { IsReading other.now }
        ensures { IsTrue result ↔ (type_at (placed_of self.now) number ≡ type_at (placed_of other.now) one) }
    {
        match self.type_of(number) {
            Some(own) => match other.type_of(one) {
                Some(its) => own == its,
                None => false,
            },
            None => other.type_of(one).is_none(),
        }
    }
}
