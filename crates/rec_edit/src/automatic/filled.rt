//! Records with the automatic fields that they get.
ghost use Rattle.std.specs.Prelude.{◌≡◌, ◌<◌, ◌++◌, [], ℕ, ℤ, List, Ok, Err, length, map, option_to_list, IfOk, IfErr, IsOkUnless, OnOk};
ghost use Rattle.std.specs.declared.ops.Range.{Range};
ghost use Rattle.rec_text.specs.Faults.{IsMemoryOr};
ghost use Rattle.rec_text.specs.Places.{pieces_of};
ghost use Rattle.rec_check.specs.declared.set.Set_.{Set_ as SetOf};
ghost use Rattle.rec_check.specs.Counters.{AreCounters};
ghost use Rattle.rec_check.specs.DescribedTexts.{BelongTogether};
ghost use Rattle.rec_check.specs.Rules.{Rules};
ghost use Rattle.rec_check.specs.Stored.{described};
ghost use Rattle.rec_check.specs.Violations.{names_of};
ghost use Rattle.rec_check.specs.Walking.{AreWithin};
ghost use Rattle.rec_edit.specs.Automatic.{AreFilled};
ghost use Rattle.rec_edit.specs.proving.Files.{AreFilledIn, AreFilledSetIn, IsSetIn};
ghost use Rattle.rec_edit.specs.proving.Filling.{numbered, filled_of, AreNamesOf, IsGiven, IsRefused, FillsMore};

use crate::automatic::numbered::{NumberedField, give};
use rec_check::{Counter, RecFile, Set_};
use rec_text::{Element, Fault, Refusal, elements_in};
use std::alloc::{AllocError, Global};
use std::collections::HashSet;
use std::ops::Range;

/// The automatic fields that are put first in a record.
#[derive(Drop)]
pub(crate) struct FilledRecord<'s> {
    pub given: Vec<NumberedField<'s>>,
}

/// Puts the names of fields instead of others.
fn take_names<'t>(names: &mut HashSet<&'t [u8]>, fields: &[Element<'t>]) -> Result<(), Fault>
    ensures names { OnOk result (AreNamesOf names.new (names_of (pieces_of fields.now))) }
    ensures refusals { IsOkUnless result Fault.OutOfMemory }
{
    names.clear();
    for field in fields {
        if field.is_field() {
            names.insert(field.name())?;
        }
    }
    Ok(())
}

/// Gives a record of these fields what it lacks.
fn fill_record<'s, 't>(
    alloc: Global,
    counters: &mut [Counter<'s>],
    names: &mut HashSet<&'t [u8]>,
    fields: &[Element<'t>],
) -> Result<Vec<NumberedField<'s>>, Refusal>
    ensures given { (rules : Rules) (numbers : List ℕ → List ℤ) → AreCounters rules numbers counters.old
        → IfOk result (λ given.
        IsGiven rules numbers (names_of (pieces_of fields.now)) (numbered given.items) counters.new) }
    ensures refused { (rules : Rules) (numbers : List ℕ → List ℤ) → AreCounters rules numbers counters.old
        → IfErr result (λ fault. IsMemoryOr fault (IsRefused rules numbers (names_of (pieces_of fields.now)) fault)) }
{
    if counters.is_empty() {
        return Ok(Vec::new(alloc));
    }
    take_names(names, fields)?;
    give(alloc, counters, names)
}

/// Fills the records of a set, one after another.
fn fill_records<'s, 't>(
    alloc: Global,
    counters: &mut [Counter<'s>],
    elements: &[Element<'t>],
    records: &[Range<usize>],
    filled: &mut Vec<FilledRecord<'s>>,
) -> Result<(), Refusal>
    requires { AreWithin (length elements.now) records.now }
    ensures filled { (rules : Rules) (numbers : List ℕ → List ℤ) → AreCounters rules numbers counters.old
        → OnOk result (FillsMore
        (AreFilled (pieces_of elements.now) rules numbers records.now) filled.old.items filled.new.items) }
    ensures refused { (rules : Rules) (numbers : List ℕ → List ℤ) → AreCounters rules numbers counters.old
        → IfErr result (λ fault.
        IsMemoryOr fault (AreFilled (pieces_of elements.now) rules numbers records.now (Err fault))) }
{
    let mut names = HashSet::new(alloc);
    for record in records {
        let fields = elements_in(elements, record);
        let given = fill_record(alloc, counters, &mut names, fields)?;
        filled.push(FilledRecord { given })?;
    }
    Ok(())
}

/// A descriptor is given none.
fn fill_head<'s>(
    alloc: Global,
    set: &Set_,
    filled: &mut Vec<FilledRecord<'s>>,
) -> Result<(), AllocError>
    ensures { OnOk result
        (filled_of filled.new.items ≡ filled_of filled.old.items ++ map (λ _. []) (option_to_list set.now.head)) }
{
    if set.head.is_some() {
        filled.push(FilledRecord {
            given: Vec::new(alloc),
        })?;
    }
    Ok(())
}

/// Fills the records of the set at this place, its descriptor among them.
fn fill_set<'s>(
    alloc: Global,
    file: &'s RecFile<'_>,
    place: usize,
    filled: &mut Vec<FilledRecord<'s>>,
) -> Result<(), Refusal>
    requires { place < length (described file.now.schema).sets }
    ensures filled { (records : List (Range ℕ)) (s : SetOf) (rules : Rules) → IsSetIn file.now place records s rules
        → OnOk result (FillsMore (AreFilledSetIn file.now records s rules) filled.old.items filled.new.items) }
    ensures refused { (records : List (Range ℕ)) (s : SetOf) (rules : Rules) → IsSetIn file.now place records s rules
        → IfErr result (λ fault. IsMemoryOr fault (AreFilledSetIn file.now records s rules (Err fault))) }
{
    let (database, schema) = (file.database(), file.schema());
    fill_head(alloc, &schema.sets()[place], filled)?;
    let mut counters = schema.counters(alloc, database, place)?;
    let records = schema.members(database, place);
    fill_records(alloc, &mut counters, database.elements(), records, filled)
}

/// What each record is given, set by set: the automatic fields that it lacks.
pub(crate) fn filled_records<'s>(
    alloc: Global,
    file: &'s RecFile<'_>,
) -> Result<Vec<FilledRecord<'s>>, Refusal>
    ensures filled { IfOk result (λ filled. AreFilledIn file.now (Ok (filled_of filled.items))) }
    ensures refused { IfErr result (λ fault. IsMemoryOr fault (AreFilledIn file.now (Err fault))) }
    ensures together { BelongTogether file.now }
{
    let mut filled = Vec::new(alloc);
    for place in 0..file.schema().sets().len() {
        fill_set(alloc, file, place, &mut filled)?;
    }
    Ok(filled)
}
