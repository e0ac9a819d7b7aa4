//! Finds the records that a selection takes.
ghost use Rattle.std.specs.Prelude.{◌≡◌, ◌≤◌, ℕ, List, [], length, Result, Ok, Err, IfOk, IfErr, IsOk, IsOkUnless, MatchResult, OnOk};
ghost use Rattle.std.specs.declared.ops.Range.{Range};
ghost use Rattle.rec_text.specs.declared.fault.Fault.{Fault};
ghost use Rattle.rec_text.specs.Faults.{IsMemoryOr, IsOkUnlessEither};
ghost use Rattle.rec_text.specs.Records.{AreRecords};
ghost use Rattle.rec_check.specs.Stored.{described};
ghost use Rattle.rec_select.specs.Printing.{AreIndexes};
ghost use Rattle.rec_select.specs.proving.Filters.{stands_for};
ghost use Rattle.rec_select.specs.Selection.{Answers, AreSelected, IsChoice, has_members, set_without_type, set_of_type, set_for};

use crate::excerpt::Excerpt;
use crate::filter::Filter;
use crate::selection::Selection;
use crate::telling::refused_set;
use rec_check::{RecFile, Schema, Set_};
use rec_text::{Bytes, Fault, Refusal};
use std::alloc::Global;

fn has_records(set: &Set_) -> bool
    ensures { result ≡ has_members set.now }
{
    set.members.start < set.members.end
}

/// The set that is meant where no type is given.
fn meant_set(sets: &[Set_]) -> Result<&Set_, Fault>
    ensures set { Answers (λ set. set.now) result (set_without_type sets.now) }
    ensures refusals { IsOkUnless result Fault.TypeNeeded }
{
    match sets {
        [untyped, ..] if has_records(untyped) => Ok(untyped),
        [only] | [_, only] => Ok(only),
        _ => Err(Fault::TypeNeeded),
    }
}

fn typed_set<'s>(schema: &'s Schema, record_type: &[u8]) -> Result<&'s Set_, Fault>
    ensures set { Answers (λ set. set.now) result (set_of_type record_type.now (described schema.now).sets) }
    ensures refusals { IsOkUnless result Fault.NoSuchType }
{
    match schema.set_of_type(record_type) {
        Some(place) => Ok(&schema.sets()[place]),
        None => Err(Fault::NoSuchType),
    }
}

/// The set that is selected from.
fn set_of<'s>(
    alloc: Global,
    schema: &'s Schema,
    record_type: &Option<Bytes>,
) -> Result<&'s Set_, Refusal>
    ensures set { Answers (λ set. set.now) result (set_for record_type.now (described schema.now).sets) }
    ensures refusals { IsOkUnlessEither result Fault.TypeNeeded Fault.NoSuchType }
{
    let found = match record_type {
        Some(record_type) => typed_set(schema, record_type.as_slice()),
        None => meant_set(schema.sets()),
    };
    match found {
        Ok(set) => Ok(set),
        Err(fault) => Err(refused_set(alloc, schema, fault)),
    }
}

/// Adds the members of a set that pass a filter, by their indexes among all records.
fn add_members(
    alloc: Global,
    file: &RecFile,
    set: &Set_,
    filter: &mut Filter,
    selected: &mut Vec<usize>,
) -> Result<(), Fault>
    requires within { (records : List (Range ℕ)) → AreRecords file.now.pieces records
        → set.now.members.end ≤ length records }
    requires none { selected.old.items ≡ [] }
    ensures selected { OnOk result (AreSelected file.now.pieces set.now
        (stands_for filter.old) selected.new.items) }
    ensures refusals { IsOkUnless result Fault.OutOfMemory }
{
    let database = file.database();
    let members = &set.members;
    let text = Excerpt::of(database);
    for (index, record) in database.records().enumerate().take(members.end) {
        if index >= members.start {
            let fields = text.part(record);
            if filter.passes(alloc, &fields, index - members.start)? {
                selected.push(index)?;
            }
        }
    }
    Ok(())
}

/// The records that a selection takes, as ascending indexes into the list of records. A descriptor is never taken.
pub fn choose(alloc: Global, file: &RecFile, selection: &Selection) -> Result<Vec<usize>, Refusal>
    ensures selected { IfOk result (λ selected.
        IsChoice file.now.pieces file.now.schema selection.now (Ok selected.items)) }
    ensures indexes { IfOk result (λ selected. AreIndexes file.now.pieces selected.items) }
    ensures refused { IfErr result (λ fault. IsMemoryOr fault
        (IsChoice file.now.pieces file.now.schema selection.now (Err fault))) }
    // Memory runs out only where there is a set to select from.
    ensures set { IfErr result (λ fault. fault ≡ Fault.OutOfMemory
        → IsOk (set_for selection.now.kind (described file.now.schema).sets)) }
    ensures only { (other : Result (List ℕ) Fault) → IsChoice file.now.pieces file.now.schema selection.now other
        → MatchResult result (λ selected. other ≡ Ok selected.items) (λ fault. IsMemoryOr fault (other ≡ Err fault)) }
{
    let set = set_of(alloc, file.schema(), &selection.kind)?;
    let mut filter = Filter::of(alloc, &selection.by)?;
    let mut selected = Vec::new(alloc);
    add_members(alloc, file, set, &mut filter, &mut selected)?;
    Ok(selected)
}
