//! Prints what record sets a text has.
ghost use Rattle.std.specs.Prelude.{◌++◌, ℕ, flat_map, List, IsOkUnless, option_map};
ghost use Rattle.std.specs.declared.ops.Range.{Range};
ghost use Rattle.rec_text.specs.Faults.{IsOkUnlessEither};
ghost use Rattle.rec_text.specs.Records.{AreRecords};
ghost use Rattle.rec_check.specs.Stored.{described};
ghost use Rattle.rec_select.specs.declared.info.InfoForm.TheVariants.{Descriptors};
ghost use Rattle.rec_select.specs.declared.records.Shape.TheVariants.{Blocks};
ghost use Rattle.rec_select.specs.proving.Blocks.{gap};
ghost use Rattle.rec_select.specs.proving.Heads.{AreHeads};
ghost use Rattle.rec_select.specs.Info.{IsInfo, count_line, name_line, info, sets_for};
ghost use Rattle.rec_select.specs.Printing.{block_of};
ghost use Rattle.rec_select.specs.Selection.{Answers};
ghost use Rattle.rec_select.specs.Taken.{Prints, PrintsAndCounts, Puts};

use crate::excerpt::Excerpt;
use crate::parts::put_parts;
use crate::telling::refused_set;
use itoa::Buffer;
use rec_check::{RecFile, Schema, Set_};
use rec_text::{Database, Fault, Refusal, Sink, put_all};
use std::alloc::Global;
use std::slice;

/// What is printed of each set.
#[derive(Clone, Copy)]
pub enum InfoForm {
    /// How many records it holds, and its type.
    Counts,
    /// Its type.
    Names,
    /// Its descriptor.
    Descriptors,
}

/// All sets, or that of a type.
fn sets_for<'s>(
    alloc: Global,
    schema: &'s Schema,
    record_type: Option<&[u8]>,
) -> Result<&'s [Set_], Refusal>
    ensures { Answers (λ kept. kept.now) result
        (sets_for (option_map (λ record_type. record_type.now) record_type.entry) (described schema.now).sets) }
{
    let Some(record_type) = record_type else {
        return Ok(schema.sets());
    };
    match schema.set_of_type(record_type) {
        Some(place) => Ok(slice::from_ref(&schema.sets()[place])),
        None => Err(refused_set(alloc, schema, Fault::NoSuchType)),
    }
}

fn write_count<S: Sink>(set: &Set_, out: &mut S) -> Result<(), Fault>
    ensures printed { Prints S.contents S.failure_count out.old out.new (count_line set.now) result }
    ensures refusals { IsOkUnless result Fault.StoreFailed }
{
    let size = set.members.len();
    let mut buffer = Buffer::new();
    let number = buffer.format(size).as_bytes();
    match &set.kind {
        Some(record_type) => put_parts(out, &[number, b" ", record_type.as_slice(), b"\n"]),
        None if size > 0 => put_parts(out, &[number, b"\n"]),
        None => Ok(()),
    }
}

fn write_name<S: Sink>(set: &Set_, out: &mut S) -> Result<(), Fault>
    ensures printed { Prints S.contents S.failure_count out.old out.new (name_line set.now) result }
    ensures refusals { IsOkUnless result Fault.StoreFailed }
{
    match &set.kind {
        Some(record_type) => put_parts(out, &[record_type.as_slice(), b"\n"]),
        None => Ok(()),
    }
}

fn write_counts<S: Sink>(sets: &[Set_], out: &mut S) -> Result<(), Fault>
    ensures printed { Prints S.contents S.failure_count out.old out.new (flat_map count_line sets.now) result }
    ensures refusals { IsOkUnless result Fault.StoreFailed }
{
    for set in sets {
        write_count(set, out)?;
    }
    Ok(())
}

fn write_names<S: Sink>(sets: &[Set_], out: &mut S) -> Result<(), Fault>
    ensures printed { Prints S.contents S.failure_count out.old out.new (flat_map name_line sets.now) result }
    ensures refusals { IsOkUnless result Fault.StoreFailed }
{
    for set in sets {
        write_name(set, out)?;
    }
    Ok(())
}

/// Prints a record, after an empty line unless it is the first.
fn write_next_block<S: Sink>(head: &Excerpt, is_first: bool, out: &mut S) -> Result<(), Fault>
    ensures printed { Prints S.contents S.failure_count out.old out.new
        (gap is_first ++ block_of Blocks head.now) result }
    ensures refusals { IsOkUnless result Fault.StoreFailed }
{
    if !is_first {
        put_all(out, b"\n")?;
    }
    head.write_fields(out)
}

/// Prints the descriptors of sets that stand in file order, in one walk over the records.
fn write_descriptors<S: Sink>(database: &Database, sets: &[Set_], out: &mut S) -> Result<(), Fault>
    requires { AreHeads database.now sets.now }
    ensures printed { (records : List (Range ℕ)) → AreRecords database.now records
        → Prints S.contents S.failure_count out.old out.new (info Descriptors database.now records sets.now) result }
    ensures refusals { IsOkUnless result Fault.StoreFailed }
{
    let text = Excerpt::of(database);
    let mut records = database.records();
    let mut passed = 0;
    for set in sets {
        let Some(head) = set.head else {
            continue;
        };
        let Some(fields) = records.nth(head - passed) else {
            continue;
        };
        write_next_block(&text.part(fields), passed == 0, out)?;
        passed = head + 1;
    }
    Ok(())
}

fn write_sets<S: Sink>(
    database: &Database,
    sets: &[Set_],
    form: InfoForm,
    out: &mut S,
) -> Result<(), Fault>
    requires { AreHeads database.now sets.now }
    ensures printed { (records : List (Range ℕ)) → AreRecords database.now records
        → Prints S.contents S.failure_count out.old out.new (info form database.now records sets.now) result }
    ensures refusals { IsOkUnless result Fault.StoreFailed }
{
    match form {
        InfoForm::Counts => write_counts(sets, out),
        InfoForm::Names => write_names(sets, out),
        InfoForm::Descriptors => write_descriptors(database, sets, out),
    }
}

/// Prints what sets there are, or what the set of a type is.
pub fn write_info<S: Sink>(
    alloc: Global,
    file: &RecFile,
    record_type: Option<&[u8]>,
    form: InfoForm,
    out: &mut S,
) -> Result<(), Refusal>
    ensures written { PrintsAndCounts S.contents S.failure_count out.old out.new
        (Puts (IsInfo file.now.pieces (described file.now.schema).sets
        (option_map (λ record_type. record_type.now) record_type.entry) form)) result }
    ensures refusals { IsOkUnlessEither result Fault.NoSuchType Fault.StoreFailed }
{
    let sets = sets_for(alloc, file.schema(), record_type)?;
    Ok(write_sets(file.database(), sets, form, out)?)
}
