//! New records.
ghost use Rattle.std.specs.Prelude.{◌≡◌, ◌≢◌, ◌∷◌, [], length, option_to_list, map, Err, Ok, IfOk, IfErr, IsOkUnless, MatchOption};
ghost use Rattle.std.specs.List.{list_all};
ghost use Rattle.rec_text.specs.Ascii.{space};
ghost use Rattle.rec_text.specs.Canonical.{is_plain_name as may_be_written, is_foldable as can_be_folded};
ghost use Rattle.rec_text.specs.Elements.{AreElementsOf};
ghost use Rattle.rec_text.specs.Faults.{IsMemoryOr};
ghost use Rattle.rec_text.specs.Places.{piece_of, pieces_of};
ghost use Rattle.rec_edit.specs.proving.Causes.{cause_of as reason_of};
ghost use Rattle.rec_edit.specs.Task.{fresh_by};
ghost use Rattle.rec_edit.specs.Wording.{pair_of as pair_in, pairs_of, names_in, IsRecordText, ArePairs, IsNewRecord};

use crate::request::{NewRecord, Pair};
use crate::wording::{refused_name, require_written};
use rec_text::{
    Bytes, Database, Element, Fault, Reason, Refusal, elements_in, is_foldable, is_plain_name, read,
};
use std::alloc::{AllocError, Global};
use std::ops::Range;

/// Names and values of one's own.
fn copies(alloc: Global, pairs: &[Pair]) -> Result<Vec<Pair>, AllocError>
    ensures { IfOk result (λ copies. copies.items ≡ pairs.now) }
{
    let mut copies = Vec::with_capacity(alloc, pairs.len())?;
    for pair in pairs {
        let name = Bytes::copy_of(alloc, pair.name.as_slice())?;
        let value = Bytes::copy_of(alloc, pair.value.as_slice())?;
        copies.push(Pair { name, value })?;
    }
    Ok(copies)
}

/// The name and the value of a field.
fn pair_of(alloc: Global, field: &Element) -> Result<Pair, Fault>
    ensures pair { IfOk result (λ pair. pair ≡ pair_in (piece_of field.now)) }
    ensures refusals { IsOkUnless result Fault.OutOfMemory }
{
    let name = Bytes::copy_of(alloc, field.name())?;
    let value = field.value(alloc)?;
    let value = Bytes::copy_of(alloc, value.bytes())?;
    Ok(Pair { name, value })
}

/// The names and values of the fields among a record's elements.
fn pairs_in(alloc: Global, own: &[Element]) -> Result<Vec<Pair>, Fault>
    ensures pairs { IfOk result (λ pairs. pairs.items ≡ pairs_of (pieces_of own.now)) }
    ensures refusals { IsOkUnless result Fault.OutOfMemory }
{
    let mut pairs = Vec::new(alloc);
    for element in own {
        if element.is_field() {
            pairs.push(pair_of(alloc, element)?)?;
        }
    }
    Ok(pairs)
}

/// The refusal of a text that isn't one record.
fn not_one(alloc: Global) -> Refusal
    ensures { result ≡ Fault.BadRecord }
{
    Refusal::from(Fault::BadRecord).about(alloc, Some(Reason::NotOneRecord))
}

/// Why a text that can't be read is refused as a record.
fn cause_of(alloc: Global, fault: Fault) -> Refusal
    ensures { result ≡ reason_of fault }
{
    match fault {
        Fault::OutOfMemory => Refusal::from(Fault::OutOfMemory),
        _ => not_one(alloc),
    }
}

/// Reads the text of a new record.
fn read_record<'t>(alloc: Global, text: &'t [u8]) -> Result<Database<'t>, Refusal>
    ensures elements { IfOk result (λ database. AreElementsOf database text.now) }
    ensures refused { IfErr result (λ fault. IsMemoryOr fault (IsRecordText text.now (Err fault))) }
{
    match read(alloc, text) {
        Ok(database) => Ok(database),
        Err(fault) => Err(cause_of(alloc, fault)),
    }
}

/// The record that stands alone.
fn only_one(records: &[Range<usize>]) -> Option<&Range<usize>>
    ensures { MatchOption result (length records.now ≢ 1) (λ only. records.now ≡ only.now ∷ []) }
{
    if records.len() == 1 {
        Some(&records[0])
    } else {
        None
    }
}

/// The names and values of the one record that a text holds.
fn pairs_of_text(alloc: Global, text: &[u8]) -> Result<Vec<Pair>, Refusal>
    ensures found { IfOk result (λ pairs. IsRecordText text.now (Ok pairs.items)) }
    ensures refused { IfErr result (λ fault. IsMemoryOr fault (IsRecordText text.now (Err fault))) }
{
    let database = read_record(alloc, text)?;
    match only_one(database.records().as_slice()) {
        Some(record) => Ok(pairs_in(alloc, elements_in(database.elements(), record))?),
        None => Err(not_one(alloc)),
    }
}

/// The names and values that are given, one by one or as a text.
fn given_pairs(alloc: Global, fresh: &NewRecord) -> Result<Vec<Pair>, Refusal>
    ensures found { IfOk result (λ pairs. ArePairs (fresh_by fresh.now) (Ok pairs.items)) }
    ensures refused { IfErr result (λ fault. IsMemoryOr fault (ArePairs (fresh_by fresh.now) (Err fault))) }
{
    match fresh {
        NewRecord::Pairs(pairs) if pairs.is_empty() => {
            Err(Refusal::from(Fault::BadRecord).about(alloc, Some(Reason::NoFields)))
        }
        NewRecord::Pairs(pairs) => Ok(copies(alloc, pairs)?),
        NewRecord::Text(text) => pairs_of_text(alloc, text.as_slice()),
    }
}

fn pairs_have_plain_names(pairs: &[Pair]) -> bool
    ensures { result ≡ list_all may_be_written (names_in pairs.now) }
{
    pairs.iter().all(|pair| is_plain_name(pair.name.as_slice()))
}

fn have_foldable_values(pairs: &[Pair]) -> bool
    ensures { result ≡ list_all (can_be_folded space) (map (λ pair. pair.value) pairs.now) }
{
    pairs.iter().all(|pair| is_foldable(pair.value.as_slice()))
}

/// Whether a type, where one is given, is a name that recu writes.
fn is_plain_type(record_type: &Option<Bytes>) -> bool
    ensures { result ≡ list_all may_be_written (option_to_list record_type.now) }
{
    match record_type {
        Some(record_type) => is_plain_name(record_type.as_slice()),
        None => true,
    }
}

/// The first name that isn't written, of a type and of fields.
fn bad_name<'p>(record_type: &'p Option<Bytes>, pairs: &'p [Pair]) -> Option<&'p [u8]> {
    if !is_plain_type(record_type) {
        return Some(record_type.as_ref()?.as_slice());
    }
    let pair = pairs
        .iter()
        .find(|pair| !is_plain_name(pair.name.as_slice()))?;
    Some(pair.name.as_slice())
}

/// The name of the first field whose value isn't written.
fn name_of_bad_value(pairs: &[Pair]) -> Option<&[u8]> {
    let pair = pairs
        .iter()
        .find(|pair| !is_foldable(pair.value.as_slice()))?;
    Some(pair.name.as_slice())
}

/// The refusal of a new record of which a name or a value isn't written.
fn unwritten(alloc: Global, record_type: &Option<Bytes>, pairs: &[Pair], fault: Fault) -> Refusal
    ensures { result ≡ fault }
{
    let name = match fault {
        Fault::BadName => bad_name(record_type, pairs),
        _ => name_of_bad_value(pairs),
    };
    refused_name(alloc, name, fault)
}

/// The fields of a new record, of this type where one is given.
pub(crate) fn new_record(
    alloc: Global,
    record_type: &Option<Bytes>,
    fresh: &NewRecord,
) -> Result<Vec<Pair>, Refusal>
    ensures found { IfOk result (λ pairs. IsNewRecord record_type.now (fresh_by fresh.now) (Ok pairs.items)) }
    ensures refused { IfErr result (λ fault. IsMemoryOr fault
        (IsNewRecord record_type.now (fresh_by fresh.now) (Err fault))) }
{
    let pairs = given_pairs(alloc, fresh)?;
    let names_are_plain = is_plain_type(record_type) && pairs_have_plain_names(&pairs);
    match require_written(names_are_plain, have_foldable_values(&pairs)) {
        Ok(()) => Ok(pairs),
        Err(fault) => Err(unwritten(alloc, record_type, &pairs, fault)),
    }
}
