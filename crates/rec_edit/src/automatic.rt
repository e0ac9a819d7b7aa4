//! The automatic fields of a new record.
ghost use Rattle.std.specs.Prelude.{◌<◌, length, Err, Ok, IfOk, IfErr, IsOkUnless, MatchOption};
ghost use Rattle.rec_text.specs.Faults.{IsMemoryOr};
ghost use Rattle.rec_check.specs.Stored.{described};
ghost use Rattle.rec_edit.specs.proving.Files.{AreLackingIn, AreAutomaticIn, IsAutomaticTextIn};
ghost use Rattle.rec_edit.specs.proving.Filling.{numbered, AreNamesOf, GivesNone, GivesAt};
ghost use Rattle.rec_edit.specs.Wording.{names_in};

pub mod filled;
pub mod filling;
mod numbered;

use crate::automatic::numbered::{NumberedField, append_numbered, give};
use crate::request::Pair;
use rec_check::RecFile;
use rec_text::{Bytes, Fault, Refusal};
use std::alloc::Global;
use std::collections::HashSet;

/// The place of the set whose automatic fields a new record gets, if it gets any.
fn set_for(file: &RecFile, record_type: &Option<Bytes>, auto: bool) -> Option<usize>
    ensures { MatchOption result
        (GivesNone (described file.now.schema) record_type.now auto)
        (GivesAt (described file.now.schema) record_type.now auto) }
{
    let Some(record_type) = record_type else {
        return None;
    };
    if !auto {
        return None;
    }
    file.schema().set_of_type(record_type.as_slice())
}

/// The names of a new record.
fn names_of<'p>(alloc: Global, pairs: &'p [Pair]) -> Result<HashSet<&'p [u8]>, Fault>
    ensures names { IfOk result (λ names. AreNamesOf names (names_in pairs.now)) }
    ensures refusals { IsOkUnless result Fault.OutOfMemory }
{
    let mut names = HashSet::new(alloc);
    for pair in pairs {
        names.insert(pair.name.as_slice())?;
    }
    Ok(names)
}

/// The automatic fields of the set at a place that a new record lacks.
fn given_at<'s>(
    alloc: Global,
    file: &'s RecFile<'_>,
    place: usize,
    pairs: &[Pair],
) -> Result<Vec<NumberedField<'s>>, Refusal>
    requires { place < length (described file.now.schema).sets }
    ensures given { IfOk result (λ given. AreLackingIn file.now place pairs.now (Ok (numbered given.items))) }
    ensures refused { IfErr result (λ fault. IsMemoryOr fault (AreLackingIn file.now place pairs.now (Err fault))) }
{
    let names = names_of(alloc, pairs)?;
    let mut counters = file.schema().counters(alloc, file.database(), place)?;
    give(alloc, &mut counters, &names)
}

/// The text of the automatic fields that a new record of a type lacks; it is empty where none are asked for.
pub(crate) fn automatic_fields(
    alloc: Global,
    file: &RecFile,
    record_type: &Option<Bytes>,
    auto: bool,
    pairs: &[Pair],
) -> Result<Vec<u8>, Refusal>
    ensures found { IfOk result (λ text. IsAutomaticTextIn file.now record_type.now auto pairs.now text.items) }
    ensures refused { IfErr result (λ fault.
        IsMemoryOr fault (AreAutomaticIn file.now record_type.now auto pairs.now (Err fault))) }
{
    let mut text = Vec::new(alloc);
    let Some(place) = set_for(file, record_type, auto) else {
        return Ok(text);
    };
    let given = given_at(alloc, file, place, pairs)?;
    append_numbered(&mut text, &given)?;
    Ok(text)
}
