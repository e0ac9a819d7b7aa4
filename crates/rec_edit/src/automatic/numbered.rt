//! Automatic fields with their numbers.
ghost use Rattle.std.specs.Prelude.{◌≡◌, ◌++◌, ℕ, ℤ, List, IfOk, IfErr, OnOk};
ghost use Rattle.std.specs.Fmt.{signed_decimal};
ghost use Rattle.rec_text.specs.Canonical.{field_of};
ghost use Rattle.rec_text.specs.Elements.{text_of};
ghost use Rattle.rec_text.specs.Faults.{IsMemoryOr};
ghost use Rattle.rec_check.specs.Counters.{AreCounters};
ghost use Rattle.rec_check.specs.Rules.{Rules};
ghost use Rattle.rec_edit.specs.proving.Filling.{numbered, AreNamesOf, IsGiven, IsRefused};
ghost use Rattle.rec_edit.specs.Insertions.{numbered_fields};

use itoa::Buffer;
use rec_check::Counter;
use rec_text::{Refusal, append_field};
use std::alloc::{AllocError, Global};
use std::collections::HashSet;

/// An automatic field, with its number.
#[derive(Clone, Copy)]
pub(crate) struct NumberedField<'s> {
    pub name: &'s [u8],
    pub number: i64,
}

fn append_one(out: &mut Vec<u8>, field: &NumberedField) -> Result<(), AllocError>
    ensures { OnOk result
        (out.new.items ≡ out.old.items ++ field_of field.now.name.now (signed_decimal field.now.number)) }
{
    let mut buffer = Buffer::new();
    append_field(out, field.name, buffer.format(field.number).as_bytes())
}

/// Appends fields with their numbers.
pub(crate) fn append_numbered(out: &mut Vec<u8>, fields: &[NumberedField]) -> Result<(), AllocError>
    ensures { OnOk result (out.new.items ≡ out.old.items ++ text_of (numbered_fields (numbered fields.now))) }
{
    for field in fields {
        append_one(out, field)?;
    }
    Ok(())
}

/// Gives each counter its next number whose name isn't among these.
pub(crate) fn give<'s>(
    alloc: Global,
    counters: &mut [Counter<'s>],
    names: &HashSet<&[u8]>,
) -> Result<Vec<NumberedField<'s>>, Refusal>
    ensures given { (rules : Rules) (numbers : List ℕ → List ℤ) (own : List (List ℕ))
        → AreCounters rules numbers counters.old → AreNamesOf names.now own
        → IfOk result (λ given. IsGiven rules numbers own (numbered given.items) counters.new) }
    ensures refused { (rules : Rules) (numbers : List ℕ → List ℤ) (own : List (List ℕ))
        → AreCounters rules numbers counters.old → AreNamesOf names.now own
        → IfErr result (λ fault. IsMemoryOr fault (IsRefused rules numbers own fault)) }
{
    let mut given = Vec::new(alloc);
    for i in 0..counters.len() {
        let name = counters[i].name();
        if names.contains(name) {
            continue;
        }
        let number = counters[i].next_number(alloc)?;
        given.push(NumberedField { name, number })?;
    }
    Ok(given)
}
