//! Automatic values: what may be counted, and the number after the greatest.
ghost use Rattle.std.specs.Prelude.{◌≡◌, ◌&&◌, not, IfOk, IsOkUnless};
ghost use Rattle.rec_text.specs.Places.{piece_of};
ghost use Rattle.rec_text.specs.Values.{value_of};
ghost use Rattle.rec_sex.specs.Integers.{int_of};
ghost use Rattle.rec_check.specs.Automatic.{automatic_names, may_count, begins_special, is_counter as may_be_counted};
ghost use Rattle.rec_text.specs.Bytes.{texts};
ghost use Rattle.rec_check.specs.Counting.{greater, IsNextNumber};
ghost use Rattle.rec_check.specs.Stored.{rules_stored};
ghost use Rattle.rec_check.specs.proving.Tests.{type_in};

pub mod counter;

use crate::checks::names::Names;
use crate::field_types::types::Types;
use crate::rules::Rules;
use rec_sex::int_of;
use rec_text::{Element, Fault};
use std::alloc::{AllocError, Global};

/// The names of the counters, each where it stands first.
pub(crate) fn automatic_names(alloc: Global, rules: &Rules) -> Result<Vec<&[u8]>, AllocError>
    ensures { IfOk result (λ names. texts names.items ≡ automatic_names (rules_stored rules.now)) }
{
    let names = Names::of(alloc, &rules.automatic)?;
    Vec::from_slice(alloc, names.as_slice())
}

pub(crate) fn begins_special(name: &[u8]) -> bool
    ensures { result ≡ begins_special name.now }
{
    match name {
        [first, ..] => *first == b'%',
        [] => false,
    }
}

/// Whether a field of these types may be a counter.
pub(crate) fn is_counter(types: &Types, name: &[u8]) -> bool
    ensures { result ≡ (not (begins_special name.now) && may_count (type_in types.now name.now)) }
{
    !begins_special(name) && types.may_count(name)
}

/// Whether a field may be a counter under these rules.
pub(crate) fn may_be_counter(alloc: Global, rules: &Rules, name: &[u8]) -> Result<bool, Fault>
    ensures counter { IfOk result (λ answer. answer ≡ may_be_counted (rules_stored rules.now) name.now) }
    ensures refusals { IsOkUnless result Fault.OutOfMemory }
{
    let types = Types::of(alloc, rules)?;
    Ok(is_counter(&types, name))
}

/// The greater of a number and the greatest so far, where there is one.
pub(crate) fn greater(so_far: Option<i64>, number: Option<i64>) -> Option<i64>
    ensures { result ≡ greater so_far number }
{
    match (so_far, number) {
        (Some(greatest), Some(number)) => Some(greatest.max(number)),
        _ => so_far.or(number),
    }
}

/// The integer that a field's value reads as, if it does.
pub(crate) fn reading_of(alloc: Global, field: &Element) -> Result<Option<i64>, Fault>
    ensures reading { IfOk result (λ reading. reading ≡ int_of (value_of (piece_of field.now))) }
    ensures refusals { IsOkUnless result Fault.OutOfMemory }
{
    let value = field.value(alloc)?;
    Ok(int_of(value.bytes()))
}

/// The number after the greatest.
pub(crate) fn number_after(greatest: Option<i64>) -> Result<i64, Fault>
    ensures { IsNextNumber greatest result }
{
    match greatest {
        None => Ok(0),
        Some(i64::MAX) => Err(Fault::AutoImpossible),
        Some(greatest) => Ok(greatest + 1),
    }
}
