//! The kinds of types, as a descriptor writes them.
ghost use Rattle.std.specs.Prelude.{◌≡◌, ℕ, List, Some, None, IfSome, MatchOption};
ghost use Rattle.rec_check.specs.proving.Kinds.{IsTypeOf};
ghost use Rattle.rec_check.specs.Stored.{type_stored};
ghost use Rattle.rec_check.specs.Types.{FieldType as WrittenType, range, size, natural_of, alone, bound_of, range_of, size_type_of, type_of_known, type_of_kind, IsBuilt};
ghost use Rattle.rec_check.specs.Words.{words};

use crate::descriptors::descriptor_fault::{
    DescriptorFault, FieldRefusal, FieldResult, bad, bad_word,
};
use crate::descriptors::patterns::Patterns;
use crate::descriptors::words::split_word;
use crate::field_types::enumeration::enum_type;
use crate::field_types::field_type::FieldType;
use crate::field_types::known_kind::KnownKind;
use crate::field_types::regexp::regexp_type;
use rec_sex::int_of;
use rec_text::{Broken, OrMemory};
use std::alloc::Global;

/// An integer that isn't negative.
pub(crate) fn natural_of(text: &[u8]) -> Option<u64>
    ensures { result ≡ natural_of text.now }
{
    u64::try_from(int_of(text)?).ok()
}

/// The end of a range.
fn bound_of(word: &[u8]) -> Option<i64>
    ensures { result ≡ bound_of word.now }
{
    if word == b"MIN".as_slice() {
        Some(i64::MIN)
    } else if word == b"MAX".as_slice() {
        Some(i64::MAX)
    } else {
        int_of(word)
    }
}

/// The ends of a range, of which the first may be left out.
fn ends_in(text: &[u8]) -> Option<(i64, i64)>
    ensures { MatchOption result (range_of (words text.now) ≡ None)
        (λ (least, greatest). range_of (words text.now) ≡ Some (range least greatest)) }
{
    let (first, following) = split_word(text)?;
    let Some((second, following)) = split_word(following) else {
        return Some((0, bound_of(first)?));
    };
    if split_word(following).is_some() {
        return None;
    }
    Some((bound_of(first)?, bound_of(second)?))
}

/// The only word, a number that isn't negative.
fn number_in(text: &[u8]) -> Option<u64>
    ensures { MatchOption result (size_type_of (words text.now) ≡ None)
        (λ most. size_type_of (words text.now) ≡ Some (size most)) }
{
    let (number, following) = split_word(text)?;
    if split_word(following).is_some() {
        return None;
    }
    natural_of(number)
}

/// The first of the ends of a range that is none, of one word or two.
fn no_end(text: &[u8]) -> Option<&[u8]>
    ensures { IfSome result (λ word. bound_of word.now ≡ None) }
{
    let (first, following) = split_word(text)?;
    let last = match split_word(following) {
        None => first,
        Some((second, following)) if split_word(following).is_none() => second,
        Some(_) => return None,
    };
    if bound_of(first).is_none() {
        Some(first)
    } else if bound_of(last).is_none() {
        Some(last)
    } else {
        None
    }
}

/// The only word, where it is no number that isn't negative.
fn no_length(text: &[u8]) -> Option<&[u8]>
    ensures { IfSome result (λ word. natural_of word.now ≡ None) }
{
    let (word, following) = split_word(text)?;
    if split_word(following).is_none() && natural_of(word).is_none() {
        return Some(word);
    }
    None
}

/// A type of a kind without words of its own.
fn alone(alloc: Global, kind: &[u8], text: &[u8], value_type: FieldType) -> FieldResult<FieldType>
    ensures { (written : WrittenType (List ℕ)) → IsBuilt written (type_stored value_type)
        → IsTypeOf (alone (words text.now) written) result }
{
    if split_word(text).is_some() {
        return Err(bad_word(alloc, Broken::NoWords, kind));
    }
    Ok(value_type)
}

/// That a `range` has no ends.
fn bad_range(alloc: Global, text: &[u8]) -> OrMemory<FieldRefusal>
    ensures { result ≡ OrMemory.Refused DescriptorFault.Bad }
{
    match no_end(text) {
        Some(word) => bad_word(alloc, Broken::RangeEnd, word),
        None => bad(Broken::Range),
    }
}

/// That a `size` has no number.
fn bad_length(alloc: Global, text: &[u8]) -> OrMemory<FieldRefusal>
    ensures { result ≡ OrMemory.Refused DescriptorFault.Bad }
{
    match no_length(text) {
        Some(word) => bad_word(alloc, Broken::Length, word),
        None => bad(Broken::Length),
    }
}

fn range_type(alloc: Global, text: &[u8]) -> FieldResult<FieldType>
    ensures { IsTypeOf (range_of (words text.now)) result }
{
    match ends_in(text) {
        Some((least, greatest)) => Ok(FieldType::Range(least, greatest)),
        None => Err(bad_range(alloc, text)),
    }
}

fn size_type(alloc: Global, text: &[u8]) -> FieldResult<FieldType>
    ensures { IsTypeOf (size_type_of (words text.now)) result }
{
    match number_in(text) {
        Some(most) => Ok(FieldType::Size(most)),
        None => Err(bad_length(alloc, text)),
    }
}

/// The type of a known kind, with what stands after its word.
fn type_of_known(
    alloc: Global,
    patterns: &mut Patterns,
    kind: KnownKind,
    word: &[u8],
    text: &[u8],
) -> FieldResult<FieldType>
    ensures { IsTypeOf (type_of_known kind text.now) result }
{
    match kind {
        KnownKind::Integer => alone(alloc, word, text, FieldType::Integer),
        KnownKind::Range => range_type(alloc, text),
        KnownKind::Line => alone(alloc, word, text, FieldType::Line),
        KnownKind::Size => size_type(alloc, text),
        KnownKind::Truth => alone(alloc, word, text, FieldType::Truth),
        KnownKind::Enum => enum_type(alloc, text),
        KnownKind::Regexp => regexp_type(alloc, patterns, text),
        KnownKind::Unchecked => Ok(FieldType::Unchecked),
    }
}

/// The type of a kind, with what stands after the kind.
pub(crate) fn type_of_kind(
    alloc: Global,
    patterns: &mut Patterns,
    kind: &[u8],
    text: &[u8],
) -> FieldResult<FieldType>
    ensures { IsTypeOf (type_of_kind kind.now text.now) result }
{
    match KnownKind::of(kind) {
        Some(known) => type_of_known(alloc, patterns, known, kind, text),
        None => Ok(FieldType::Unchecked),
    }
}
