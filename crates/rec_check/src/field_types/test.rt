//! How values are tried for a type.
ghost use Rattle.std.specs.Prelude.{◌≡◌, true, ℕ, List, IfOk, IsOkUnless};
ghost use Rattle.rec_sex.specs.proving.Choices.{has_name};
ghost use Rattle.rec_check.specs.Stored.{type_stored};
ghost use Rattle.rec_check.specs.proving.Testing.{is_plain};
ghost use Rattle.rec_check.specs.Types.{fits, is_continuation as goes_on, characters, lies_between, truths};
ghost use Rattle.rec_text.specs.Bytes.{is_among as among};

use crate::checks::names::{add_names, is_among};
use crate::field_types::field_type::FieldType;
use rec_sex::{int_of, is_found, trimmed};
use rec_text::{Bytes, Fault};
use regex::Matcher;
use std::alloc::Global;
use std::collections::HashSet;

/// How many words are searched one by one.
const FEW: usize = 8;

/// How values are tried for a type.
#[derive(Drop)]
pub(crate) enum Test<'r> {
    /// By the type itself.
    Direct,
    /// By the words of a long `enum`, among which one is found at once.
    Words(HashSet<&'r [u8]>),
    /// By a matcher of its pattern.
    Pattern(Box<Matcher<'r>>),
}

fn is_continuation(byte: u8) -> bool
    ensures { result ≡ goes_on byte }
{
    matches!(byte, 128..=191)
}

/// How many characters a text has.
fn characters(text: &[u8]) -> usize
    ensures { result ≡ characters text.now }
{
    text.iter().filter(|byte| !is_continuation(**byte)).count()
}

fn lies_between(least: i64, greatest: i64, integer: i64) -> bool
    ensures { result ≡ lies_between least greatest integer }
{
    least <= integer && integer <= greatest
}

fn is_truth(word: &[u8]) -> bool
    ensures { result ≡ among truths word.now }
{
    word == b"yes".as_slice()
        || word == b"no".as_slice()
        || word == b"0".as_slice()
        || word == b"1".as_slice()
        || word == b"true".as_slice()
        || word == b"false".as_slice()
}

/// Whether a value fits a type that has no pattern.
fn fits_plainly(value_type: &FieldType, value: &[u8]) -> bool
    requires { is_plain value_type.now ≡ true }
    ensures { result ≡ fits (type_stored value_type.now) value.now }
{
    match value_type {
        FieldType::Integer => int_of(value).is_some(),
        FieldType::Range(least, greatest) => match int_of(value) {
            Some(integer) => lies_between(*least, *greatest, integer),
            None => false,
        },
        FieldType::Line => !value.contains(&b'\n'),
        FieldType::Size(most) => characters(value) as u64 <= *most,
        FieldType::Truth => is_truth(trimmed(value)),
        FieldType::OneOf(items) => is_among(items, trimmed(value)),
        FieldType::Matching(_) => unreachable!(),
        FieldType::Unchecked => true,
    }
}

/// The set of some words.
fn set_of<'r>(alloc: Global, items: &'r [Bytes]) -> Result<HashSet<&'r [u8]>, Fault>
    ensures words { IfOk result (λ words. (word : List ℕ) → has_name words word ≡ among items.now word) }
    ensures refusals { IsOkUnless result Fault.OutOfMemory }
{
    let mut words = HashSet::new(alloc);
    add_names(&mut words, items)?;
    Ok(words)
}

impl<'r> Test<'r> {
    ghost use Rattle.std.specs.Prelude.{◌≡◌, IfOk, IsOkUnless};
    ghost use Rattle.rec_check.specs.Stored.{type_stored};
    ghost use Rattle.rec_check.specs.proving.Testing.{Serves};
    ghost use Rattle.rec_check.specs.Types.{fits};

    pub(crate) fn of(alloc: Global, value_type: &'r FieldType) -> Result<Test<'r>, Fault>
        ensures serves { IfOk result (λ test. Serves test value_type.now) }
        ensures refusals { IsOkUnless result Fault.OutOfMemory }
    {
        match value_type {
            FieldType::OneOf(items) => {
                if items.len() <= FEW {
                    return Ok(Test::Direct);
                }
                Ok(Test::Words(set_of(alloc, items)?))
            }
            FieldType::Matching(pattern) => {
                Ok(Test::Pattern(Box::new(alloc, pattern.matcher(alloc)?)?))
            }
            _ => Ok(Test::Direct),
        }
    }

    /// Whether a value fits the type that the test serves.
    pub(crate) fn passes(&mut self, value_type: &FieldType, value: &[u8]) -> bool
        requires { Serves self.old value_type.now }
        ensures fits { result ≡ fits (type_stored value_type.now) value.now }
        ensures serves { Serves self.new value_type.now }
    {
        match self {
            Test::Direct => fits_plainly(value_type, value),
            Test::Words(words) => words.contains(trimmed(value)),
            Test::Pattern(matcher) => is_found(matcher, value),
        }
    }
}
