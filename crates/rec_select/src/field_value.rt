//! A field's name with a value.
ghost use Rattle.std.specs.Prelude.{◌≡◌, ◌≤◌, ◌∷◌, false, length, MatchOption};
ghost use Rattle.std.specs.List.{prefix_len};
ghost use Rattle.rec_text.specs.Ascii.{equals_sign};
ghost use Rattle.rec_text.specs.Bytes.{continues_name as may_continue};
ghost use Rattle.rec_sex.specs.IndexList.{begins_with};
ghost use Rattle.rec_select.specs.FieldValues.{name_len};

use rec_text::{Bytes, Fault, begins_name};
use std::alloc::Global;

/// A field's name, and a value.
#[derive(Drop)]
pub struct FieldValue {
    pub name: Bytes,
    pub value: Bytes,
}

fn continues_name(byte: u8) -> bool
    ensures { result ≡ may_continue byte }
{
    byte.is_ascii_alphanumeric() || byte == b'_'
}

/// How many bytes at the start of a text a name can go on with.
fn word_len(text: &[u8]) -> usize
    ensures len { result ≡ prefix_len may_continue text.now }
    ensures within { result ≤ length text.now }
{
    for (end, byte) in text.iter().enumerate() {
        if !continues_name(*byte) {
            return end;
        }
    }
    text.len()
}

/// How many bytes at the start of a text are a name.
pub(crate) fn name_len(text: &[u8]) -> usize
    ensures len { result ≡ name_len text.now }
    ensures within { result ≤ length text.now }
{
    let Some((first, rest)) = text.split_first() else {
        return 0;
    };
    if begins_name(*first) {
        1 + word_len(rest)
    } else {
        0
    }
}

/// What stands after an equals sign, where one comes first.
fn after_equals(rest: &[u8]) -> Option<&[u8]>
    ensures { MatchOption result (begins_with equals_sign rest.now ≡ false)
        (λ value. rest.now ≡ equals_sign ∷ value.now) }
{
    match rest.split_first() {
        Some((b'=', value)) => Some(value),
        _ => None,
    }
}

impl FieldValue {
    ghost use Rattle.std.specs.Prelude.{◌≡◌};
    ghost use Rattle.rec_text.specs.Faults.{UnlessMemory};
    ghost use Rattle.rec_select.specs.FieldValues.{field_value_of};

    /// Reads a text such as `Name=Ann`. It is refused where no name comes first, or no equals sign directly after it.
    pub fn parse(alloc: Global, text: &[u8]) -> Result<FieldValue, Fault>
        ensures found { UnlessMemory result (λ answer. field_value_of text.now ≡ answer) }
    {
        let (name, rest) = text.split_at(name_len(text));
        if name.is_empty() {
            return Err(Fault::BadName);
        }
        let Some(value) = after_equals(rest) else {
            return Err(Fault::BadName);
        };
        let name = Bytes::copy_of(alloc, name)?;
        let value = Bytes::copy_of(alloc, value)?;
        Ok(FieldValue { name, value })
    }
}
