//! The words of an `enum`, among comments.
ghost use Rattle.std.specs.Prelude.{◌≡◌, false, option_map, option_and_then, IfOk};
ghost use Rattle.std.specs.List.{list_all};
ghost use Rattle.rec_check.specs.proving.Kinds.{IsTypeOf};
ghost use Rattle.rec_check.specs.Types.{continues_item as may_continue, is_item as may_be_item, without_comments, enum_of};
ghost use Rattle.rec_check.specs.Words.{words};

use crate::descriptors::descriptor_fault::{
    DescriptorFault, FieldRefusal, FieldResult, bad, bad_word,
};
use crate::descriptors::words::words_of;
use crate::field_types::field_type::FieldType;
use rec_text::{Broken, Bytes, OrMemory};
use std::alloc::{AllocError, Global};

fn continues_item(byte: u8) -> bool
    ensures { result ≡ may_continue byte }
{
    byte.is_ascii_alphanumeric() || byte == b'_' || byte == b'-'
}

fn all_continue(bytes: &[u8]) -> bool
    ensures { result ≡ list_all may_continue bytes.now }
{
    bytes.iter().all(|byte| continues_item(*byte))
}

/// Whether a word may be one of an `enum`.
fn is_item(word: &[u8]) -> bool
    ensures { result ≡ may_be_item word.now }
{
    match word.split_first() {
        Some((first, rest)) => first.is_ascii_alphanumeric() && all_continue(rest),
        None => false,
    }
}

fn are_items(found: &[Bytes]) -> bool
    ensures { result ≡ list_all may_be_item found.now }
{
    found.iter().all(|word| is_item(word.as_slice()))
}

/// The text with a blank instead of each comment, if none stays open.
fn without_comments(alloc: Global, text: &[u8]) -> Result<Option<Vec<u8>>, AllocError>
    ensures { IfOk result (λ kept. option_map (λ bytes. bytes.items) kept ≡ without_comments text.now) }
{
    let mut kept = Vec::new(alloc);
    let mut is_comment = false;
    for byte in text {
        if !is_comment {
            if *byte == b'(' {
                is_comment = true;
            } else {
                kept.push(*byte)?;
            }
        } else if *byte == b')' {
            is_comment = false;
            kept.push(b' ')?;
        }
    }
    if is_comment { Ok(None) } else { Ok(Some(kept)) }
}

/// That a word can't be one of an `enum`.
fn no_item(alloc: Global, word: &[u8]) -> OrMemory<FieldRefusal>
    requires { may_be_item word.now ≡ false }
    ensures { result ≡ OrMemory.Refused DescriptorFault.Bad }
{
    if word.contains(&b')') {
        bad(Broken::EnumLone)
    } else if word.contains(&b',') {
        bad_word(alloc, Broken::EnumCommas, word)
    } else {
        bad_word(alloc, Broken::EnumWord, word)
    }
}

/// That some words can't be those of an `enum`: there are none, or the first that isn't one.
fn bad_items(alloc: Global, found: &[Bytes]) -> OrMemory<FieldRefusal>
    ensures { result ≡ OrMemory.Refused DescriptorFault.Bad }
{
    for word in found {
        if !is_item(word.as_slice()) {
            return no_item(alloc, word.as_slice());
        }
    }
    bad(Broken::EnumEmpty)
}

/// The type of one of some words.
pub(crate) fn enum_type(alloc: Global, text: &[u8]) -> FieldResult<FieldType>
    ensures { IsTypeOf (option_and_then (λ kept. enum_of (words kept)) (without_comments text.now)) result }
{
    let Some(kept) = without_comments(alloc, text)? else {
        return Err(bad(Broken::EnumOpen));
    };
    let items = words_of(alloc, &kept)?;
    if items.is_empty() || !are_items(&items) {
        return Err(bad_items(alloc, &items));
    }
    Ok(FieldType::OneOf(items))
}
