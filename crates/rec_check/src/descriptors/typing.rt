//! Reads the type of some fields, and what a kind means.
ghost use Rattle.std.specs.Prelude.{◌≡◌, ◌⊎◌, ◌==◌, None, IfOk, IfErr, IsErrOf};
ghost use Rattle.std.specs.List.{list_all, slice_split};
ghost use Rattle.rec_text.specs.Ascii.{comma};
ghost use Rattle.rec_text.specs.Canonical.{is_field_name as may_name_a_field};
ghost use Rattle.rec_check.specs.proving.Kinds.{IsKindIn};
ghost use Rattle.rec_check.specs.Stored.{definition_stored, typing_stored};
ghost use Rattle.rec_check.specs.Types.{IsDefinition, IsTyping, DefinitionMayBeRefused, TypeMayBeRefused, definition_of, typing_of};

use crate::descriptors::descriptor_fault::{
    DescriptorFault, FieldRefusal, FieldResult, bad, bad_word,
};
use crate::descriptors::patterns::Patterns;
use crate::descriptors::words::split_word;
use crate::field_types::definition::Definition;
use crate::field_types::field_type::{FieldType, Typing};
use crate::field_types::kind::type_of_kind;
use rec_text::{Broken, Bytes, OrMemory, is_field_name, is_plain_name};
use std::alloc::{AllocError, Global};

/// Copies of what stands between commas.
fn split_names(alloc: Global, word: &[u8]) -> Result<Vec<Bytes>, AllocError>
    ensures { IfOk result (λ names. names.items ≡ slice_split (λ b. b == comma) word.now) }
{
    let mut names = Vec::new(alloc);
    for name in word.split(|byte| *byte == b',') {
        names.push(Bytes::copy_of(alloc, name)?)?;
    }
    Ok(names)
}

fn are_names(names: &[Bytes]) -> bool
    ensures { result ≡ list_all may_name_a_field names.now }
{
    names.iter().all(|name| is_field_name(name.as_slice()))
}

/// That not all names are those of fields which commas join to this word.
fn bad_names(alloc: Global, joined: &[u8], names: &[Bytes]) -> OrMemory<FieldRefusal>
    ensures { result ≡ OrMemory.Refused DescriptorFault.Bad }
{
    for name in names {
        if name.as_slice().is_empty() {
            return bad_word(alloc, Broken::NameMissing, joined);
        }
        if !is_field_name(name.as_slice()) {
            return bad_word(alloc, Broken::FieldName, name.as_slice());
        }
    }
    bad(Broken::TypeNeeds)
}

/// The kind that comes first, and its type, with the words of it that stand after. Where there is none, this rule is broken.
fn kind_in(
    alloc: Global,
    patterns: &mut Patterns,
    text: &[u8],
    needed: Broken,
) -> FieldResult<(Bytes, FieldType)>
    ensures { IsKindIn text.now result }
{
    let Some((kind, following)) = split_word(text) else {
        return Err(bad(needed));
    };
    let value_type = type_of_kind(alloc, patterns, kind, following)?;
    Ok((Bytes::copy_of(alloc, kind)?, value_type))
}

/// The names, the kind and the type that the value of a `%type` field gives.
pub(crate) fn typing_in(alloc: Global, patterns: &mut Patterns, value: &[u8]) -> FieldResult<Typing>
    ensures found { IfOk result (λ typing. IsTyping value.now (typing_stored typing)) }
    ensures bad { IsErrOf result (OrMemory.Refused DescriptorFault.Bad) → typing_of value.now ≡ None }
    ensures pattern { IsErrOf result (OrMemory.Refused DescriptorFault.Pattern) → TypeMayBeRefused value.now }
    ensures refusals { IfErr result (λ refusal. (refusal ≡ OrMemory.Refused DescriptorFault.Bad)
        ⊎ ((refusal ≡ OrMemory.Refused DescriptorFault.Pattern) ⊎ (refusal ≡ OrMemory.OutOfMemory))) }
{
    let Some((joined, following)) = split_word(value) else {
        return Err(bad(Broken::TypeNeeds));
    };
    let names = split_names(alloc, joined)?;
    if !are_names(&names) {
        return Err(bad_names(alloc, joined, &names));
    }
    let (kind, value_type) = kind_in(alloc, patterns, following, Broken::TypeNeeds)?;
    Ok(Typing {
        names,
        kind,
        value_type,
    })
}

/// The name, the kind and the type that the value of a `%typedef` field gives.
pub(crate) fn definition_in(
    alloc: Global,
    patterns: &mut Patterns,
    value: &[u8],
) -> FieldResult<Definition>
    ensures found { IfOk result (λ definition. IsDefinition value.now (definition_stored definition)) }
    ensures bad { IsErrOf result (OrMemory.Refused DescriptorFault.Bad) → definition_of value.now ≡ None }
    ensures pattern { IsErrOf result (OrMemory.Refused DescriptorFault.Pattern) → DefinitionMayBeRefused value.now }
    ensures refusals { IfErr result (λ refusal. (refusal ≡ OrMemory.Refused DescriptorFault.Bad)
        ⊎ ((refusal ≡ OrMemory.Refused DescriptorFault.Pattern) ⊎ (refusal ≡ OrMemory.OutOfMemory))) }
{
    let Some((name, following)) = split_word(value) else {
        return Err(bad(Broken::TypedefNeeds));
    };
    if !is_plain_name(name) {
        return Err(bad_word(alloc, Broken::TypeName, name));
    }
    let (kind, value_type) = kind_in(alloc, patterns, following, Broken::TypedefNeeds)?;
    let name = Bytes::copy_of(alloc, name)?;
    Ok(Definition {
        name,
        kind,
        value_type,
    })
}
