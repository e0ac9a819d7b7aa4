//! The pattern of a type.
ghost use Rattle.std.specs.Prelude.{◌≡◌, Some, None, option_map};
ghost use Rattle.rec_check.specs.proving.Kinds.{IsTypeOf};
ghost use Rattle.rec_check.specs.Types.{pattern_in, regexp_of};

use crate::descriptors::descriptor_fault::{FieldResult, bad};
use crate::descriptors::patterns::Patterns;
use crate::descriptors::words::strip;
use crate::field_types::field_type::FieldType;
use rec_text::Broken;
use std::alloc::Global;

/// What stands between the first byte and the last one, if these are equal.
fn pattern_in(text: &[u8]) -> Option<&[u8]>
    ensures { option_map (λ pattern. pattern.now) result ≡ pattern_in text.now }
{
    let (first, following) = text.split_first()?;
    let (last, pattern) = following.split_last()?;
    if first == last { Some(pattern) } else { None }
}

/// The type of texts in which a pattern is found.
pub(crate) fn regexp_type(
    alloc: Global,
    patterns: &mut Patterns,
    text: &[u8],
) -> FieldResult<FieldType>
    ensures { IsTypeOf (regexp_of text.now) result }
{
    let Some(pattern) = pattern_in(strip(text)) else {
        return Err(bad(Broken::Delimiters));
    };
    let Ok(pattern) = std::str::from_utf8(pattern) else {
        return Err(bad(Broken::NoUtf8));
    };
    let pattern = patterns.pattern_of(alloc, pattern)?;
    Ok(FieldType::Matching(pattern))
}
