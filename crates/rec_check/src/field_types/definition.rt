//! Definitions of types.

use crate::field_types::field_type::FieldType;
use rec_text::Bytes;

/// A `%typedef` field of a descriptor: what a kind means within it.
#[derive(Drop)]
pub(crate) struct Definition {
    /// The kind that it defines.
    pub name: Bytes,
    /// The kind that this means, as it is written.
    pub kind: Bytes,
    /// The type that is written; any text where the kind is no known one.
    pub value_type: FieldType,
}
