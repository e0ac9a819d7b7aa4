//! Types of fields.

use rec_text::Bytes;
use regex::Regex;
use std::rc::Rc;

/// A type of fields.
#[derive(Drop)]
pub(crate) enum FieldType {
    /// An integer of 64 bits.
    Integer,
    /// An integer from the one to the other, ends included.
    Range(i64, i64),
    /// A text without a newline.
    Line,
    /// A text of at most n characters.
    Size(u64),
    /// A truth value, such as `yes`.
    Truth,
    /// One of some words.
    OneOf(Vec<Bytes>),
    /// A text in which a pattern is found. Types with equal patterns share one.
    Matching(Rc<Regex>),
    /// Any text.
    Unchecked,
}

/// A `%type` field of a descriptor: the type of some fields.
#[derive(Drop)]
pub(crate) struct Typing {
    pub names: Vec<Bytes>,
    /// The kind, as it is written.
    pub kind: Bytes,
    pub value_type: FieldType,
}
