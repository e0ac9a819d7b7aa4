//! Which records are meant.
use crate::field_value::FieldValue;
use rec_sex::{Expr, IndexList};
use rec_text::Bytes;

/// Which members of a set are selected.
#[derive(Drop)]
pub enum By {
    All,
    /// Those that an expression selects.
    Expr(Expr),
    /// Those at some places of the set, counted from 0.
    Index(IndexList),
    /// Those with a value that contains these bytes.
    Quick(Bytes),
    /// Those of which some field of this name has exactly this value.
    Where(FieldValue),
}

/// Records of a type, or of the set that is meant where none is given.
#[derive(Drop)]
pub struct Selection {
    pub kind: Option<Bytes>,
    pub by: By,
}
