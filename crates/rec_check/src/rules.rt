//! What a descriptor asks of the records of its set.

use crate::descriptors::special::Bound;
use crate::field_types::definition::Definition;
use crate::field_types::field_type::Typing;
use rec_sex::Expr;
use rec_text::Bytes;
use std::alloc::Global;

/// What a descriptor asks of the records of its set.
#[derive(Drop)]
pub(crate) struct Rules {
    /// The field that each record has exactly once, with a value of its own.
    pub key: Option<Bytes>,
    /// What each record has.
    pub mandatory: Vec<Bytes>,
    /// What no record has.
    pub prohibited: Vec<Bytes>,
    /// What no record has twice.
    pub unique: Vec<Bytes>,
    /// What has a value in one record alone.
    pub singular: Vec<Bytes>,
    /// What else a record may have, where that is limited.
    pub allowed: Option<Vec<Bytes>>,
    /// The counters.
    pub automatic: Vec<Bytes>,
    /// The types of fields; of two for one field the later holds.
    pub types: Vec<Typing>,
    /// What kinds mean; of two definitions of one kind the later holds.
    pub definitions: Vec<Definition>,
    /// How many records there are.
    pub size: Option<Bound>,
    /// What selects each record.
    pub constraints: Vec<Expr>,
}

impl Rules {
    ghost use Rattle.std.specs.Prelude.{◌≡◌};
    ghost use Rattle.rec_check.specs.Rules.{no_rules};
    ghost use Rattle.rec_check.specs.Stored.{rules_stored};

    /// Nothing is asked.
    pub(crate) fn none(alloc: Global) -> Rules
        ensures { rules_stored result ≡ no_rules }
    {
        Rules {
            key: None,
            mandatory: Vec::new(alloc),
            prohibited: Vec::new(alloc),
            unique: Vec::new(alloc),
            singular: Vec::new(alloc),
            allowed: None,
            automatic: Vec::new(alloc),
            types: Vec::new(alloc),
            definitions: Vec::new(alloc),
            size: None,
            constraints: Vec::new(alloc),
        }
    }
}
