//! The patterns of a descriptor that are built so far.
ghost use Rattle.rec_check.specs.proving.Kinds.{IsPatternFor};

use crate::descriptors::descriptor_fault::{FieldResult, bad_pattern};
use rec_sex::pattern_of;
use rec_text::{Fault, OrMemory};
use regex::Regex;
use std::alloc::Global;
use std::collections::HashMap;
use std::marker::Model;
use std::rc::Rc;

/// The patterns of a descriptor that are built so far. However many there are, one is found by its text at once.
#[derive(Drop)]
pub(crate) struct Patterns {
    built: HashMap<String, Rc<Regex>>,
}

/// Each is what its text builds. A clause sees their texts.
impl Model for Patterns {
    ghost use Rattle.std.specs.Prelude.{ℕ, List};
    ghost use Rattle.rec_check.specs.proving.Patterns.{ArePatterns, texts_of};

    ghost Value = { List (List ℕ) };

    ghost view = { λ patterns. texts_of patterns.built };

    ghost invariant = { λ patterns. ArePatterns patterns.built };
}

/// The pattern of a text.
fn built(alloc: Global, text: &str) -> FieldResult<Regex>
    ensures { IsPatternFor text.now result }
{
    match pattern_of(alloc, text) {
        Ok(pattern) => Ok(pattern),
        Err(Fault::BadPattern) => Err(bad_pattern()),
        Err(_) => Err(OrMemory::OutOfMemory),
    }
}

impl Patterns {
    ghost use Rattle.std.specs.Prelude.{◌≡◌, [], true, OnOk};
    ghost use Rattle.rec_check.specs.proving.Kinds.{IsSharedPatternFor};
    ghost use Rattle.rec_text.specs.Bytes.{is_among};

    pub(crate) fn new(alloc: Global) -> Patterns
        ensures { result ≡ [] }
    {
        Patterns {
            built: HashMap::new(alloc),
        }
    }

    /// The pattern of a text, which is built where that wasn't asked for before. What is refused isn't kept.
    pub(crate) fn pattern_of(&mut self, alloc: Global, text: &str) -> FieldResult<Rc<Regex>>
        ensures pattern { IsSharedPatternFor text.now result }
        ensures kept { OnOk result (is_among self.new text.now ≡ true) }
    {
        if let Some(pattern) = self.built.get(text) {
            return Ok(pattern.clone()?);
        }
        let pattern = Rc::new(alloc, built(alloc, text)?)?;
        let key = String::from_str(alloc, text)?;
        self.built.insert(key, pattern.clone()?)?;
        Ok(pattern)
    }
}
