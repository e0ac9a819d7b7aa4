//! The key of a set.
ghost use Rattle.std.specs.Prelude.{◌≡◌, option_map};
ghost use Rattle.rec_text.specs.Places.{piece_of, pieces_of};
ghost use Rattle.rec_text.specs.Values.{value_of};
ghost use Rattle.rec_check.specs.Violations.{key_of};

use crate::checks::found::add_violation;
use rec_text::{Bytes, Element, Fault, Rule, Value, Violation};
use std::alloc::Global;
use std::borrow::CowSlice;
use std::collections::HashSet;

/// The only field of a name.
fn only_field<'f, 't>(fields: &'f [Element<'t>], name: &[u8]) -> Option<&'f Element<'t>>
    ensures { option_map (λ field. value_of (piece_of field.now)) result ≡ key_of name.now (pieces_of fields.now) }
{
    let mut only = None;
    for field in fields {
        if !field.has_name(name) {
            continue;
        }
        if only.is_some() {
            return None;
        }
        only = Some(field);
    }
    only
}

/// The key of a set, if it has one, and the keys of its records so far.
#[derive(Drop)]
pub(crate) struct Key<'r, 't> {
    pub name: &'r Option<Bytes>,
    pub taken: HashSet<CowSlice<'t, u8>>,
}

impl<'r, 't> Key<'r, 't> {
    ghost use Rattle.std.specs.Prelude.{◌≡◌, ◌++◌, ◌∷◌, [], ◌||◌, ℕ, List, Some, true, false, IfOk, OnOk, filter, option_to_list, IsOkUnless};
    ghost use Rattle.std.specs.Option.{option_map_or};
    ghost use Rattle.std.specs.Str.{bytes_eq};
    ghost use Rattle.rec_text.specs.Elements.{Piece};
    ghost use Rattle.rec_text.specs.Places.{pieces_of};
    ghost use Rattle.rec_text.specs.Values.{bytes_of};
    ghost use Rattle.rec_check.specs.proving.Keys.{has_taken, IsKeyAfter};
    ghost use Rattle.rec_check.specs.Violations.{breaks_key, key_of, violations_of};

    pub(crate) fn of(alloc: Global, name: &'r Option<Bytes>) -> Key<'r, 't>
        ensures name { result.name.now ≡ name.now }
        ensures after { IsKeyAfter result [] }
    {
        Key {
            name,
            taken: HashSet::new(alloc),
        }
    }

    /// Takes a key, and answers whether it was taken already.
    fn take(&mut self, value: Value<'t>) -> Result<bool, Fault>
        ensures was_taken { IfOk result (λ answer. answer ≡ has_taken self.old (bytes_of value.entry)) }
        ensures taken { OnOk result ((other : List ℕ)
            → has_taken self.new other ≡ (has_taken self.old other || bytes_eq other (bytes_of value.entry))) }
        ensures name { self.new.name ≡ self.old.name }
        ensures refusals { IsOkUnless result Fault.OutOfMemory }
    {
        let is_new = self.taken.insert(value.into_cow())?;
        Ok(!is_new)
    }

    /// Whether a record has not exactly one key field, or its key is taken. Its key is taken from then on.
    fn breaks(&mut self, alloc: Global, name: &[u8], fields: &[Element<'t>]) -> Result<bool, Fault>
        ensures breaks { IfOk result (λ answer. answer
            ≡ option_map_or (has_taken self.old) (key_of name.now (pieces_of fields.now)) true) }
        ensures taken { OnOk result ((other : List ℕ)
            → has_taken self.new other
            ≡ (has_taken self.old other || option_map_or (bytes_eq other)
            (key_of name.now (pieces_of fields.now)) false)) }
        ensures name { self.new.name ≡ self.old.name }
        ensures refusals { IsOkUnless result Fault.OutOfMemory }
    {
        match only_field(fields, name) {
            Some(field) => self.take(field.value(alloc)?),
            None => Ok(true),
        }
    }

    /// Adds a violation if the next record of the set breaks the rule.
    pub(crate) fn check(
        &mut self,
        alloc: Global,
        line: usize,
        fields: &[Element<'t>],
        found: &mut Vec<Violation>,
    ) -> Result<(), Fault>
        ensures added { (earlier : List (List Piece)) → IsKeyAfter self.old earlier
            → OnOk result (found.new.items ≡ found.old.items
            ++ violations_of line Rule.Key
            (filter (breaks_key earlier (pieces_of fields.now)) (option_to_list self.old.name.now))) }
        ensures after { (earlier : List (List Piece)) → IsKeyAfter self.old earlier
            → OnOk result (IsKeyAfter self.new (earlier ++ pieces_of fields.now ∷ [])) }
        ensures name { self.new.name ≡ self.old.name }
        ensures refusals { IsOkUnless result Fault.OutOfMemory }
    {
        let Some(name) = self.name else {
            return Ok(());
        };
        let name = name.as_slice();
        if self.breaks(alloc, name, fields)? {
            add_violation(alloc, line, Rule::Key, name, found)?;
        }
        Ok(())
    }
}
