//! The fields of which a value stands in one record of a set alone.

use crate::checks::found::add_violations;
use crate::checks::names::Names;
use rec_text::{Bytes, Element, Fault, Rule, Violation};
use std::alloc::Global;
use std::borrow::CowSlice;
use std::collections::{BTreeSet, HashSet};

/// The names of a set's singular fields, and the values of these in its records so far.
#[derive(Drop)]
pub(crate) struct Singular<'r, 't> {
    pub names: Names<'r>,
    /// Each value, with the place of the field's name.
    pub seen: HashSet<(usize, CowSlice<'t, u8>)>,
}

impl<'r, 't> Singular<'r, 't> {
    ghost use Rattle.std.specs.Prelude.{◌≡◌, ◌++◌, ◌∷◌, [], ◌||◌, ℕ, List, true, if◌then◌else◌, None, filter, option_map, position, IfOk, IfSome, OnOk, IsOkUnless};
    ghost use Rattle.std.specs.Cow.{cow_slice_items};
    ghost use Rattle.std.specs.List.{list_any};
    ghost use Rattle.std.specs.Str.{bytes_eq};
    ghost use Rattle.rec_text.specs.Elements.{Piece, name_of};
    ghost use Rattle.rec_text.specs.Places.{piece_of, pieces_of};
    ghost use Rattle.rec_text.specs.Values.{value_of};
    ghost use Rattle.rec_sex.specs.Meaning.{values_of};
    ghost use Rattle.rec_check.specs.proving.NamesSeen.{places_of};
    ghost use Rattle.rec_check.specs.proving.Singulars.{IsSingularAfter, has_seen, is_repeat};
    ghost use Rattle.rec_check.specs.Violations.{breaks_singular, violations_of};
    ghost use Rattle.rec_check.specs.Words.{distinct};
    ghost use Rattle.rec_text.specs.Bytes.{is_among};

    pub(crate) fn of(alloc: Global, names: &'r [Bytes]) -> Result<Singular<'r, 't>, Fault>
        ensures after { IfOk result (λ singular. IsSingularAfter names.now [] singular) }
        ensures refusals { IsOkUnless result Fault.OutOfMemory }
    {
        Ok(Singular {
            names: Names::of(alloc, names)?,
            seen: HashSet::new(alloc),
        })
    }

    /// The place of a field's name and the field's value, where it is a field of the names.
    fn item_of(
        &self,
        alloc: Global,
        field: &Element<'t>,
    ) -> Result<Option<(usize, CowSlice<'t, u8>)>, Fault>
        ensures place { IfOk result (λ item. option_map (λ one. one.0) item
            ≡ position (bytes_eq (name_of (piece_of field.now))) self.now.names) }
        ensures value { IfOk result (λ item. IfSome item (λ one. cow_slice_items one.1
            ≡ value_of (piece_of field.now))) }
        ensures refusals { IsOkUnless result Fault.OutOfMemory }
    {
        let Some(place) = self.names.place_of(field.name()) else {
            return Ok(None);
        };
        let value = field.value(alloc)?.into_cow();
        Ok(Some((place, value)))
    }

    /// The place of a field's name, where an earlier record has a field of this name and value.
    fn repeated(&self, alloc: Global, field: &Element<'t>) -> Result<Option<usize>, Fault>
        ensures place { IfOk result (λ place. place
            ≡ (if is_repeat self.now (piece_of field.now) then position
            (bytes_eq (name_of (piece_of field.now))) self.now.names else None)) }
        ensures refusals { IsOkUnless result Fault.OutOfMemory }
    {
        match self.item_of(alloc, field)? {
            Some(item) if self.seen.contains(&item) => Ok(Some(item.0)),
            _ => Ok(None),
        }
    }

    /// The places of the names with a value of an earlier record.
    fn broken(&self, alloc: Global, fields: &[Element<'t>]) -> Result<BTreeSet<usize>, Fault>
        ensures places { distinct self.now.names ≡ self.now.names
            → IfOk result (λ broken. broken.keys
            ≡ places_of (λ name. list_any (has_seen self.now name)
            (values_of name (pieces_of fields.now))) self.now.names) }
        ensures refusals { IsOkUnless result Fault.OutOfMemory }
    {
        let mut broken = BTreeSet::new(alloc);
        for field in fields {
            let Some(place) = self.repeated(alloc, field)? else {
                continue;
            };
            broken.insert(place)?;
        }
        Ok(broken)
    }

    /// Takes the values of a record.
    fn take(&mut self, alloc: Global, fields: &[Element<'t>]) -> Result<(), Fault>
        ensures seen { OnOk result ((name value : List ℕ) → is_among self.old.names name ≡ true
            → has_seen self.new name value
            ≡ (has_seen self.old name value || is_among (values_of name (pieces_of fields.now)) value)) }
        ensures names { self.new.names ≡ self.old.names }
        ensures refusals { IsOkUnless result Fault.OutOfMemory }
    {
        for field in fields {
            let Some(item) = self.item_of(alloc, field)? else {
                continue;
            };
            self.seen.insert(item)?;
        }
        Ok(())
    }

    /// Adds a violation for each name of which the next record of the set has a value that an earlier one has.
    pub(crate) fn check(
        &mut self,
        alloc: Global,
        line: usize,
        fields: &[Element<'t>],
        found: &mut Vec<Violation>,
    ) -> Result<(), Fault>
        ensures added { (names : List (List ℕ)) (earlier : List (List Piece)) → IsSingularAfter names earlier self.old
            → OnOk result (found.new.items ≡ found.old.items
            ++ violations_of line Rule.Singular
            (filter (breaks_singular earlier (pieces_of fields.now)) (distinct names))) }
        ensures after { (names : List (List ℕ)) (earlier : List (List Piece)) → IsSingularAfter names earlier self.old
            → OnOk result (IsSingularAfter names (earlier ++ pieces_of fields.now ∷ []) self.new) }
        ensures refusals { IsOkUnless result Fault.OutOfMemory }
    {
        if self.names.as_slice().is_empty() {
            return Ok(());
        }
        let broken = self.broken(alloc, fields)?;
        let names = self.names.at(alloc, &broken)?;
        add_violations(alloc, line, Rule::Singular, &names, found)?;
        self.take(alloc, fields)
    }
}
