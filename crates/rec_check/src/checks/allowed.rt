//! The names that a record may have.

use crate::checks::found::add_violations;
use crate::checks::names::{Names, add_names};
use crate::rules::Rules;
use rec_text::{Element, Fault, Kind, Rule, Violation};
use std::alloc::Global;
use std::collections::HashSet;

/// The names that a record of a set may have, where they are limited.
#[derive(Drop)]
pub(crate) struct Allowed<'r> {
    pub names: Option<HashSet<&'r [u8]>>,
}

impl<'r> Allowed<'r> {
    ghost use Rattle.std.specs.Prelude.{◌≡◌, ◌&&◌, ◌++◌, ℕ, List, IfOk, OnOk, filter, not, IsOkUnless};
    ghost use Rattle.rec_text.specs.Elements.{name_of};
    ghost use Rattle.rec_text.specs.Places.{piece_of, pieces_of};
    ghost use Rattle.rec_text.specs.Records.{is_field_piece};
    ghost use Rattle.rec_check.specs.proving.Names.{allows};
    ghost use Rattle.rec_check.specs.Stored.{rules_stored};
    ghost use Rattle.rec_check.specs.Violations.{is_allowed, names_of, violations_of};
    ghost use Rattle.rec_check.specs.Words.{distinct};

    pub(crate) fn of(alloc: Global, rules: &'r Rules) -> Result<Allowed<'r>, Fault>
        ensures names { IfOk result (λ allowed. (name : List ℕ) → allows allowed name
            ≡ is_allowed (rules_stored rules.now) name) }
        ensures refusals { IsOkUnless result Fault.OutOfMemory }
    {
        let Some(allowed) = &rules.allowed else {
            return Ok(Allowed { names: None });
        };
        let mut names = HashSet::new(alloc);
        add_names(&mut names, allowed)?;
        add_names(&mut names, &rules.mandatory)?;
        add_names(&mut names, rules.key.as_slice())?;
        Ok(Allowed { names: Some(names) })
    }

    fn allows(&self, name: &[u8]) -> bool
        ensures { result ≡ allows self.now name.now }
    {
        match &self.names {
            Some(names) => names.contains(name),
            None => true,
        }
    }

    /// Whether an element is a field whose name isn't allowed.
    fn refuses(&self, element: &Element) -> bool
        ensures { result ≡ (is_field_piece (piece_of element.now)
            && not (allows self.now (name_of (piece_of element.now)))) }
    {
        let Kind::Field = element.kind else {
            return false;
        };
        !self.allows(element.name())
    }

    /// The names of a record's fields that aren't allowed, each once, in the order in which they first occur.
    fn others<'t>(&self, alloc: Global, fields: &[Element<'t>]) -> Result<Names<'t>, Fault>
        ensures names { IfOk result (λ names. names
            ≡ filter (λ name. not (allows self.now name)) (distinct (names_of (pieces_of fields.now)))) }
        ensures refusals { IsOkUnless result Fault.OutOfMemory }
    {
        let mut names = Names::new(alloc);
        for field in fields {
            if self.refuses(field) {
                names.add(field.name())?;
            }
        }
        Ok(names)
    }

    /// Adds a violation for each name of a record that isn't allowed.
    pub(crate) fn check(
        &self,
        alloc: Global,
        line: usize,
        fields: &[Element],
        found: &mut Vec<Violation>,
    ) -> Result<(), Fault>
        ensures added { OnOk result (found.new.items ≡ found.old.items
            ++ violations_of line Rule.Allowed (filter
            (λ name. not (allows self.now name)) (distinct (names_of (pieces_of fields.now))))) }
        ensures refusals { IsOkUnless result Fault.OutOfMemory }
    {
        let names = self.others(alloc, fields)?;
        add_violations(alloc, line, Rule::Allowed, names.as_slice(), found)
    }
}
