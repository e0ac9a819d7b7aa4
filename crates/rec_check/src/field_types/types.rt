//! The types of the fields of a set.
ghost use Rattle.std.specs.Prelude.{◌≡◌, ℕ, List, Some, if◌then◌else◌, map, slice_get, IfOk, OnOk, IsOkUnless};
ghost use Rattle.rec_check.specs.proving.Fitting.{place_of, type_tested};
ghost use Rattle.rec_check.specs.Violations.{fails};
ghost use Rattle.rec_text.specs.Bytes.{is_among as among};

use crate::checks::found::add_violation;
use crate::checks::lines::Lines;
use crate::field_types::field_type::Typing;
use crate::field_types::optional_test::OptionalTest;
use crate::field_types::resolution::Resolver;
use crate::rules::Rules;
use rec_text::{Bytes, Element, Fault, Kind, Rule, Violation};
use std::alloc::Global;
use std::collections::HashMap;

/// Sets the place of some names.
fn place_names<'n>(
    places: &mut HashMap<&'n [u8], usize>,
    names: &'n [Bytes],
    place: usize,
) -> Result<(), Fault>
    ensures places { OnOk result ((name : List ℕ)
        → place_of places.new name ≡ (if among names.now name then Some place else place_of places.old name)) }
    ensures refusals { IsOkUnless result Fault.OutOfMemory }
{
    for name in names {
        places.insert(name.as_slice(), place)?;
    }
    Ok(())
}

/// Whether a value doesn't fit the type at a place, if there is one.
fn fails_at(
    alloc: Global,
    tests: &mut [OptionalTest<'_>],
    place: usize,
    value: &[u8],
) -> Result<bool, Fault>
    ensures fails { IfOk result (λ answer. answer ≡ fails (slice_get (map type_tested tests.old) place) value.now) }
    ensures same { map type_tested tests.new ≡ map type_tested tests.old }
    ensures refusals { IsOkUnless result Fault.OutOfMemory }
{
    if place >= tests.len() {
        return Ok(false);
    }
    Ok(!tests[place].fits(alloc, value)?)
}

/// The types of the fields of a set, ready to be tried on many values.
#[derive(Drop)]
pub(crate) struct Types<'r> {
    /// For each name the place of its type.
    pub places: HashMap<&'r [u8], usize>,
    pub tests: Vec<OptionalTest<'r>>,
}

impl<'r> Types<'r> {
    ghost use Rattle.std.specs.Prelude.{◌≡◌, ◌+◌, ◌++◌, ◌≤◌, ℕ, List, length, map, option_map, IfOk, OnOk, IsOkUnless};
    ghost use Rattle.rec_text.specs.Places.{piece_of, pieces_of};
    ghost use Rattle.rec_check.specs.Automatic.{may_count};
    ghost use Rattle.rec_check.specs.proving.Resolved.{meaning_by};
    ghost use Rattle.rec_check.specs.Rules.{field_type, type_by, typing_for};
    ghost use Rattle.rec_check.specs.proving.Tests.{type_in};
    ghost use Rattle.rec_check.specs.Stored.{rules_stored, typing_stored};
    ghost use Rattle.rec_check.specs.Violations.{misfits, type_violations};

    /// Of two types for one field the later holds.
    pub(crate) fn of(alloc: Global, rules: &'r Rules) -> Result<Types<'r>, Fault>
        ensures types { IfOk result (λ types. (name : List ℕ) → type_in types name
            ≡ field_type (rules_stored rules.now) name) }
        ensures refusals { IsOkUnless result Fault.OutOfMemory }
    {
        let resolver = Resolver::of(alloc, &rules.definitions)?;
        Types::with(alloc, &resolver, &rules.types)
    }

    /// The types as kinds mean them.
    fn with(
        alloc: Global,
        resolver: &Resolver<'r>,
        typings: &'r [Typing],
    ) -> Result<Types<'r>, Fault>
        ensures types { IfOk result (λ types. (name : List ℕ)
            → type_in types name ≡ option_map (type_by (meaning_by resolver.now))
            (typing_for (map typing_stored typings.now) name)) }
        ensures refusals { IsOkUnless result Fault.OutOfMemory }
    {
        let mut places = HashMap::new(alloc);
        let mut tests = Vec::with_capacity(alloc, typings.len())?;
        for (place, typing) in typings.iter().enumerate() {
            let value_type = resolver.meaning_of(typing.kind.as_slice(), &typing.value_type);
            tests.push(OptionalTest::of(value_type))?;
            place_names(&mut places, &typing.names, place)?;
        }
        Ok(Types { places, tests })
    }

    /// Whether fields of a name have no type, or one whose values may be counted.
    pub(crate) fn may_count(&self, name: &[u8]) -> bool
        ensures { result ≡ may_count (type_in self.now name.now) }
    {
        let Some(place) = self.places.get(name) else {
            return true;
        };
        let Some(test) = self.tests.get(*place) else {
            return true;
        };
        test.may_count()
    }

    /// Whether an element is a field with a type that its value doesn't fit.
    fn is_misfit(&mut self, alloc: Global, element: &Element) -> Result<bool, Fault>
        ensures misfit { IfOk result (λ answer. answer ≡ misfits (type_in self.old) (piece_of element.now)) }
        ensures same { (name : List ℕ) → type_in self.new name ≡ type_in self.old name }
        ensures refusals { IsOkUnless result Fault.OutOfMemory }
    {
        let Kind::Field = element.kind else {
            return Ok(false);
        };
        let Some(place) = self.places.get(element.name()) else {
            return Ok(false);
        };
        let value = element.value(alloc)?;
        fails_at(alloc, &mut self.tests, *place, value.bytes())
    }

    /// Adds a violation for each of these fields, which begin at an index, whose value doesn't fit its type.
    pub(crate) fn check(
        &mut self,
        alloc: Global,
        lines: &mut Lines,
        start: usize,
        fields: &[Element],
        found: &mut Vec<Violation>,
    ) -> Result<(), Fault>
        requires forward { lines.old.passed ≤ start }
        requires within { start + length fields.now ≤ length lines.old.elements.now }
        ensures added { OnOk result (found.new.items ≡ found.old.items
            ++ type_violations (pieces_of lines.old.elements.now) (type_in self.old) start
            (pieces_of fields.now)) }
        ensures same { OnOk result ((name : List ℕ) → type_in self.new name ≡ type_in self.old name) }
        ensures passed { OnOk result (lines.new.passed ≤ start + length fields.now) }
        ensures elements { OnOk result (lines.new.elements.now ≡ lines.old.elements.now) }
        ensures refusals { IsOkUnless result Fault.OutOfMemory }
    {
        for (i, field) in fields.iter().enumerate() {
            if !self.is_misfit(alloc, field)? {
                continue;
            }
            let line = lines.line_of(start + i);
            add_violation(alloc, line, Rule::Fit, field.name(), found)?;
        }
        Ok(())
    }
}
