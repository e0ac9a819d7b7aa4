//! Tries the rules of a set on its records.
ghost use Rattle.std.specs.Prelude.{◌≡◌, ℕ, List, [], IfOk, IsOkUnless};
ghost use Rattle.rec_check.specs.Rules.{field_type};
ghost use Rattle.rec_check.specs.Stored.{rules_stored};
ghost use Rattle.rec_check.specs.declared.checks.occurrence_rule.OccurrenceRule.TheVariants.{Present, Absent, Single};
ghost use Rattle.rec_check.specs.proving.Constraints.{terms_in};
ghost use Rattle.rec_check.specs.proving.Names.{allows};
ghost use Rattle.rec_check.specs.proving.Ready.{IsOccurrenceCheck};
ghost use Rattle.rec_check.specs.proving.Singulars.{IsSingularAfter};
ghost use Rattle.rec_check.specs.proving.Tests.{type_in};
ghost use Rattle.rec_check.specs.Violations.{is_allowed};

use crate::checks::allowed::Allowed;
use crate::checks::constraints::Constraints;
use crate::checks::key::Key;
use crate::checks::lines::Lines;
use crate::checks::occurrence_rule::{OccurrenceCheck, OccurrenceRule};
use crate::checks::singular::Singular;
use crate::field_types::types::Types;
use crate::rules::Rules;
use rec_text::{Fault, Violation, elements_in};
use std::alloc::Global;
use std::ops::Range;

/// The rules of a set, ready to be tried on its records one after another.
#[derive(Drop)]
pub(crate) struct Checker<'r, 't> {
    pub key: Key<'r, 't>,
    pub mandatory: OccurrenceCheck<'r>,
    pub prohibited: OccurrenceCheck<'r>,
    pub unique: OccurrenceCheck<'r>,
    pub singular: Singular<'r, 't>,
    pub allowed: Allowed<'r>,
    pub types: Types<'r>,
    pub constraints: Constraints<'r>,
}

/// What the rules ask of how often names occur: at least once, never, and at most once.
fn occurrence_checks<'r>(
    alloc: Global,
    rules: &'r Rules,
) -> Result<
    (
        OccurrenceCheck<'r>,
        OccurrenceCheck<'r>,
        OccurrenceCheck<'r>,
    ),
    Fault,
>
    ensures ready { IfOk result (λ (mandatory, prohibited, unique).
        IsOccurrenceCheck Present rules.now.mandatory.items mandatory
        × IsOccurrenceCheck Absent rules.now.prohibited.items prohibited
        × IsOccurrenceCheck Single rules.now.unique.items unique) }
    ensures refusals { IsOkUnless result Fault.OutOfMemory }
{
    let mandatory = OccurrenceCheck::of(alloc, OccurrenceRule::Present, &rules.mandatory)?;
    let prohibited = OccurrenceCheck::of(alloc, OccurrenceRule::Absent, &rules.prohibited)?;
    let unique = OccurrenceCheck::of(alloc, OccurrenceRule::Single, &rules.unique)?;
    Ok((mandatory, prohibited, unique))
}

/// What the rules ask of single fields, by their names and their values, and of whole records.
fn field_checks<'r, 't>(
    alloc: Global,
    rules: &'r Rules,
) -> Result<(Singular<'r, 't>, Allowed<'r>, Types<'r>, Constraints<'r>), Fault>
    ensures ready { IfOk result (λ (singular, allowed, types, constraints).
        IsSingularAfter rules.now.singular.items [] singular
        × ((name : List ℕ) → allows allowed name ≡ is_allowed (rules_stored rules.now) name)
        × ((name : List ℕ) → type_in types name ≡ field_type (rules_stored rules.now) name)
        × (terms_in constraints ≡ (rules_stored rules.now).constraints)) }
    ensures refusals { IsOkUnless result Fault.OutOfMemory }
{
    let singular = Singular::of(alloc, &rules.singular)?;
    let allowed = Allowed::of(alloc, rules)?;
    let types = Types::of(alloc, rules)?;
    let constraints = Constraints::of(alloc, &rules.constraints)?;
    Ok((singular, allowed, types, constraints))
}

impl<'r, 't> Checker<'r, 't> {
    ghost use Rattle.std.specs.Prelude.{◌≡◌, ◌++◌, ◌∷◌, [], ◌<◌, ◌≤◌, ℕ, List, length, IfOk, OnOk, IsOkUnless};
    ghost use Rattle.std.specs.declared.ops.Range.{Range};
    ghost use Rattle.rec_text.specs.Elements.{Piece};
    ghost use Rattle.rec_text.specs.Places.{pieces_of};
    ghost use Rattle.rec_text.specs.Records.{AreAscending, elements_in};
    ghost use Rattle.rec_check.specs.Rules.{Rules as Asked};
    ghost use Rattle.rec_check.specs.Checks.{AddsOfRecord, AddsOfRecords};
    ghost use Rattle.rec_check.specs.proving.Ready.{IsReady};
    ghost use Rattle.rec_check.specs.Stored.{rules_stored};
    ghost use Rattle.rec_check.specs.Walking.{AreWithin};

    pub(crate) fn of(alloc: Global, rules: &'r Rules) -> Result<Checker<'r, 't>, Fault>
        ensures ready { IfOk result (λ checker. IsReady (rules_stored rules.now) [] checker) }
        ensures refusals { IsOkUnless result Fault.OutOfMemory }
    {
        let (mandatory, prohibited, unique) = occurrence_checks(alloc, rules)?;
        let (singular, allowed, types, constraints) = field_checks(alloc, rules)?;
        Ok(Checker {
            key: Key::of(alloc, &rules.key),
            mandatory,
            prohibited,
            unique,
            singular,
            allowed,
            types,
            constraints,
        })
    }

    /// Adds the violations of the next record of the set.
    pub(crate) fn check(
        &mut self,
        alloc: Global,
        lines: &mut Lines<'_, 't>,
        range: &Range<usize>,
        found: &mut Vec<Violation>,
    ) -> Result<(), Fault>
        requires forward { lines.old.passed ≤ range.now.start }
        requires some { range.now.start < range.now.end }
        requires within { range.now.end ≤ length lines.old.elements.now }
        ensures added { (rules : Asked) (earlier : List (List Piece)) → IsReady rules earlier self.old
            → OnOk result (AddsOfRecord
            (pieces_of lines.old.elements.now) rules earlier range.now found.old.items found.new.items) }
        ensures ready { (rules : Asked) (earlier : List (List Piece)) → IsReady rules earlier self.old
            → OnOk result (IsReady rules (earlier ++ elements_in (pieces_of lines.old.elements.now) range.now
            ∷ []) self.new) }
        ensures passed { OnOk result (lines.new.passed ≤ range.now.end) }
        ensures elements { OnOk result (lines.new.elements.now ≡ lines.old.elements.now) }
        ensures refusals { IsOkUnless result Fault.OutOfMemory }
    {
        let line = lines.line_of(range.start);
        let fields = elements_in(lines.elements(), range);
        self.key.check(alloc, line, fields, found)?;
        self.mandatory.check(alloc, line, fields, found)?;
        self.prohibited.check(alloc, line, fields, found)?;
        self.unique.check(alloc, line, fields, found)?;
        self.singular.check(alloc, line, fields, found)?;
        self.allowed.check(alloc, line, fields, found)?;
        self.types.check(alloc, lines, range.start, fields, found)?;
        self.constraints.check(alloc, line, fields, found)
    }

    /// Adds the violations of all records of the set, in their order.
    pub(crate) fn check_all(
        &mut self,
        alloc: Global,
        lines: &mut Lines<'_, 't>,
        records: &[Range<usize>],
        found: &mut Vec<Violation>,
    ) -> Result<(), Fault>
        requires ahead { AreAscending lines.old.passed records.now }
        requires within { AreWithin (length lines.old.elements.now) records.now }
        ensures added { (rules : Asked) → IsReady rules [] self.old
            → OnOk result (AddsOfRecords
            (pieces_of lines.old.elements.now) rules records.now found.old.items found.new.items) }
        ensures ahead { (rest : List (Range ℕ)) → AreAscending lines.old.passed (records.now ++ rest)
            → OnOk result (AreAscending lines.new.passed rest) }
        ensures elements { OnOk result (lines.new.elements.now ≡ lines.old.elements.now) }
        ensures refusals { IsOkUnless result Fault.OutOfMemory }
    {
        for record in records {
            self.check(alloc, lines, record, found)?;
        }
        Ok(())
    }
}
