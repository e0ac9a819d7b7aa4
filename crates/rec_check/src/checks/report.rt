//! Where a text breaks the rules of its record sets.
ghost use Rattle.std.specs.Prelude.{◌≡◌, ◌++◌, ◌∷◌, [], ◌<◌, ◌≤◌, ℕ, List, Ok, None, drop, length, map, unwrap_or, if◌then◌else◌, IfOk, OnOk, IsOkUnless};
ghost use Rattle.std.specs.declared.ops.Range.{Range};
ghost use Rattle.rec_text.specs.Places.{pieces_of};
ghost use Rattle.rec_text.specs.Records.{AreAscending};
ghost use Rattle.rec_check.specs.Checks.{AddsOfRecords, AddsOfSet};
ghost use Rattle.rec_check.specs.Descriptors.{meets};
ghost use Rattle.rec_check.specs.Schemas.{IsSchema};
ghost use Rattle.rec_check.specs.Stored.{rules_stored};
ghost use Rattle.rec_check.specs.Violations.{AreViolations, breaks_size, head_violations, line_at, violation};
ghost use Rattle.rec_check.specs.Walking.{AreWithin, IsNextSet};

use crate::checks::checker::Checker;
use crate::checks::found::add_violation;
use crate::checks::lines::Lines;
use crate::checks::unresolved::check_kinds;
use crate::descriptors::special::{Bound, Comparison};
use crate::rules::Rules;
use crate::set::Set_;
use rec_text::{Database, Fault, Rule, Violation};
use std::alloc::Global;
use std::ops::Range;

/// Whether n records are the number that is asked for.
fn is_met(bound: &Bound, count: u64) -> bool
    ensures { result ≡ meets bound.now count }
{
    match bound.comparison {
        Comparison::Exactly => count == bound.number,
        Comparison::Less => count < bound.number,
        Comparison::AtMost => count <= bound.number,
        Comparison::Greater => count > bound.number,
        Comparison::AtLeast => count >= bound.number,
    }
}

/// The type of a set; empty where it has none.
fn kind_of(set: &Set_) -> &[u8]
    ensures { result.now ≡ unwrap_or set.now.kind [] }
{
    match &set.kind {
        Some(kind) => kind.as_slice(),
        None => &[],
    }
}

/// Adds a violation if a set, whose descriptor begins at an index, has not as many records as is asked.
fn check_size(
    alloc: Global,
    lines: &mut Lines,
    start: usize,
    set: &Set_,
    rules: &Rules,
    found: &mut Vec<Violation>,
) -> Result<(), Fault>
    requires forward { lines.old.passed ≤ start }
    requires within { start < length lines.old.elements.now }
    ensures added { OnOk result (found.new.items ≡ found.old.items
        ++ (if breaks_size (rules_stored rules.now) set.now then violation
        (line_at (pieces_of lines.old.elements.now) start) Rule.Size (unwrap_or set.now.kind [])
        ∷ [] else [])) }
    ensures passed { OnOk result (lines.new.passed ≤ start) }
    ensures elements { OnOk result (lines.new.elements.now ≡ lines.old.elements.now) }
    ensures refusals { IsOkUnless result Fault.OutOfMemory }
{
    let Some(bound) = &rules.size else {
        return Ok(());
    };
    if is_met(bound, set.members.len() as u64) {
        return Ok(());
    }
    let line = lines.line_of(start);
    add_violation(alloc, line, Rule::Size, kind_of(set), found)
}

/// Adds the violations of a set's descriptor: the size, and the kinds that mean nothing.
fn check_head(
    alloc: Global,
    lines: &mut Lines,
    records: &[Range<usize>],
    set: &Set_,
    rules: &Rules,
    found: &mut Vec<Violation>,
) -> Result<(), Fault>
    requires ruled { set.now.head ≡ None → rules.now.size ≡ None }
    requires next { IsNextSet lines.old.passed records.now set.now }
    requires within { AreWithin (length lines.old.elements.now) records.now }
    ensures added { OnOk result (found.new.items ≡ found.old.items
        ++ head_violations (pieces_of lines.old.elements.now) records.now (rules_stored rules.now) set.now) }
    ensures ahead { OnOk result (AreAscending lines.new.passed (drop set.now.members.start records.now)) }
    ensures elements { OnOk result (lines.new.elements.now ≡ lines.old.elements.now) }
    ensures refusals { IsOkUnless result Fault.OutOfMemory }
{
    let Some(head) = set.head else {
        return Ok(());
    };
    let range = &records[head];
    check_size(alloc, lines, range.start, set, rules, found)?;
    check_kinds(alloc, lines, range, rules, found)
}

/// Adds the violations of the records of a set.
fn check_records<'t>(
    alloc: Global,
    lines: &mut Lines<'_, 't>,
    records: &[Range<usize>],
    rules: &Rules,
    found: &mut Vec<Violation>,
) -> Result<(), Fault>
    requires ahead { AreAscending lines.old.passed records.now }
    requires within { AreWithin (length lines.old.elements.now) records.now }
    ensures added { OnOk result (AddsOfRecords (pieces_of lines.old.elements.now)
        (rules_stored rules.now) records.now found.old.items found.new.items) }
    ensures ahead { (rest : List (Range ℕ)) → AreAscending lines.old.passed (records.now ++ rest)
        → OnOk result (AreAscending lines.new.passed rest) }
    ensures elements { OnOk result (lines.new.elements.now ≡ lines.old.elements.now) }
    ensures refusals { IsOkUnless result Fault.OutOfMemory }
{
    let mut checker = Checker::of(alloc, rules)?;
    checker.check_all(alloc, lines, records, found)
}

/// Adds the violations of a set: those of its descriptor, and then its records.
fn check_set<'t>(
    alloc: Global,
    lines: &mut Lines<'_, 't>,
    records: &[Range<usize>],
    set: &Set_,
    rules: &Rules,
    found: &mut Vec<Violation>,
) -> Result<(), Fault>
    requires ruled { set.now.head ≡ None → rules.now.size ≡ None }
    requires next { IsNextSet lines.old.passed records.now set.now }
    requires within { AreWithin (length lines.old.elements.now) records.now }
    ensures added { OnOk result (AddsOfSet (pieces_of lines.old.elements.now) records.now set.now
        (rules_stored rules.now) found.old.items found.new.items) }
    ensures ahead { OnOk result (AreAscending lines.new.passed (drop set.now.members.end records.now)) }
    ensures elements { OnOk result (lines.new.elements.now ≡ lines.old.elements.now) }
    ensures refusals { IsOkUnless result Fault.OutOfMemory }
{
    check_head(alloc, lines, records, set, rules, found)?;
    let members = &records[set.members.start..set.members.end];
    check_records(alloc, lines, members, rules, found)
}

/// The violations of a text with these sets and rules, set by set.
pub(crate) fn violations_of(
    alloc: Global,
    database: &Database,
    sets: &[Set_],
    rules: &[Rules],
) -> Result<Vec<Violation>, Fault>
    requires { IsSchema database.now (Ok (record { sets = sets.now; rules = map rules_stored rules.now })) }
    ensures violations { IfOk result (λ found. AreViolations database.now
        (record { sets = sets.now; rules = map rules_stored rules.now }) found.items) }
    ensures refusals { IsOkUnless result Fault.OutOfMemory }
{
    let records = database.records().as_slice();
    let mut lines = Lines::of(database);
    let mut found = Vec::new(alloc);
    for (set, rules) in sets.iter().zip(rules) {
        check_set(alloc, &mut lines, records, set, rules, &mut found)?;
    }
    Ok(found)
}
