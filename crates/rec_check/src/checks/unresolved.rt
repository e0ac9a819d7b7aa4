//! The kinds that a descriptor names and that mean nothing.
ghost use Rattle.std.specs.Prelude.{◌≡◌, ◌+◌, ◌++◌, ◌<◌, ◌≤◌, length, is_some, slice_get, option_map, option_to_list, OnOk, IsOkUnless};
ghost use Rattle.rec_text.specs.Places.{piece_of, pieces_of};
ghost use Rattle.rec_text.specs.Records.{elements_in as elements_of};
ghost use Rattle.rec_check.specs.proving.Resolved.{resolved_by};
ghost use Rattle.rec_check.specs.Stored.{rules_stored};
ghost use Rattle.rec_check.specs.Violations.{line_at, violation, names_kind as is_of_kinds, resolves, unresolved_in as named_in, unresolved_of, unresolved_violations};
ghost use Rattle.rec_check.specs.Words.{words};

use crate::checks::found::add_violation;
use crate::checks::lines::Lines;
use crate::descriptors::words::split_word;
use crate::field_types::resolution::Resolver;
use crate::rules::Rules;
use rec_text::{Element, Fault, Rule, Violation, elements_in};
use std::alloc::Global;
use std::ops::Range;

/// Whether a field names a kind.
fn names_kind(field: &Element) -> bool
    ensures { result ≡ is_of_kinds (piece_of field.now) }
{
    field.has_name(b"%type") || field.has_name(b"%typedef")
}

/// The second word of a text.
fn second_word(text: &[u8]) -> Option<&[u8]>
    ensures { option_map (λ word. word.now) result ≡ slice_get (words text.now) 1 }
{
    let (_, following) = split_word(text)?;
    let (word, _) = split_word(following)?;
    Some(word)
}

/// The kind that a value names, where it means nothing.
fn unresolved_in<'v>(resolver: &Resolver, value: &'v [u8]) -> Option<&'v [u8]>
    ensures { option_map (λ kind. kind.now) result ≡ named_in (resolved_by resolver.now) value.now }
{
    let kind = second_word(value)?;
    if resolver.resolves(kind) {
        return None;
    }
    Some(kind)
}

/// Adds a violation if the field of an index names a kind that means nothing.
fn check_field(
    alloc: Global,
    lines: &mut Lines,
    resolver: &Resolver,
    index: usize,
    field: &Element,
    found: &mut Vec<Violation>,
) -> Result<(), Fault>
    requires forward { lines.old.passed ≤ index }
    requires within { index < length lines.old.elements.now }
    ensures added { OnOk result (found.new.items ≡ found.old.items
        ++ option_to_list (option_map (violation (line_at (pieces_of lines.old.elements.now) index) Rule.Typedef)
        (unresolved_of (resolved_by resolver.now) (piece_of field.now)))) }
    ensures passed { OnOk result (lines.new.passed ≤ index) }
    ensures elements { OnOk result (lines.new.elements.now ≡ lines.old.elements.now) }
    ensures refusals { IsOkUnless result Fault.OutOfMemory }
{
    if !names_kind(field) {
        return Ok(());
    }
    let value = field.value(alloc)?;
    let Some(kind) = unresolved_in(resolver, value.bytes()) else {
        return Ok(());
    };
    let line = lines.line_of(index);
    add_violation(alloc, line, Rule::Typedef, kind, found)
}

/// The same for each of some fields, which begin at an index.
fn check_fields(
    alloc: Global,
    lines: &mut Lines,
    resolver: &Resolver,
    start: usize,
    fields: &[Element],
    found: &mut Vec<Violation>,
) -> Result<(), Fault>
    requires forward { lines.old.passed ≤ start }
    requires within { start + length fields.now ≤ length lines.old.elements.now }
    ensures added { OnOk result (found.new.items ≡ found.old.items
        ++ unresolved_violations (pieces_of lines.old.elements.now) (resolved_by resolver.now) start
        (pieces_of fields.now)) }
    ensures passed { OnOk result (lines.new.passed ≤ start + length fields.now) }
    ensures elements { OnOk result (lines.new.elements.now ≡ lines.old.elements.now) }
    ensures refusals { IsOkUnless result Fault.OutOfMemory }
{
    for (i, field) in fields.iter().enumerate() {
        check_field(alloc, lines, resolver, start + i, field, found)?;
    }
    Ok(())
}

/// The same for the fields of a descriptor that gives these rules.
pub(crate) fn check_kinds(
    alloc: Global,
    lines: &mut Lines,
    range: &Range<usize>,
    rules: &Rules,
    found: &mut Vec<Violation>,
) -> Result<(), Fault>
    requires forward { lines.old.passed ≤ range.now.start }
    requires some { range.now.start < range.now.end }
    requires within { range.now.end ≤ length lines.old.elements.now }
    ensures added { OnOk result (found.new.items ≡ found.old.items
        ++ unresolved_violations (pieces_of lines.old.elements.now)
        (resolves (rules_stored rules.now).definitions) range.now.start
        (elements_of (pieces_of lines.old.elements.now) range.now)) }
    ensures passed { OnOk result (lines.new.passed ≤ range.now.end) }
    ensures elements { OnOk result (lines.new.elements.now ≡ lines.old.elements.now) }
    ensures refusals { IsOkUnless result Fault.OutOfMemory }
{
    let resolver = Resolver::of(alloc, &rules.definitions)?;
    let fields = elements_in(lines.elements(), range);
    check_fields(alloc, lines, &resolver, range.start, fields, found)
}
