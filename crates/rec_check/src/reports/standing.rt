//! Which violations of an edited text stood before the edit.
use crate::rec_file::RecFile;
use crate::reports::record_numbers::{number_by_text, records_of};
use rec_text::{Database, Violation};
use std::alloc::{AllocError, Global};
use std::collections::HashMap;

/// The text before an edit.
#[derive(Clone, Copy)]
pub struct Before<'t> {
    pub text: &'t [u8],
    /// Whether the edit leaves each record in its place.
    pub is_in_place: bool,
}

/// A violation: its rule and name, and the number of its record.
type Known<'v> = (&'v str, &'v [u8], usize);

/// For each violation of an edited file whether it stood in the text before: in the same record, where the edit leaves each in
/// its place, or else in one with the same text. It is empty where that text keeps its rules.
pub(crate) fn stood_before(
    alloc: Global,
    before: Before<'_>,
    file: &RecFile<'_>,
    violations: &[Violation],
) -> Option<Vec<bool>> {
    let old_file = RecFile::read(alloc, before.text).ok()?;
    let (old_text, text) = (old_file.database(), file.database());
    let old = old_file.schema().violations(alloc, old_text).ok()?;
    if old.is_empty() {
        return Some(Vec::new(alloc));
    }
    let is_in_place = before.is_in_place && count_of(old_text) == count_of(text);
    stood_among(alloc, old_text, &old, text, violations, is_in_place).ok()
}

/// The violations of an edited text that didn't stand in the text before, if there is memory to tell them apart.
pub fn added_by(alloc: Global, before: Before<'_>, after: &[u8]) -> Option<Vec<Violation>> {
    let file = RecFile::read(alloc, after).ok()?;
    let violations = file.schema().violations(alloc, file.database()).ok()?;
    let stood = stood_before(alloc, before, &file, &violations)?;
    let mut added = Vec::new(alloc);
    for (index, violation) in violations.into_iter().enumerate() {
        if stood.get(index) != Some(&true) {
            added.push(violation).ok()?;
        }
    }
    Some(added)
}

/// How many records a text has.
fn count_of(database: &Database<'_>) -> usize {
    database.records().as_slice().len()
}

/// For each violation of a text whether it is among the old ones, which stand in the text before.
fn stood_among(
    alloc: Global,
    before: &Database<'_>,
    old: &[Violation],
    after: &Database<'_>,
    new: &[Violation],
    is_in_place: bool,
) -> Result<Vec<bool>, AllocError> {
    let mut from = records_of(alloc, before, old)?;
    let mut to = records_of(alloc, after, new)?;
    if !is_in_place {
        number_by_text(alloc, before, &mut from, after, &mut to)?;
    }
    found_again(alloc, old, &from, new, &to)
}

/// For each new violation whether an old one is the same in a record of the same number, each as often as it stood.
fn found_again<'v>(
    alloc: Global,
    old: &'v [Violation],
    from: &[usize],
    new: &'v [Violation],
    to: &[usize],
) -> Result<Vec<bool>, AllocError> {
    let mut counts = HashMap::new(alloc);
    for (violation, record) in old.iter().zip(from) {
        let count = counts
            .entry(known_as(violation, *record))?
            .or_insert(0usize);
        *count = count.saturating_add(1);
    }
    let mut found = Vec::with_capacity(alloc, new.len())?;
    for (violation, record) in new.iter().zip(to) {
        found.push(takes(&mut counts, &known_as(violation, *record)))?;
    }
    Ok(found)
}

fn known_as(violation: &Violation, record: usize) -> Known<'_> {
    (violation.rule.word(), violation.name.as_slice(), record)
}

/// Takes one from a count, if it isn't 0.
fn takes<'v>(counts: &mut HashMap<Known<'v>, usize>, known: &Known<'v>) -> bool {
    match counts.get_mut(known) {
        Some(count) if *count > 0 => {
            *count = count.saturating_sub(1);
            true
        }
        _ => false,
    }
}
