//! The numbers of the records in which violations stand.
use rec_text::{Database, Violation};
use std::alloc::{AllocError, Global};
use std::collections::HashMap;

/// For each violation of a report, in its order, the number of its record among those of the text.
pub(crate) fn records_of(
    alloc: Global,
    database: &Database<'_>,
    violations: &[Violation],
) -> Result<Vec<usize>, AllocError> {
    let starts = starts_of(alloc, database)?;
    let mut found = Vec::with_capacity(alloc, violations.len())?;
    let mut record = 0;
    for violation in violations {
        record = record_at(&starts, record, violation.line);
        found.push(record)?;
    }
    Ok(found)
}

/// The lines at which the records begin.
fn starts_of(alloc: Global, database: &Database<'_>) -> Result<Vec<usize>, AllocError> {
    let records = database.records();
    let mut starts = Vec::with_capacity(alloc, records.as_slice().len())?;
    let mut line: usize = 1;
    let mut place = 0;
    for record in records.as_slice() {
        let start = database.place_of(record.start);
        let before = database.text().get(place..start).unwrap_or(&[]);
        line = line.saturating_add(before.iter().filter(|byte| **byte == b'\n').count());
        place = start;
        starts.push(line)?;
    }
    Ok(starts)
}

/// The record in which a line stands, from one on that begins at the line or before it.
fn record_at(starts: &[usize], from: usize, line: usize) -> usize {
    let later = starts.get(from.saturating_add(1)..).unwrap_or(&[]);
    let passed = later.iter().take_while(|start| **start <= line).count();
    from.saturating_add(passed)
}

/// Numbers records of two texts anew, so that those with one text have one number.
pub(crate) fn number_by_text<'t>(
    alloc: Global,
    before: &Database<'t>,
    from: &mut [usize],
    after: &Database<'t>,
    to: &mut [usize],
) -> Result<(), AllocError> {
    let mut numbers = HashMap::new(alloc);
    number_each(before, from, &mut numbers)?;
    number_each(after, to, &mut numbers)
}

/// Numbers records of a text by their own texts. The same ones stand beside one another.
fn number_each<'t>(
    database: &Database<'t>,
    records: &mut [usize],
    numbers: &mut HashMap<&'t [u8], usize>,
) -> Result<(), AllocError> {
    let mut last = None;
    for record in records.iter_mut() {
        let number = match last {
            Some((same, number)) if same == *record => number,
            _ => number_of(text_of(database, *record), numbers)?,
        };
        last = Some((*record, number));
        *record = number;
    }
    Ok(())
}

/// The number of a text: that of the first such one, or the next.
fn number_of<'t>(
    text: &'t [u8],
    numbers: &mut HashMap<&'t [u8], usize>,
) -> Result<usize, AllocError> {
    let next = numbers.len();
    Ok(*numbers.entry(text)?.or_insert(next))
}

/// The text of a record, without the newline at its end, which the last one of a file may lack.
fn text_of<'t>(database: &Database<'t>, record: usize) -> &'t [u8] {
    let records = database.records();
    let Some(range) = records.as_slice().get(record) else {
        return &[];
    };
    let (start, end) = (database.place_of(range.start), database.place_of(range.end));
    let text = database.text().get(start..end).unwrap_or(&[]);
    text.strip_suffix(b"\n").unwrap_or(text)
}
