//! Where in a text a violation stands.
use crate::rec_file::RecFile;
use crate::rules::Rules;
use crate::set::Set_;
use rec_text::{Database, Element, from_line};
use std::ops::Range;

/// A field that breaks a rule, and what stands around it.
#[derive(Clone, Copy)]
pub(crate) struct Place<'d, 't> {
    pub elements: &'d [Element<'t>],
    pub rules: &'d Rules,
    /// The elements of the descriptor.
    pub descriptor: &'d [Element<'t>],
    /// The elements of the record; a descriptor is a record too.
    pub record: &'d [Element<'t>],
    pub field: &'d Element<'t>,
    /// The records of the set before this one.
    pub earlier: &'d [Range<usize>],
    /// How many records the set has.
    pub count: usize,
}

/// Where the violation of a line stands.
pub(crate) fn place_of<'d, 't>(file: &'d RecFile<'t>, line: usize) -> Option<Place<'d, 't>> {
    let database = file.database();
    let index = index_at(database, line)?;
    let number = record_with(database, index)?;
    let at = file
        .schema()
        .sets()
        .iter()
        .position(|set| has_record(set, number))?;
    let set = file.schema().sets().get(at)?;
    let earlier = database.records().as_slice().get(set.members.start..number);
    Some(Place {
        elements: database.elements(),
        rules: file.schema().rules().get(at)?,
        descriptor: elements_of(database, set.head?),
        record: elements_of(database, number),
        field: database.elements().get(index)?,
        earlier: earlier.unwrap_or(&[]),
        count: set.members.end.saturating_sub(set.members.start),
    })
}

/// The index of the element that begins where a line does.
fn index_at(database: &Database<'_>, line: usize) -> Option<usize> {
    let text = database.text();
    let place = text.len().saturating_sub(from_line(text, line).len());
    database
        .elements()
        .iter()
        .position(|element| element.at == place)
}

/// The number of the record that has the element of an index.
fn record_with(database: &Database<'_>, index: usize) -> Option<usize> {
    database
        .records()
        .as_slice()
        .iter()
        .position(|record| record.start <= index && index < record.end)
}

/// Whether a record is of a set; its descriptor is too.
fn has_record(set: &Set_, number: usize) -> bool {
    set.head == Some(number) || (set.members.start <= number && number < set.members.end)
}

/// The elements of the record of a number.
pub(crate) fn elements_of<'d, 't>(database: &'d Database<'t>, record: usize) -> &'d [Element<'t>] {
    let (start, end) = match database.records().as_slice().get(record) {
        Some(range) => (range.start, range.end),
        None => (0, 0),
    };
    within(database.elements(), &(start..end))
}

/// The elements of a range, as far as there are such.
pub(crate) fn within<'d, 't>(
    elements: &'d [Element<'t>],
    range: &Range<usize>,
) -> &'d [Element<'t>] {
    let end = range.end.min(elements.len());
    &elements[range.start.min(end)..end]
}

/// The field of a name in a record.
pub(crate) fn field_of<'d, 't>(record: &'d [Element<'t>], name: &[u8]) -> Option<&'d Element<'t>> {
    record.iter().find(|element| element.has_name(name))
}

/// The field by which a record is known: that of the key, or else the first.
pub(crate) fn known_by<'t>(rules: &Rules, record: &[Element<'t>]) -> &'t [u8] {
    let key = match &rules.key {
        Some(key) => field_of(record, key.as_slice()),
        None => None,
    };
    match key.or(record.first()) {
        Some(field) => field.raw,
        None => &[],
    }
}
