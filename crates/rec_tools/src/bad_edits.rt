//! What is wrong with a record of a batch that is no edit: for people, so contracts don't see it.
use rec_text::{BadEdit, Database, Element, Needed, Wanted, count_of};

/// The names of fields of which an edit has one at most.
pub const SELECTIONS: &[&[u8]] = &[b"Expression", b"Number", b"Quick"];

pub const ACTIONS: &[&[u8]] = &[b"Set", b"Add", b"SetAdd", b"Rename", b"Delete", b"Comment"];

/// The first two fields that have one of these names.
fn first_two<'t>(
    own: &[Element<'t>],
    names: &[&[u8]],
) -> (Option<Element<'t>>, Option<Element<'t>>) {
    let mut found = own
        .iter()
        .filter(|element| names.contains(&element.name()))
        .copied();
    (found.next(), found.next())
}

/// The field of a name stands twice.
pub fn repeated(database: &Database<'_>, own: &[Element<'_>], name: &[u8]) -> Option<BadEdit> {
    let (_, second) = first_two(own, &[name]);
    let line = database.line_of(second?.at);
    Some(BadEdit::Repeated { line })
}

/// Two fields have one of these names.
pub fn excluded(database: &Database<'_>, own: &[Element<'_>], names: &[&[u8]]) -> Option<BadEdit> {
    match first_two(own, names) {
        (Some(first), Some(second)) => Some(beside(database, second, first)),
        _ => None,
    }
}

/// One field stands beside another.
fn beside(database: &Database<'_>, field: Element<'_>, other: Element<'_>) -> BadEdit {
    BadEdit::Excluded {
        line: database.line_of(field.at),
        other: database.line_of(other.at),
    }
}

/// The fields of a new record are no pairs, or a text stands beside them.
pub fn unfit(database: &Database<'_>, own: &[Element<'_>]) -> Option<BadEdit> {
    let (pair, _) = first_two(own, &[b"Field", b"Value"]);
    let (record, _) = first_two(own, &[b"Record"]);
    Some(match (pair, record) {
        (Some(pair), Some(record)) => beside(database, pair, record),
        _ => BadEdit::Unpaired {
            names: count_of(own, b"Field"),
            values: count_of(own, b"Value"),
        },
    })
}

/// The field of a name has another value than it can have.
pub fn other_value(
    database: &Database<'_>,
    own: &[Element<'_>],
    name: &[u8],
    wanted: Wanted,
    is_padded: bool,
) -> Option<BadEdit> {
    let (field, _) = first_two(own, &[name]);
    Some(BadEdit::Value {
        line: database.line_of(field?.at),
        wanted,
        is_padded,
    })
}

/// There is no Tool, or one without its capital letter.
pub fn toolless(own: &[Element<'_>]) -> Option<BadEdit> {
    Some(BadEdit::Lacks(match count_of(own, b"tool") {
        0 => Needed::Tool,
        _ => Needed::Capital,
    }))
}
