//! What a violation finds.
use crate::descriptors::special::{Bound, Comparison};
use crate::field_types::types::Types;
use crate::reports::places::Place;
use crate::reports::shared_values::Shared;
use crate::reports::written::written;
use crate::rules::Rules;
use rec_text::{Bytes, Database, Element, Finding, Rule, Violation, count_of};
use std::alloc::{AllocError, Global};
use std::str;

/// What a violation finds, which shares a value with an earlier record, or doesn't.
pub(crate) fn finding_of(
    alloc: Global,
    database: &Database<'_>,
    place: &Place<'_, '_>,
    violation: &Violation,
    shared: Option<Shared<'_, '_>>,
) -> Option<Finding> {
    let name = violation.name.as_slice();
    Some(match (violation.rule, shared) {
        (Rule::Fit, _) => Finding::Type(type_of(alloc, place.rules, name)?),
        (Rule::Constraint, _) => Finding::Constraint(constraint_of(alloc, place.descriptor, name)?),
        (Rule::Size, _) => Finding::Size {
            count: place.count,
            wanted: bound_of(alloc, place.rules.size?)?,
        },
        (Rule::Typedef, _) if is_defined(place.rules, name) => Finding::Kindless,
        (Rule::Typedef, _) => Finding::Undefined,
        (Rule::Prohibit, _) => Finding::Prohibited,
        (Rule::Allowed, _) => Finding::NotAllowed,
        (_, Some(shared)) => Finding::Taken(database.line_of(shared.at)),
        (_, None) if count_of(place.record, name) == 0 => Finding::Missing,
        (_, None) => Finding::Several,
    })
}

/// The type of the fields of a name.
fn type_of(alloc: Global, rules: &Rules, name: &[u8]) -> Option<Bytes> {
    let types = Types::of(alloc, rules).ok()?;
    let place = *types.places.get(name)?;
    let test = types.tests.get(place)?.lazy.as_ref()?;
    written(alloc, test.value_type).ok()
}

/// The constraint of a number, counted from 1, in one line.
fn constraint_of(alloc: Global, descriptor: &[Element<'_>], number: &[u8]) -> Option<Bytes> {
    let number = str::from_utf8(number).ok()?.parse::<usize>().ok()?;
    let field = descriptor
        .iter()
        .filter(|element| element.has_name(b"%constraint"))
        .nth(number.checked_sub(1)?)?;
    let value = field.value(alloc).ok()?;
    in_one_line(alloc, value.bytes().trim_ascii()).ok()
}

/// A text with a space for each newline.
fn in_one_line(alloc: Global, text: &[u8]) -> Result<Bytes, AllocError> {
    let mut line = Vec::from_slice(alloc, text)?;
    for byte in line.iter_mut() {
        if *byte == b'\n' {
            *byte = b' ';
        }
    }
    Ok(Bytes::from_vec(line))
}

/// A number of records as a descriptor writes it.
fn bound_of(alloc: Global, bound: Bound) -> Option<Bytes> {
    let comparison = match bound.comparison {
        Comparison::Exactly => "",
        Comparison::Less => "< ",
        Comparison::AtMost => "<= ",
        Comparison::Greater => "> ",
        Comparison::AtLeast => ">= ",
    };
    let number = bound.number;
    let line = format!(in alloc; "{comparison}{number}").ok()?;
    Some(Bytes::from_vec(line.into_bytes()))
}

/// Whether a definition is of a kind.
fn is_defined(rules: &Rules, kind: &[u8]) -> bool {
    rules
        .definitions
        .iter()
        .any(|definition| definition.name.as_slice() == kind)
}
