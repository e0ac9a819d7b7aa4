//! Values that stand in an earlier record of a set too.
use crate::reports::places::{Place, within};
use rec_text::{Element, Rule, Value, Violation, count_of};
use std::alloc::{AllocError, Global};
use std::borrow::CowSlice;
use std::collections::HashMap;

/// A field whose value an earlier record has too, and where that record begins.
#[derive(Clone, Copy)]
pub(crate) struct Shared<'d, 't> {
    pub field: &'d Element<'t>,
    pub at: usize,
}

/// The values of fields, with the fields.
type Values<'d, 't> = HashMap<CowSlice<'t, u8>, &'d Element<'t>>;

/// The first earlier record with a value of this one, where a violation is of a rule that forbids that.
pub(crate) fn first_shared<'d, 't>(
    alloc: Global,
    place: &Place<'d, 't>,
    violation: &Violation,
) -> Result<Option<Shared<'d, 't>>, AllocError> {
    let (rule, name) = (violation.rule, violation.name.as_slice());
    if !matches!(rule, Rule::Key | Rule::Singular) || !counts(rule, place.record, name) {
        return Ok(None);
    }
    let own = values_in(alloc, place.record, name)?;
    shared_before(alloc, place, rule, name, &own)
}

/// The first earlier record with one of these values in the fields of a name.
fn shared_before<'d, 't>(
    alloc: Global,
    place: &Place<'d, 't>,
    rule: Rule,
    name: &[u8],
    own: &Values<'d, 't>,
) -> Result<Option<Shared<'d, 't>>, AllocError> {
    for range in place.earlier {
        let record = within(place.elements, range);
        if counts(rule, record, name)
            && let Some(first) = record.first()
            && let Some(field) = shared_field(alloc, record, name, own)?
        {
            let at = first.at;
            return Ok(Some(Shared { field, at }));
        }
    }
    Ok(None)
}

/// Whether the fields of a name in a record count for a rule: a key does where it is the only one of its record.
fn counts(rule: Rule, record: &[Element<'_>], name: &[u8]) -> bool {
    rule != Rule::Key || count_of(record, name) == 1
}

/// The values of the fields of a name in a record, with these fields.
fn values_in<'d, 't>(
    alloc: Global,
    record: &'d [Element<'t>],
    name: &[u8],
) -> Result<Values<'d, 't>, AllocError> {
    let mut values = HashMap::new(alloc);
    for field in record {
        if field.has_name(name) {
            values.insert(value_of(alloc, field)?.into_cow(), field)?;
        }
    }
    Ok(values)
}

/// Of the fields with values the one whose value a record has in a field of the name.
fn shared_field<'d, 't>(
    alloc: Global,
    record: &[Element<'t>],
    name: &[u8],
    values: &Values<'d, 't>,
) -> Result<Option<&'d Element<'t>>, AllocError> {
    for field in record {
        if field.has_name(name) {
            let value = value_of(alloc, field)?.into_cow();
            if let Some(own) = values.get(&value) {
                return Ok(Some(*own));
            }
        }
    }
    Ok(None)
}

/// The value of a field; reading it needs memory alone.
fn value_of<'t>(alloc: Global, field: &Element<'t>) -> Result<Value<'t>, AllocError> {
    match field.value(alloc) {
        Ok(value) => Ok(value),
        Err(_) => Err(AllocError),
    }
}
