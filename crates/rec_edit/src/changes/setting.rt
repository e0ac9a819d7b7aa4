//! The edit of fields of records.
ghost use Rattle.std.specs.Prelude.{◌≡◌, ◌++◌, ◌+◌, ◌^◌, ◌<◌, ◌&&◌, ◌||◌, ◌==◌, ℕ, Bool, true, false, not, List, [], length, map, IfOk, OnOk};
ghost use Rattle.rec_text.specs.Elements.{Piece, text_of};
ghost use Rattle.rec_text.specs.Places.{piece_of, pieces_of};
ghost use Rattle.rec_edit.specs.Script.{Part, closed, settled};
ghost use Rattle.rec_edit.specs.Rules.{comments_of, renamed, picked_becomes, picks_none as none_picked, added, edited, becomes_if};
ghost use Rattle.rec_edit.specs.proving.Drafts.{LeadsOn};
ghost use Rattle.rec_edit.specs.proving.Laying.{fields_for, fields_lacking, own_parts, settled_if};

use crate::draft::Draft;
use crate::laying::{Change, marks_of};
use crate::request::Action;
use rec_sex::{FieldList, Item};
use rec_text::{Database, Element, append_field, count_of, elements_in, ends_newline, split_line};
use std::alloc::{AllocError, Global};
use std::ops::Range;

/// Appends a text with `#` before each physical line.
pub(crate) fn append_commented(out: &mut Vec<u8>, text: &[u8]) -> Result<(), AllocError>
    ensures { OnOk result (out.new.items ≡ out.old.items ++ text_of (comments_of text.now)) }
{
    let mut rest = text;
    while let Some((line, following)) = split_line(rest) {
        out.extend_from_slice(b"#")?;
        out.extend_from_slice(line)?;
        out.extend_from_slice(b"\n")?;
        rest = following;
    }
    if rest.is_empty() {
        return Ok(());
    }
    out.extend_from_slice(b"#")?;
    out.extend_from_slice(rest)
}

/// Whether an item picks none of a record's elements.
fn picks_none(item: &Item, own: &[Element]) -> bool
    ensures { result ≡ none_picked (pieces_of own.now) item.now }
{
    let count = count_of(own, item.name.as_slice());
    match item.occurrences {
        None => count == 0,
        Some(span) => count <= span.first || span.last < span.first,
    }
}

/// Appends a field for each item.
fn append_each(out: &mut Vec<u8>, items: &[Item], value: &[u8]) -> Result<(), AllocError>
    ensures { OnOk result (out.new.items ≡ out.old.items ++ text_of (fields_for value.now items.now)) }
{
    for item in items {
        append_field(out, item.name.as_slice(), value)?;
    }
    Ok(())
}

/// Appends a field for each item that picks none of a record's elements.
fn append_missing(
    out: &mut Vec<u8>,
    items: &[Item],
    value: &[u8],
    own: &[Element],
) -> Result<(), AllocError>
    ensures { OnOk result
        (out.new.items ≡ out.old.items ++ text_of (fields_lacking value.now items.now (pieces_of own.now))) }
{
    for item in items {
        if picks_none(item, own) {
            append_field(out, item.name.as_slice(), value)?;
        }
    }
    Ok(())
}

/// Appends the fields that a record with these elements gets after its last one.
fn append_added(
    out: &mut Vec<u8>,
    action: &Action,
    items: &[Item],
    own: &[Element],
) -> Result<(), AllocError>
    ensures { OnOk result (out.new.items ≡ out.old.items ++ text_of (added action.now items.now (pieces_of own.now))) }
{
    match action {
        Action::Set(_) => Ok(()),
        Action::Add(value) => append_each(out, items, value.as_slice()),
        Action::SetAdd(value) => append_missing(out, items, value.as_slice(), own),
        Action::Rename(_) => Ok(()),
        Action::Delete => Ok(()),
        Action::Comment => Ok(()),
    }
}

/// Appends a field under another name.
fn append_renamed(out: &mut Vec<u8>, name: &[u8], field: &Element) -> Result<(), AllocError>
    ensures { OnOk result (out.new.items ≡ out.old.items ++ (renamed name.now (piece_of field.now)).bytes) }
{
    out.extend_from_slice(name)?;
    out.extend_from_slice(&field.raw[field.name().len()..])
}

/// Appends what a picked field becomes.
fn append_picked(out: &mut Vec<u8>, action: &Action, field: &Element) -> Result<(), AllocError>
    ensures { OnOk result (out.new.items ≡ out.old.items ++ text_of (picked_becomes action.now (piece_of field.now))) }
{
    match action {
        Action::Set(value) => append_field(out, field.name(), value.as_slice()),
        Action::Add(_) => out.extend_from_slice(field.raw),
        Action::SetAdd(value) => append_field(out, field.name(), value.as_slice()),
        Action::Rename(name) => append_renamed(out, name.as_slice(), field),
        Action::Delete => Ok(()),
        Action::Comment => append_commented(out, field.raw),
    }
}

/// Appends what an element becomes.
fn append_becomes(
    out: &mut Vec<u8>,
    action: &Action,
    picked: bool,
    field: &Element,
) -> Result<(), AllocError>
    ensures { OnOk result
        (out.new.items ≡ out.old.items ++ text_of (becomes_if picked action.now (piece_of field.now))) }
{
    if picked {
        return append_picked(out, action, field);
    }
    out.extend_from_slice(field.raw)
}

/// Appends what an element becomes, which may lack a newline at its end.
fn append_closed(
    alloc: Global,
    out: &mut Vec<u8>,
    action: &Action,
    picked: bool,
    field: &Element,
) -> Result<(), AllocError>
    ensures { OnOk result
        (out.new.items ≡ out.old.items ++ text_of (becomes_if picked action.now (closed (piece_of field.now)))) }
{
    if ends_newline(field.raw) {
        return append_becomes(out, action, picked, field);
    }
    let mut raw = Vec::from_slice(alloc, field.raw)?;
    raw.push(b'\n')?;
    let whole = Element {
        kind: field.kind,
        at: field.at,
        raw: &raw,
    };
    append_becomes(out, action, picked, &whole)
}

/// Writes what stands instead of an element: without a newline where it lacks one, unless more comes after it.
fn write_settled(
    alloc: Global,
    new: &mut Vec<u8>,
    action: &Action,
    picked: bool,
    more: bool,
    field: &Element,
) -> Result<(), AllocError>
    ensures { OnOk result
        (new.new.items ≡ text_of (settled_if more (becomes_if picked action.now) (piece_of field.now))) }
{
    new.clear();
    append_closed(alloc, new, action, picked, field)?;
    if !more && !ends_newline(field.raw) {
        new.pop();
    }
    Ok(())
}

/// Carries out the own elements of a record. `more` says whether fields are added after them.
fn lay_fields(
    alloc: Global,
    action: &Action,
    marks: &[bool],
    more: bool,
    fields: &[Element],
    draft: &mut Draft,
) -> Result<(), AllocError>
    requires marks { length marks.now ≡ length fields.now }
    requires fits { draft.old.at + length (text_of (pieces_of fields.now)) < 2 ^ 64 }
    ensures laid { OnOk result
        (LeadsOn draft.old (own_parts more action.now marks.now (pieces_of fields.now)) draft.new) }
    ensures reached { OnOk result (draft.new.at ≡ draft.old.at + length (text_of (pieces_of fields.now))) }
{
    let mut new = Vec::new(alloc);
    for index in 0..fields.len() {
        let field = &fields[index];
        write_settled(alloc, &mut new, action, marks[index], more, field)?;
        draft.change(alloc, field.raw, &new)?;
    }
    Ok(())
}

/// What is done to the fields that a list picks of records.
#[derive(Drop)]
pub(crate) struct Setting<'s> {
    pub list: &'s FieldList,
    pub action: &'s Action,
}

impl<'s> Change for Setting<'s> {
    ghost made = { λ s _. edited s.action.now s.list.now };

    fn lay(
        &self,
        alloc: Global,
        database: &Database,
        index: usize,
        own: &Range<usize>,
        end: usize,
        draft: &mut Draft,
    ) -> Result<(), AllocError> {
        let fields = elements_in(database.elements(), own);
        let Ok(places) = self.list.picks(alloc, fields) else {
            return Err(AllocError);
        };
        let marks = marks_of(alloc, &places, fields.len())?;
        let mut added = Vec::new(alloc);
        append_added(&mut added, self.action, self.list.items(), fields)?;
        lay_fields(alloc, self.action, &marks, !added.is_empty(), fields, draft)?;
        draft.put(alloc, &added)?;
        draft.keep(database.text_in(&(own.end..end)))?;
        Ok(())
    }
}
