//! The insertion of a new record.
ghost use Rattle.std.specs.Prelude.{◌≡◌, ◌++◌, ◌+◌, ◌^◌, ◌<◌, ◌≤◌, length, take, OnOk, IfOk};
ghost use Rattle.rec_text.specs.Bytes.{closed_text};
ghost use Rattle.rec_text.specs.Elements.{AreElementsOf, text_of};
ghost use Rattle.rec_check.specs.Stored.{described};
ghost use Rattle.rec_edit.specs.Blocks.{kept};
ghost use Rattle.rec_edit.specs.Rules.{fields_of};
ghost use Rattle.rec_edit.specs.proving.Drafts.{LeadsOn};
ghost use Rattle.rec_edit.specs.proving.Sites.{empty_line_before, empty_line_after, heading, Begins};

pub mod fresh;
mod site;

use crate::draft::Draft;
use crate::insertion::site::{Gap, Site, at_end, site_beside};
use crate::outcome::Patched;
use crate::request::Pair;
use rec_check::{RecFile, Schema};
use rec_text::{Bytes, Database, append_field, ends_newline};
use std::alloc::{AllocError, Global};

/// Appends the empty line before a new record, if there is one.
fn append_line_before(out: &mut Vec<u8>, gap: Gap) -> Result<(), AllocError>
    ensures { OnOk result (out.new.items ≡ out.old.items ++ text_of (empty_line_before gap)) }
{
    match gap {
        Gap::Absent => Ok(()),
        Gap::Before => out.extend_from_slice(b"\n"),
        Gap::After => Ok(()),
    }
}

/// Appends the empty line after a new record, if there is one.
fn append_line_after(out: &mut Vec<u8>, gap: Gap) -> Result<(), AllocError>
    ensures { OnOk result (out.new.items ≡ out.old.items ++ text_of (empty_line_after gap)) }
{
    match gap {
        Gap::Absent => Ok(()),
        Gap::Before => Ok(()),
        Gap::After => out.extend_from_slice(b"\n"),
    }
}

/// Appends the descriptor of a type, where one is given, and an empty line.
fn append_heading(out: &mut Vec<u8>, record_type: &Option<Bytes>) -> Result<(), AllocError>
    ensures { OnOk result (out.new.items ≡ out.old.items ++ text_of (heading record_type.now)) }
{
    match record_type {
        Some(record_type) => {
            append_field(out, b"%rec", record_type.as_slice())?;
            out.extend_from_slice(b"\n")
        }
        None => Ok(()),
    }
}

/// Appends the fields of a new record.
pub(crate) fn append_fields(out: &mut Vec<u8>, pairs: &[Pair]) -> Result<(), AllocError>
    ensures { OnOk result (out.new.items ≡ out.old.items ++ text_of (fields_of pairs.now)) }
{
    for pair in pairs {
        append_field(out, pair.name.as_slice(), pair.value.as_slice())?;
    }
    Ok(())
}

/// Finds where a new record is put, and appends what stands there before its fields: an empty line, the descriptor of a new
/// type.
fn begin(
    out: &mut Vec<u8>,
    database: &Database,
    schema: &Schema,
    record_type: &Option<Bytes>,
) -> Result<Site, AllocError>
    ensures { IfOk result (λ site.
        Begins database.now (described schema.now).sets record_type.now site out.old.items out.new.items) }
{
    let elements = database.elements();
    match site_beside(elements, database.records().as_slice(), schema, record_type) {
        Some(site) => {
            append_line_before(out, site.gap)?;
            Ok(site)
        }
        None => {
            let site = at_end(elements);
            append_line_before(out, site.gap)?;
            append_heading(out, record_type)?;
            Ok(site)
        }
    }
}

/// A text with a newline at its end.
fn closed(alloc: Global, text: &[u8]) -> Result<Vec<u8>, AllocError>
    ensures { IfOk result (λ new. new.items ≡ closed_text text.now) }
{
    let mut new = Vec::from_slice(alloc, text)?;
    if !ends_newline(text) {
        new.push(b'\n')?;
    }
    Ok(new)
}

/// Carries out the elements before an index, of which the last one gets the newline that it may lack.
fn lay_closed(
    alloc: Global,
    database: &Database,
    place: usize,
    draft: &mut Draft,
) -> Result<(), AllocError>
    requires whole { AreElementsOf database.now (text_of database.now) }
    requires within { place ≤ length database.now }
    requires fits { draft.old.at + length (text_of (take place database.now)) < 2 ^ 64 }
    ensures laid { OnOk result (LeadsOn draft.old (kept (take place database.now)) draft.new) }
    ensures reached { OnOk result (draft.new.at ≡ draft.old.at + length (text_of (take place database.now))) }
{
    if place == 0 {
        return Ok(());
    }
    let start = place - 1;
    let last = database.text_in(&(start..place));
    let new = closed(alloc, last)?;
    draft.keep(database.text_in(&(0..start)))?;
    draft.change(alloc, last, &new)?;
    Ok(())
}

/// A text that is put in before the element of an index.
#[derive(Drop)]
pub(crate) struct Insertion {
    place: usize,
    text: Vec<u8>,
}

impl Insertion {
    ghost use Rattle.std.specs.Prelude.{◌≡◌, ◌≤◌, List, length, IfOk};
    ghost use Rattle.rec_text.specs.Elements.{Piece};
    ghost use Rattle.rec_edit.specs.Outcome.{put_in};
    ghost use Rattle.rec_edit.specs.proving.Edits.{edited_by};
    ghost use Rattle.rec_edit.specs.proving.Files.{IsRecordPutIn};
    ghost use Rattle.rec_edit.specs.proving.Sites.{AreSome};

    /// A new record with these fields, before which others stand that are given as a text.
    pub fn of(
        alloc: Global,
        file: &RecFile,
        record_type: &Option<Bytes>,
        automatic: &[u8],
        pairs: &[Pair],
    ) -> Result<Insertion, AllocError>
        ensures { IfOk result (λ insertion.
            IsRecordPutIn file.now record_type.now automatic.now pairs.now insertion.place insertion.text.items) }
    {
        let mut text = Vec::new(alloc);
        let site = begin(&mut text, file.database(), file.schema(), record_type)?;
        text.extend_from_slice(automatic)?;
        append_fields(&mut text, pairs)?;
        append_line_after(&mut text, site.gap)?;
        Ok(Insertion {
            place: site.place,
            text,
        })
    }

    /// What it makes of a text.
    pub fn carried_out(&self, alloc: Global, database: &Database) -> Result<Patched, AllocError>
        requires within { self.now.place ≤ length database.now }
        requires some { (pieces : List Piece) × AreSome pieces self.now.text.items }
        ensures { (pieces : List Piece) → AreSome pieces self.now.text.items → IfOk result (λ edited.
            edited ≡ edited_by (put_in (record { place = self.now.place; new = pieces }) database.now)) }
    {
        let mut draft = Draft::start(alloc, database.text().len())?;
        lay_closed(alloc, database, self.place, &mut draft)?;
        draft.put(alloc, &self.text)?;
        draft.keep(database.text_in(&(self.place..database.elements().len())))?;
        let (patch, text) = draft.finish()?;
        Ok(Patched {
            patch,
            text,
            changed: 1,
            chosen: None,
        })
    }
}
