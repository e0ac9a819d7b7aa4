//! Which fields that an edit names aren't there, where it changes nothing.
mod names;

use crate::missing::names::{add_listed, add_names};
use crate::request::{EditRequest, Pick};
use crate::selecting::selection_of;
use rec_check::{RecFile, Set_};
use rec_edit::{Action, Edit, edit};
use rec_text::{Bytes, Database};
use std::alloc::{AllocError, Global};
use std::collections::HashSet;

/// Fields that an edit names.
#[derive(Drop)]
pub enum Missing<'e> {
    /// No record of its set has fields of these names.
    InSet(Vec<&'e [u8]>),
    /// No record that is selected has a field that its list picks.
    InSelected(&'e [u8]),
}

/// Which fields that an edit names aren't there, where it changes nothing of a text and this many records are selected. It is
/// none where they are, and where memory runs out.
pub fn missing_fields<'e>(
    alloc: Global,
    request: &'e EditRequest,
    text: &[u8],
    chosen: Option<usize>,
) -> Option<Missing<'e>> {
    let file = RecFile::read(alloc, text).ok()?;
    let (pick, list) = named_by(request)?;
    match (chosen, list) {
        (Some(0), _) => missing_of_set(alloc, &file, pick, list),
        (_, Some(list)) => {
            let has_none = have_none(alloc, file, pick, list)?;
            has_none.then_some(Missing::InSelected(list.as_slice()))
        }
        (_, None) => None,
    }
}

/// The records that an edit selects, and the list of the fields that it needs of them, where it needs some.
fn named_by(request: &EditRequest) -> Option<(&Pick, Option<&Bytes>)> {
    match request {
        EditRequest::Set { pick, list, action } if !adds(action) => Some((pick, Some(list))),
        EditRequest::Set { pick, .. }
        | EditRequest::Replace { pick, .. }
        | EditRequest::Delete(pick)
        | EditRequest::CommentOut(pick) => Some((pick, None)),
        EditRequest::Insert { .. } | EditRequest::AutoFill => None,
    }
}

/// Whether an action gives fields to records that lack them.
fn adds(action: &Action) -> bool {
    matches!(action, Action::Add(_) | Action::SetAdd(_))
}

/// The names by which records are selected, and those of a list, that no record of the set has.
fn missing_of_set<'e>(
    alloc: Global,
    file: &RecFile<'_>,
    pick: &'e Pick,
    list: Option<&'e Bytes>,
) -> Option<Missing<'e>> {
    let set = meant_set(file, pick)?;
    let mut names = Vec::new(alloc);
    add_names(&pick.by, &mut names).ok()?;
    if let Some(list) = list {
        add_listed(list.as_slice(), &mut names).ok()?;
    }
    let missing = missing_in(alloc, file, set, &names).ok()?;
    Some(Missing::InSet(missing))
}

/// The set that is meant: that of a type, or the first that isn't empty.
fn meant_set<'f>(file: &'f RecFile<'_>, pick: &Pick) -> Option<&'f Set_> {
    file.schema().sets().iter().find(|set| is_meant(set, pick))
}

fn is_meant(set: &Set_, pick: &Pick) -> bool {
    match (&pick.kind, &set.kind) {
        (None, _) => set.members.start < set.members.end,
        (Some(kind), Some(own)) => own.as_slice() == kind.as_slice(),
        (Some(_), None) => false,
    }
}

/// The names that no field of a set has, each once.
fn missing_in<'e>(
    alloc: Global,
    file: &RecFile<'_>,
    set: &Set_,
    names: &[&'e [u8]],
) -> Result<Vec<&'e [u8]>, AllocError> {
    let mut left = HashSet::new(alloc);
    for name in names {
        left.insert(*name)?;
    }
    take_out_names(file.database(), set, &mut left);
    let mut missing = Vec::new(alloc);
    for name in names {
        if left.remove(*name) {
            missing.push(*name)?;
        }
    }
    Ok(missing)
}

/// Takes out the names that fields of a set have.
fn take_out_names<'e>(database: &Database<'_>, set: &Set_, names: &mut HashSet<&'e [u8]>) {
    let records = database.records().as_slice();
    let members = records.get(set.members.start..set.members.end);
    for range in members.unwrap_or(&[]) {
        let record = database.elements().get(range.start..range.end);
        for element in record.unwrap_or(&[]) {
            if element.is_field() {
                names.remove(element.name());
            }
        }
    }
}

/// Whether no record that is selected has a field of a list, where that is known: then their deletion would change nothing.
fn have_none(alloc: Global, file: RecFile<'_>, pick: &Pick, list: &Bytes) -> Option<bool> {
    let deletion = Edit::Set {
        selection: selection_of(alloc, pick).ok()?,
        list: list.as_slice(),
        action: &Action::Delete,
    };
    let edited = edit(alloc, file, &deletion, true).ok()?;
    Some(edited.changed == 0)
}
