//! What is told of an edit that was made, or is tried, beside its reply: for people, so contracts don't see it.
use crate::batches::batch_edits;
use crate::request::{Change, EditRequest};
use crate::response::Texts;
use rec_check::{Before, added_by};
use rec_edit::NewRecord;
use rec_text::{Violation, read};
use std::alloc::Global;

/// The violations that stand in the text after a change and not in the one before, if there is memory to tell them apart.
pub fn added_violations(alloc: Global, change: &Change, texts: &Texts) -> Option<Vec<Violation>> {
    let after = texts.after.as_ref()?;
    let before = Before {
        text: texts.file.as_slice(),
        is_in_place: is_in_place(alloc, change),
    };
    added_by(alloc, before, after.as_slice())
}

/// Whether a change leaves each record in its place.
fn is_in_place(alloc: Global, change: &Change) -> bool {
    match change {
        Change::Edit { edit, .. } => keeps_places(edit),
        Change::Batch { text, .. } => match batch_edits(alloc, text.as_slice()) {
            Ok(edits) => edits.iter().all(keeps_places),
            Err(_) => false,
        },
        _ => false,
    }
}

/// Whether an edit leaves each record in its place.
fn keeps_places(edit: &EditRequest) -> bool {
    matches!(
        edit,
        EditRequest::Set { .. } | EditRequest::Replace { .. } | EditRequest::AutoFill
    )
}

/// Whether the text of an edit's new record has comments, which are left out.
pub fn leaves_comments_out(alloc: Global, edit: &EditRequest) -> bool {
    let (EditRequest::Insert { fresh, .. } | EditRequest::Replace { fresh, .. }) = edit else {
        return false;
    };
    match fresh {
        NewRecord::Text(text) => has_comments(alloc, text.as_slice()),
        NewRecord::Pairs(_) => false,
    }
}

fn has_comments(alloc: Global, text: &[u8]) -> bool {
    match read(alloc, text) {
        Ok(database) => {
            let elements = database.elements();
            elements
                .iter()
                .any(|element| !element.is_field() && !element.is_blank())
        }
        Err(_) => false,
    }
}
