//! What is said of a command that succeeded.
ghost use Rattle.std.specs.Prelude.{All};
ghost use Rattle.rec_explain.specs.Lines.{AreLines, IsShown};

use crate::about::About;
use crate::dropped::{say_what_is_dropped, say_what_was_undone};
use crate::explanation::Explanation;
use crate::files::explain_adoption;
use crate::forced::list_violations;
use crate::refusal::change_in;
use crate::unchanged::explain_unchanged;
use rec_tools::{
    Ask, Change, EditRequest, Pick, Reply, Request, Response, Texts, Tool, added_violations,
    leaves_comments_out,
};
use std::alloc::{AllocError, Global};
use std::str;

/// What is said of a command that succeeded: always that it ended the undo of earlier edits, where it did, and which rules an
/// edit broke, where it was forced; and on a terminal what it did, or why it changed nothing, or how a history goes on from
/// which the file has drifted. Of a dry run it is said what it would do.
pub fn explain_done(
    alloc: Global,
    about: &About<'_>,
    request: &Request,
    response: &Response,
    on_terminal: bool,
) -> Vec<u8>
    ensures shown { All IsShown result.items }
    ensures whole { AreLines result.items }
{
    let mut said = Explanation::new(alloc);
    let reply = response.reply();
    let is_tried = matches!(request, Request::Preview(_, _));
    let events = events_of(response);
    say_what_is_dropped(about, reply, events, is_tried, &mut said);
    if let Some(change) = change_in(request)
        && is_forced(change)
        && let Some(texts) = response.texts()
        && let Some(added) = added_violations(alloc, change, texts)
    {
        list_violations(about.file, &added, &mut said);
    }
    if on_terminal {
        say_what_came_of_it(alloc, about, request, response, &mut said);
        say_what_was_undone(reply, events, is_tried, &mut said);
    }
    said.into_lines()
}

/// The events of the journal with the one that is added.
fn events_of(response: &Response) -> &[u8] {
    match response.texts() {
        Some(
            Texts {
                journal: Some(journal),
                ..
            },
        ) => journal.as_slice(),
        _ => &[],
    }
}

/// Whether a change may break rules of the file.
fn is_forced(change: &Change) -> bool {
    match change {
        Change::Edit { force, .. }
        | Change::Batch { force, .. }
        | Change::Revert { force, .. }
        | Change::Write { force, .. } => *force,
        _ => false,
    }
}

/// Says what a command did, or would do, or why it changed nothing.
fn say_what_came_of_it(
    alloc: Global,
    about: &About<'_>,
    request: &Request,
    response: &Response,
    said: &mut Explanation,
) {
    match (request, response.reply()) {
        (Request::Preview(tried, _), Reply::Unchanged { chosen }) => {
            explain_unchanged(alloc, about, tried, response.texts(), chosen, true, said);
        }
        (Request::Change(change), Reply::Unchanged { chosen }) => {
            explain_unchanged(alloc, about, change, response.texts(), chosen, false, said);
        }
        (Request::Preview(_, _), reply) => say(would(alloc, &reply), said),
        (_, Reply::Drifted) => explain_adoption(about.file, said),
        (_, reply) => say(done(alloc, &reply), said),
    }
    if let (Request::Change(Change::Edit { edit, .. }), Reply::Edited { .. }) = (
        request,
        response.reply(),
    ) {
        say_what_may_surprise(alloc, edit, said);
    }
}

/// Says what of an edit that was made may not have been meant.
fn say_what_may_surprise(alloc: Global, edit: &EditRequest, said: &mut Explanation) {
    if leaves_comments_out(alloc, edit) {
        said.add(&["comments of the text were left out"]);
    }
    match edit {
        EditRequest::Replace { pick, .. }
        | EditRequest::Delete(pick)
        | EditRequest::CommentOut(pick)
        | EditRequest::Set { pick, .. } => say_what_all_have(pick, said),
        EditRequest::Insert { .. } | EditRequest::AutoFill => {}
    }
}

/// Says that the records were selected by a text that all have, if they were.
fn say_what_all_have(pick: &Pick, said: &mut Explanation) {
    if let Ask::Quick(text) = &pick.by
        && text.as_slice().is_empty()
    {
        said.add(&["every record has the empty text; undo takes the edit back"]);
    }
}

/// Says a line, if it was made and is none that is empty.
pub fn say(line: Result<String, AllocError>, said: &mut Explanation) {
    if let Ok(line) = line
        && !line.is_empty()
    {
        said.add(&[line.as_str()]);
    }
}

/// What was done. Nothing is said of what only prints, and here of what changes nothing.
pub fn done(alloc: Global, reply: &Reply) -> Result<String, AllocError> {
    match reply {
        Reply::Edited {
            changed,
            number,
            ..
        } => format!(in alloc; "{changed} {} changed (edit {number})", records(*changed)),
        Reply::Undone(number, tool) => format!(in alloc;
            "undone: edit {number}, {}",
            name_of(*tool)
        ),
        Reply::Redone(number, tool) => format!(in alloc;
            "redone: edit {number}, {}",
            name_of(*tool)
        ),
        Reply::Reverted { edit, tool, number } => format!(in alloc;
            "reverted: edit {edit}, {} (edit {number})",
            name_of(*tool)
        ),
        Reply::Forgotten { older, dropped } => forgotten(alloc, *older, *dropped),
        Reply::Adopted(number) => format!(in alloc; "adopted (edit {number})"),
        Reply::Written { number, .. } => format!(in alloc; "written (edit {number})"),
        Reply::Shown | Reply::Drifted | Reply::Violated(_) | Reply::Unchanged { .. } => {
            Ok(String::new(alloc))
        }
    }
}

/// What was forgotten: edits that could be undone, and dropped ones.
fn forgotten(alloc: Global, older: usize, dropped: usize) -> Result<String, AllocError> {
    match (older, dropped) {
        (0, 0) => String::from_str(alloc, "nothing forgotten"),
        (_, 0) => format!(in alloc; "{older} {} forgotten", edits(older)),
        (0, _) => format!(in alloc; "{dropped} dropped {} forgotten", edits(dropped)),
        (_, _) => format!(in alloc;
            "{older} {} forgotten, {dropped} dropped {} forgotten",
            edits(older),
            edits(dropped)
        ),
    }
}

/// What would be done.
fn would(alloc: Global, reply: &Reply) -> Result<String, AllocError> {
    match reply {
        Reply::Edited { changed, .. } => {
            format!(in alloc; "{changed} {} would change", records(*changed))
        }
        Reply::Undone(number, tool) => {
            format!(in alloc; "it would undo edit {number}, {}", name_of(*tool))
        }
        Reply::Redone(number, tool) => {
            format!(in alloc; "it would redo edit {number}, {}", name_of(*tool))
        }
        Reply::Reverted { edit, tool, .. } => {
            format!(in alloc; "it would revert edit {edit}, {}", name_of(*tool))
        }
        Reply::Adopted(_) => String::from_str(alloc, "it would be adopted"),
        Reply::Written { .. } => String::from_str(alloc, "it would be written"),
        Reply::Shown
        | Reply::Drifted
        | Reply::Violated(_)
        | Reply::Unchanged { .. }
        | Reply::Forgotten { .. } => Ok(String::new(alloc)),
    }
}

fn edits(count: usize) -> &'static str {
    if count == 1 { "edit" } else { "edits" }
}

pub fn records(count: usize) -> &'static str {
    if count == 1 { "record" } else { "records" }
}

/// The name of a tool.
fn name_of(tool: Tool) -> &'static str {
    str::from_utf8(tool.name()).unwrap_or("")
}
