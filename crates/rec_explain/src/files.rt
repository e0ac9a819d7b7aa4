//! The file and its journal: one that isn't there or is none, and a history that has no such edit.
ghost use Rattle.std.specs.Prelude.{All};
ghost use Rattle.rec_explain.specs.Lines.{AreLines, IsShown};

use crate::about::About;
use crate::explanation::Explanation;
use crate::lines::line_endings::called;
use crate::lines::shown::plain;
use crate::refusal::change_in;
use rec_text::{Outside, Reason};
use rec_tools::{Change, EditRequest, Fault, Look, Request};
use std::alloc::Global;

/// What is said of an empty path.
const EMPTY: &str = "an empty path";

/// A line that says that a path is empty.
pub fn explain_empty(alloc: Global) -> Vec<u8>
    ensures shown { All IsShown result.items }
    ensures whole { AreLines result.items }
{
    let mut said = Explanation::new(alloc);
    said.add(&[EMPTY]);
    said.into_lines()
}

/// A line that says that the text is empty which a file was to get.
pub fn explain_no_text(alloc: Global, path: &str) -> Vec<u8>
    ensures shown { All IsShown result.items }
    ensures whole { AreLines result.items }
{
    let mut said = Explanation::new(alloc);
    said.add(&[called(if path == "-" { "" } else { path }), ": empty"]);
    said.into_lines()
}

/// Says that a path is empty, or else how a file begins, where one that is missing was to get a record.
pub fn explain_unread(about: &About<'_>, request: &Request, said: &mut Explanation) {
    if has_empty_path(about, request) {
        said.add(&[EMPTY]);
    } else {
        explain_missing(about, request, said);
    }
}

/// Whether the path of the file or of its journal is empty. So is that of standard input, which can't be missing, and that of the
/// journal where a request needs none.
fn has_empty_path(about: &About<'_>, request: &Request) -> bool {
    if about.file.is_empty() {
        about.is_missing
    } else {
        about.journal.is_empty() && !is_of_file(request)
    }
}

/// Whether a request is on the file alone.
fn is_of_file(request: &Request) -> bool {
    matches!(
        request,
        Request::Look(Look::Show { .. } | Look::Info { .. } | Look::Check)
    )
}

/// Says how a file begins, where one that is missing was to get a record.
fn explain_missing(about: &About<'_>, request: &Request, said: &mut Explanation) {
    let begins = matches!(
        change_in(request),
        Some(
            Change::Batch { .. }
                | Change::Edit {
                    edit: EditRequest::Insert { .. },
                    ..
                },
        )
    );
    if !begins || !about.is_missing {
        return;
    }
    if is_word(about.file) {
        said.add(&[
            "recu makes no file: touch ",
            about.file,
            " makes an empty one",
        ]);
    } else {
        said.add(&["recu makes no file: touch makes an empty one"]);
    }
}

/// Whether a path is one word of a shell as it stands, and no option.
fn is_word(path: &str) -> bool {
    !path.starts_with('-')
        && path.bytes().all(|byte| byte.is_ascii_alphanumeric() || b"._-/+@,:".contains(&byte))
}

/// Says what of the journal a refusal is about.
pub fn explain_history(about: &About<'_>, fault: &Fault, said: &mut Explanation) {
    let journal = about.journal;
    match fault {
        Fault::BadJournal { line } => explain_journal(about, *line, said),
        Fault::NothingToUndo => said.add(&[journal, ": no edit is left to undo"]),
        _ => {}
    }
}

/// Says what can be done with a journal that is none. One that doesn't even begin as a journal is left where it is, if
/// `--journal` names it: it may be any file.
fn explain_journal(about: &About<'_>, line: usize, said: &mut Explanation) {
    let journal = about.journal;
    if journal.strip_suffix(".journal") == Some(about.path) || line > 1 {
        return said.add(&[
            journal,
            ": move it away, and the next edit begins a new journal",
        ]);
    }
    said.add(&[
        journal,
        ": this is no journal that recu reads: --journal is to name the journal of ",
        about.file,
        ", or a path where nothing stands yet",
    ]);
}

/// Says how the history of a file that was changed outside goes on.
pub fn explain_adoption(file: &str, said: &mut Explanation) {
    said.add(&[
        file,
        ": recu adopt OLD ",
        file,
        " makes the change an edit, OLD being the text before it or any of the history",
    ]);
    said.add(&[file, ": else the next edit begins a new history"]);
}

/// Says which text the one before a change isn't, by the digest of that with which the history ends.
pub fn explain_other_text<'t>(
    file: &'t str,
    old: Option<&'t str>,
    reason: Option<&'t Reason>,
    said: &mut Explanation,
) {
    let Some(Reason::End(digest)) = reason else {
        return;
    };
    let end = plain(digest.as_slice()).unwrap_or("");
    match old {
        Some(old) => said.add(&[
            old,
            ": no text of the history of ",
            file,
            ", which ends with that of SHA-256 ",
            end,
        ]),
        None => said.add(&[
            file,
            ": give the text before the change, as recu adopt OLD ",
            file,
            "; its SHA-256 is ",
            end,
        ]),
    }
}

/// Says that a file has another text than the one that was given for it.
pub fn explain_changed(file: &str, old: Option<&str>, said: &mut Explanation) {
    if let Some(old) = old {
        said.add(&[file, ": it is no longer as ", old, " has it"]);
    }
}

/// Says what can be done where the edits no longer lead to the file or from it.
pub fn explain_drift(
    about: &About<'_>,
    change: Option<&Change>,
    outside: Outside,
    said: &mut Explanation,
) {
    match outside {
        Outside::File => explain_adoption(about.file, said),
        Outside::Journal => said.add(&[
            about.journal,
            ": a text in it was changed; move it away to go on without the history",
        ]),
    }
    if matches!(change, Some(Change::Forget { .. })) {
        said.add(&[
            about.journal,
            ": deleting this file removes all texts that it holds",
        ]);
    }
}
