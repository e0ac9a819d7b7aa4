//! What a refusal is about.
ghost use Rattle.std.specs.Prelude.{All};
ghost use Rattle.rec_explain.specs.Lines.{AreLines, IsShown};

use crate::about::About;
use crate::batches::explain_batch;
use crate::counters::explain_counter;
use crate::descriptors::fields::explain_field;
use crate::descriptors::rules::rule_of;
use crate::edit_numbers::explain_numbers;
use crate::explanation::Explanation;
use crate::files::{
    explain_changed, explain_drift, explain_history, explain_other_text, explain_unread,
};
use crate::lines::bad_lines::{explain_bad_line, explain_open_line};
use crate::lines::line_endings::called;
use crate::obstacles::explain_obstacle;
use crate::reports::explain_violations;
use crate::requests::names::explain_name;
use crate::requests::types::{explain_deletion, explain_types};
use crate::requests::words::explain_text;
use crate::undone::explain_redo;
use rec_text::{Broken, Reason};
use rec_tools::{Change, EditRequest, Fault, Refusal, Request};
use std::alloc::Global;

/// What a refusal is about, and what can be done: lines, each with its newline. Where memory runs out, less is said.
pub fn explain(alloc: Global, about: &About<'_>, request: &Request, refusal: &Refusal) -> Vec<u8>
    ensures shown { All IsShown result.items }
    ensures whole { AreLines result.items }
{
    let mut said = Explanation::new(alloc);
    explain_refusal(alloc, about, request, refusal, &mut said);
    said.into_lines()
}

/// The change that is asked for, or that a dry run tries, which is refused for the same reasons.
pub(crate) fn change_in(request: &Request) -> Option<&Change> {
    match request {
        Request::Change(change) | Request::Preview(change, _) => Some(change),
        Request::Look(_) => None,
    }
}

fn explain_refusal(
    alloc: Global,
    about: &About<'_>,
    request: &Request,
    refusal: &Refusal,
    said: &mut Explanation,
) {
    let change = change_in(request);
    match refusal.reason() {
        Some(Reason::Edits(runs)) => explain_numbers(alloc, about.journal, change, runs, said),
        Some(Reason::Outside(outside)) => explain_drift(about, change, *outside, said),
        Some(Reason::Obstacle(obstacle)) => explain_obstacle(alloc, about, change, obstacle, said),
        _ => explain_fault(alloc, about, request, refusal, said),
    }
}

fn explain_fault(
    alloc: Global,
    about: &About<'_>,
    request: &Request,
    refusal: &Refusal,
    said: &mut Explanation,
) {
    match (refusal.fault(), change_in(request)) {
        (Fault::Integrity(violations), change) => {
            let (violations, reason) = (violations.as_slice(), refusal.reason());
            explain_violations(alloc, about, change, violations, reason, said);
        }
        (Fault::StoreFailed, _) => explain_unread(about, request, said),
        (Fault::OtherText, Some(Change::Adopt(_))) => {
            explain_other_text(about.file, about.old, refusal.reason(), said);
        }
        (Fault::OtherText, Some(Change::Write { .. })) => {
            explain_changed(about.file, about.old, said);
        }
        (Fault::NothingToRedo, _) => explain_redo(about, refusal.reason(), said),
        (_, Some(Change::Edit { edit, .. })) => explain_edit(alloc, about, edit, refusal, said),
        (_, Some(Change::Batch { text, .. })) => {
            explain_batch(alloc, about, text.as_slice(), refusal, said);
        }
        (_, Some(Change::Write { .. })) => explain_reason(alloc, &of_text(about), refusal, said),
        _ => explain_reason(alloc, about, refusal, said),
    }
}

/// The same of a text that was given as of a file.
fn of_text<'a>(about: &About<'a>) -> About<'a> {
    let path = about.text.unwrap_or("");
    About {
        file: if path == "-" { "" } else { path },
        ..*about
    }
}

/// Says what the refusal of an edit is about, which may be one of a batch.
pub(crate) fn explain_edit(
    alloc: Global,
    about: &About<'_>,
    edit: &EditRequest,
    refusal: &Refusal,
    said: &mut Explanation,
) {
    match (refusal.fault(), refusal.reason()) {
        (_, Some(Reason::All(count))) => {
            explain_deletion(called(about.file), edit, *count, said);
        }
        (_, Some(Reason::Counter { name, why })) => {
            explain_counter(about, edit, name.as_slice(), why, said);
        }
        _ => explain_reason(alloc, about, refusal, said),
    }
}

/// Says what in a request or a file a refusal is about.
pub(crate) fn explain_reason(
    alloc: Global,
    about: &About<'_>,
    refusal: &Refusal,
    said: &mut Explanation,
) {
    let (file, fault) = (called(about.file), refusal.fault());
    match (fault, refusal.reason()) {
        (_, Some(Reason::Types(types))) => explain_types(alloc, file, types, said),
        (_, Some(Reason::Text(text))) => explain_text(alloc, text, said),
        (_, Some(Reason::Name(name))) => explain_name(name.as_slice(), fault, said),
        (_, Some(Reason::NoFields)) => said.add(&[needed(about)]),
        (_, Some(Reason::NotOneRecord)) => {
            said.add(&["the text has to be one record, as it stands in a file"]);
        }
        (Fault::BadLine { line }, Some(Reason::BadLine(shown))) => {
            explain_bad_line(file, *line, shown.as_slice(), said);
        }
        (Fault::OpenLine { line }, Some(Reason::OpenLine(shown))) => {
            explain_open_line(file, *line, shown.as_slice(), said);
        }
        (_, Some(Reason::Field(field))) => explain_field(alloc, file, field, said),
        (Fault::BadPattern, None) => said.add(&[rule_of(Broken::Pattern)]),
        _ => explain_history(about, fault, said),
    }
}

/// What a new record needs: in a batch fields, else options.
fn needed(about: &About<'_>) -> &'static str {
    match about.text {
        Some(_) => "Field and Value, or Record, are needed",
        None => "-f and -v, or -r, are needed",
    }
}
