//! Which edits a history has, where a request names one that it hasn't.
use crate::explanation::Explanation;
use rec_text::Run;
use rec_tools::Change;
use std::alloc::{AllocError, Global};

/// Of how many runs of numbers all are listed.
const LISTED: usize = 12;

/// Says which edits the history has of those that the change, or else a look, can name.
pub fn explain_numbers(
    alloc: Global,
    journal: &str,
    change: Option<&Change>,
    runs: &[Run],
    said: &mut Explanation,
) {
    if let Ok(edits) = edits_of(alloc, runs, change) {
        said.add(&[journal, ": ", edits.as_str()]);
    }
}

/// What is said before and after the numbers of the edits that a change, or a look, can name.
fn words_of(change: Option<&Change>) -> (&'static str, &'static str) {
    match change {
        Some(Change::Undo(_) | Change::Revert { .. }) => ("", " can be undone"),
        Some(Change::Redo(_)) => ("", " can be redone"),
        _ => ("it has ", ""),
    }
}

/// What is said of these numbers.
fn edits_of(alloc: Global, runs: &[Run], change: Option<&Change>) -> Result<String, AllocError> {
    let (before, after) = words_of(change);
    let (Some(first), Some(last)) = (runs.first(), runs.last()) else {
        return format!(in alloc; "{before}no edit{after}");
    };
    if first.first == last.last {
        return format!(in alloc; "{before}edit {}{after}", first.first);
    }
    if runs.len() > LISTED {
        return format!(in alloc;
            "{before}edits from {} to {}{after}, and not all between",
            first.first, last.last
        );
    }
    let list = list_of(alloc, runs)?;
    format!(in alloc; "{before}edits {list}{after}")
}

fn list_of(alloc: Global, runs: &[Run]) -> Result<String, AllocError> {
    let mut list = String::new(alloc);
    for (index, run) in runs.iter().enumerate() {
        if index > 0 {
            list.push_str(", ")?;
        }
        list.push_str(text_of(alloc, run)?.as_str())?;
    }
    Ok(list)
}

fn text_of(alloc: Global, run: &Run) -> Result<String, AllocError> {
    if run.first == run.last {
        format!(in alloc; "{}", run.first)
    } else {
        format!(in alloc; "{} to {}", run.first, run.last)
    }
}
