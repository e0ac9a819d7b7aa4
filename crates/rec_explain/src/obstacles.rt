//! What keeps an edit from being taken back alone.
use crate::about::About;
use crate::explanation::Explanation;
use crate::notes::say;
use rec_text::Obstacle;
use rec_tools::Change;
use std::alloc::{AllocError, Global};
use std::str;

/// Says which later edit is to be reverted before an edit, or else why that one can't be reverted.
pub fn explain_obstacle(
    alloc: Global,
    about: &About<'_>,
    change: Option<&Change>,
    obstacle: &Obstacle,
    said: &mut Explanation,
) {
    if let Some(Change::Revert { number, .. }) = change {
        say(line_of(alloc, about, *number, obstacle), said);
    }
}

fn line_of(
    alloc: Global,
    about: &About<'_>,
    number: usize,
    obstacle: &Obstacle,
) -> Result<String, AllocError> {
    let About { file, journal, .. } = *about;
    match obstacle {
        Obstacle::Edit {
            number: later,
            tool,
        } => format!(in alloc;
            "{journal}: edit {later}, {}, is in the way; revert it first",
            str::from_utf8(tool.as_slice()).unwrap_or("")
        ),
        Obstacle::TakenBack(None) => {
            format!(in alloc; "{journal}: edit {number} was taken back already")
        }
        Obstacle::TakenBack(Some(by)) => format!(in alloc;
            "{journal}: edit {number} was taken back already, by edit {by}"
        ),
        Obstacle::Unread => format!(in alloc; "{file}: without edit {number} it would not read"),
        Obstacle::Inseparable => format!(in alloc;
            "{journal}: edit {number} can't be taken back alone any more; undo --through {number} takes it back with all later ones"
        ),
    }
}
