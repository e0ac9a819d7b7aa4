//! Why no edit is left to redo.
use crate::about::About;
use crate::explanation::Explanation;
use itoa::Buffer;
use rec_text::{Reason, Undone};

/// Says what became of the edits that were undone: without a reason, that they were redone.
pub fn explain_redo(about: &About<'_>, reason: Option<&Reason>, said: &mut Explanation) {
    match reason {
        Some(Reason::Undone(Undone::Never)) => said.add(&[about.file, ": no edit was undone"]),
        Some(Reason::Undone(Undone::DroppedBy(number))) => say_dropped(about, *number, said),
        _ => said.add(&[about.journal, ": no edit is left to redo"]),
    }
}

fn say_dropped(about: &About<'_>, by: usize, said: &mut Explanation) {
    let mut digits = Buffer::new();
    said.add(&[
        about.file,
        ": edits that were undone were dropped by edit ",
        digits.format(by),
    ]);
    said.add(&[
        about.journal,
        ": it holds them until recu forget N --dropped",
    ]);
}
