//! The lines before a hunk.
ghost use Rattle.std.specs.Prelude.{◌≡◌, ◌≤◌, length};
ghost use Rattle.rec_diff.specs.proving.Headings.{IsPassed};

use crate::heading::find;
use crate::lines::newlines;
use crate::turn::{Place, Texts};

/// What is known of both texts up to a place: how many lines there are, the first field of the record, and where the
/// last line begins.
#[derive(Clone, Copy)]
pub(crate) struct Passed<'t> {
    pub place: Place,
    pub old_lines: usize,
    pub new_lines: usize,
    pub field: &'t [u8],
    pub line: usize,
}

impl<'t> Passed<'t> {
    /// At the start of both texts.
    pub(crate) fn nothing(texts: Texts<'t>) -> Passed<'t>
        ensures known { IsPassed texts.entry.before.now texts.entry.after.now result }
        ensures place { (result.place.old ≡ 0) × (result.place.new ≡ 0) }
    {
        Passed {
            place: Place { old: 0, new: 0 },
            old_lines: 0,
            new_lines: 0,
            field: &[],
            line: 0,
        }
    }

    /// At a place further on.
    pub(crate) fn on_to(self, texts: Texts<'t>, place: Place) -> Passed<'t>
        requires known { IsPassed texts.before.now texts.after.now self }
        requires old { (self.place.old ≤ place.old) × (place.old ≤ length texts.before.now) }
        requires new { (self.place.new ≤ place.new) × (place.new ≤ length texts.after.now) }
        ensures known { IsPassed texts.entry.before.now texts.entry.after.now result }
        ensures place { result.place ≡ place }
    {
        let found = find(self.field, &texts.before[self.line..place.old]);
        Passed {
            place,
            old_lines: self.old_lines + newlines(&texts.before[self.place.old..place.old]),
            new_lines: self.new_lines + newlines(&texts.after[self.place.new..place.new]),
            field: found.field,
            line: self.line + found.last_line,
        }
    }
}
