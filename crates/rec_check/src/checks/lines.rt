//! The lines at which elements begin.
ghost use Rattle.std.specs.Prelude.{◌≡◌, ◌<◌, ◌≤◌, ◌-◌, ◌==◌, count_by, drop, length, take};
ghost use Rattle.rec_text.specs.Ascii.{newline};
ghost use Rattle.rec_text.specs.Elements.{text_of};
ghost use Rattle.rec_text.specs.Places.{pieces_of};
ghost use Rattle.rec_check.specs.Violations.{line_at};

use memchr::memchr_iter;
use rec_text::{Database, Element};

/// How many newlines stand between two places.
fn newlines(text: &[u8], from: usize, to: usize) -> usize
    requires ordered { from ≤ to }
    requires within { to ≤ length text.now }
    ensures count { result ≡ count_by (λ b. b == newline) (take (to - from) (drop from text.now)) }
{
    memchr_iter(b'\n', &text[from..to]).count()
}

/// A walk over the elements of a text that knows at which line it stands. It counts each newline once.
#[derive(Drop)]
pub(crate) struct Lines<'d, 't> {
    database: &'d Database<'t>,
    elements: &'d [Element<'t>],
    text: &'t [u8],
    passed: usize,
    line: usize,
    ghost same: { pieces_of elements.now ≡ database.now },
    ghost whole: { text.now ≡ text_of (pieces_of elements.now) },
    ghost counted: { line ≡ line_at (pieces_of elements.now) passed },
}

impl<'d, 't> Lines<'d, 't> {
    ghost use Rattle.std.specs.Prelude.{◌≡◌, ◌<◌, ◌≤◌, length};
    ghost use Rattle.rec_text.specs.Places.{pieces_of};
    ghost use Rattle.rec_check.specs.Violations.{line_at};

    /// Begins before the first element.
    pub(crate) fn of(database: &'d Database<'t>) -> Lines<'d, 't>
        ensures pieces { pieces_of result.elements.now ≡ database.now }
        ensures passed { result.passed ≡ 0 }
    {
        Lines {
            database,
            elements: database.elements(),
            text: database.text(),
            passed: 0,
            line: 1,
        }
    }

    /// The elements of the whole text.
    pub(crate) fn elements(&self) -> &'d [Element<'t>]
        ensures { result.now ≡ self.now.elements.now }
    {
        self.elements
    }

    /// Goes on to an element, and answers the line at which it begins.
    pub(crate) fn line_of(&mut self, index: usize) -> usize
        requires forward { self.old.passed ≤ index }
        requires within { index < length self.old.elements.now }
        ensures line { result ≡ line_at (pieces_of self.old.elements.now) index }
        ensures passed { self.new.passed ≡ index }
        ensures same { self.new.elements.now ≡ self.old.elements.now }
    {
        let from = self.database.place_of(self.passed);
        let to = self.database.place_of(index);
        self.line += newlines(self.text, from, to);
        self.passed = index;
        self.line
    }
}
