//! Places in two texts, or in two lists.
ghost use Rattle.std.specs.Prelude.{◌≡◌, map, IfOk};
ghost use Rattle.rec_diff.specs.proving.Weaving.{turn_turned};

use std::alloc::{AllocError, Global};

/// A place in the text before, and one in the text after; or in the one of two lists, and in the other.
#[derive(Clone, Copy)]
pub struct Place {
    pub old: usize,
    pub new: usize,
}

impl Place {
    ghost use Rattle.std.specs.Prelude.{◌≡◌};
    ghost use Rattle.rec_diff.specs.proving.Weaving.{place_turned};

    fn turned(self) -> Place
        ensures { result ≡ place_turned self }
    {
        Place {
            old: self.new,
            new: self.old,
        }
    }
}

/// Whole lines of the text before, and those that the text after has in their place.
#[derive(Clone, Copy)]
pub(crate) struct Turn {
    pub start: Place,
    pub end: Place,
}

impl Turn {
    ghost use Rattle.std.specs.Prelude.{◌≡◌, ◌==◌, ◌&&◌, ◌+◌, ◌-◌, ◌^◌, ◌<◌, ◌≤◌};
    ghost use Rattle.rec_diff.specs.proving.Moving.{turn_after};
    ghost use Rattle.rec_diff.specs.proving.Weaving.{turn_turned};

    /// Whether nothing goes and nothing comes.
    pub(crate) fn is_empty(self) -> bool
        ensures { result ≡ ((self.start.old == self.end.old) && (self.start.new == self.end.new)) }
    {
        self.start.old == self.end.old && self.start.new == self.end.new
    }

    /// Whether lines go, and none come.
    pub(crate) fn takes_out(self) -> bool
        ensures { result ≡ (self.start.new == self.end.new) }
    {
        self.start.new == self.end.new
    }

    /// `goes` bytes go and `comes` bytes come, at a place of the old text, after a place of both.
    pub(crate) fn after(place: Place, at: usize, goes: usize, comes: usize) -> Turn
        requires order { place.old ≤ at }
        requires old_fits { at + goes < 2 ^ 64 }
        requires new_fits { place.new + (at - place.old) + comes < 2 ^ 64 }
        ensures { result ≡ turn_after place at goes comes }
    {
        let start = Place {
            old: at,
            new: place.new + (at - place.old),
        };
        Turn {
            start,
            end: Place {
                old: start.old + goes,
                new: start.new + comes,
            },
        }
    }

    /// The same, the other way.
    pub(crate) fn turned(self) -> Turn
        ensures { result ≡ turn_turned self }
    {
        Turn {
            start: self.start.turned(),
            end: self.end.turned(),
        }
    }
}

/// Turns, the other way.
pub(crate) fn turned(alloc: Global, turns: &[Turn]) -> Result<Vec<Turn>, AllocError>
    ensures { IfOk result (λ back. back.items ≡ map turn_turned turns.now) }
{
    let mut back = Vec::with_capacity(alloc, turns.len())?;
    for turn in turns {
        back.push(turn.turned())?;
    }
    Ok(back)
}

/// The text before and the text after.
#[derive(Clone, Copy)]
pub(crate) struct Texts<'t> {
    pub before: &'t [u8],
    pub after: &'t [u8],
}

impl<'t> Texts<'t> {
    ghost use Rattle.std.specs.Prelude.{◌≡◌, ◌≤◌, ◌+◌, length};
    ghost use Rattle.std.specs.List.{between};

    /// What goes.
    pub(crate) fn old_of(self, turn: Turn) -> &'t [u8]
        requires start { turn.start.old ≤ turn.end.old }
        requires end { turn.end.old ≤ length self.before.now }
        ensures part { result.now ≡ between turn.start.old turn.end.old self.entry.before.now }
        ensures length { length result.now + turn.start.old ≡ turn.end.old }
    {
        &self.before[turn.start.old..turn.end.old]
    }

    /// What comes.
    pub(crate) fn new_of(self, turn: Turn) -> &'t [u8]
        requires start { turn.start.new ≤ turn.end.new }
        requires end { turn.end.new ≤ length self.after.now }
        ensures part { result.now ≡ between turn.start.new turn.end.new self.entry.after.now }
        ensures length { length result.now + turn.start.new ≡ turn.end.new }
    {
        &self.after[turn.start.new..turn.end.new]
    }
}
