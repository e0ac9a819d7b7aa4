//! The changes among four texts: with an edit and without it, with the later ones and without them.
ghost use Rattle.std.specs.Prelude.{◌≡◌, map, IfOk};
ghost use Rattle.rec_diff.specs.proving.Moved.{ahead_of};
ghost use Rattle.rec_diff.specs.proving.Moving.{AllCanMove, AreTurnable, passing, turns_after, turns_ahead};
ghost use Rattle.rec_diff.specs.proving.Weaving.{at_start, back_hunk};

use crate::reverting::standing::Back;
use crate::turn::{Place, Turn};
use std::alloc::{AllocError, Global};

/// The changes from each of four texts to the next.
#[derive(Drop)]
pub(crate) struct Woven {
    /// From the text before the edit to the one after it.
    pub change: Vec<Turn>,
    /// From there to the text here.
    pub later: Vec<Turn>,
    /// From the text here to what is left without the edit.
    pub back: Vec<Turn>,
    /// From the text before the edit to what is left.
    pub ahead: Vec<Turn>,
}

/// What takes turns back, as turns.
fn back_turns(alloc: Global, backs: &[Back<'_>]) -> Result<Vec<Turn>, AllocError>
    requires { AreTurnable at_start (map back_hunk backs.now) }
    ensures { IfOk result (λ turns. turns.items ≡ turns_after at_start (map back_hunk backs.now)) }
{
    let mut turns = Vec::with_capacity(alloc, backs.len())?;
    let mut last = Place { old: 0, new: 0 };
    for back in backs {
        let turn = Turn::after(last, back.at, back.old.len(), back.new.len());
        turns.push(turn)?;
        last = turn.end;
    }
    Ok(turns)
}

/// The edit's turns that are left, each with the one that takes it back; and where the last pair ends that was passed.
#[derive(Clone, Copy)]
struct Ahead<'w> {
    change: &'w [Turn],
    back: &'w [Turn],
    change_end: Place,
    back_end: Place,
}

impl<'w> Ahead<'w> {
    ghost use Rattle.std.specs.Prelude.{◌≡◌};
    ghost use Rattle.rec_diff.specs.proving.Moved.{ahead_of};
    ghost use Rattle.rec_diff.specs.proving.Moving.{CanMove, moved_turn, passed};

    /// Passes those that come before a later turn.
    fn pass(self, other: Turn) -> Ahead<'w>
        ensures { ahead_of result ≡ passed other (ahead_of self.entry) }
    {
        let mut ahead = self;
        while let Some((turn, change)) = ahead.change.split_first()
            && let Some((back_turn, back)) = ahead.back.split_first()
        {
            if other.end.old <= turn.start.new {
                return ahead;
            }
            ahead = Ahead {
                change,
                back,
                change_end: turn.end,
                back_end: back_turn.end,
            };
        }
        ahead
    }

    /// Where a later turn stands in the text before the edit and in what is left.
    fn moved(self, other: Turn) -> Turn
        requires { CanMove (ahead_of self) other }
        ensures { result ≡ moved_turn (ahead_of self.entry) other }
    {
        let start = Place {
            old: self.change_end.old + (other.start.old - self.change_end.new),
            new: self.back_end.new + (other.start.new - self.back_end.old),
        };
        let end = Place {
            old: start.old + (other.end.old - other.start.old),
            new: start.new + (other.end.new - other.start.new),
        };
        Turn { start, end }
    }
}

/// The later turns, from the text before the edit to what is left.
fn ahead_turns(
    alloc: Global,
    change: &[Turn],
    back: &[Turn],
    later: &[Turn],
) -> Result<Vec<Turn>, AllocError>
    requires { AllCanMove later.now (passing change.now back.now at_start at_start) }
    ensures { IfOk result (λ turns.
        turns.items ≡ turns_ahead later.now (passing change.now back.now at_start at_start)) }
{
    let mut turns = Vec::with_capacity(alloc, later.len())?;
    let start = Place { old: 0, new: 0 };
    let mut ahead = Ahead {
        change,
        back,
        change_end: start,
        back_end: start,
    };
    for other in later {
        ahead = ahead.pass(*other);
        turns.push(ahead.moved(*other))?;
    }
    Ok(turns)
}

/// The changes of an edit and later ones, with the turns that take the edit back.
pub(crate) fn weave(
    alloc: Global,
    change: Vec<Turn>,
    later: Vec<Turn>,
    backs: &[Back<'_>],
) -> Result<Woven, AllocError>
    requires back { AreTurnable at_start (map back_hunk backs.now) }
    requires ahead { AllCanMove later.items
        (passing change.items (turns_after at_start (map back_hunk backs.now)) at_start at_start) }
    ensures change { IfOk result (λ woven. woven.change.items ≡ change.items) }
    ensures later { IfOk result (λ woven. woven.later.items ≡ later.items) }
    ensures back { IfOk result (λ woven. woven.back.items ≡ turns_after at_start (map back_hunk backs.now)) }
    ensures ahead { IfOk result (λ woven. woven.ahead.items ≡ turns_ahead later.items
        (passing change.items (turns_after at_start (map back_hunk backs.now)) at_start at_start)) }
{
    let back = back_turns(alloc, backs)?;
    let ahead = ahead_turns(alloc, &change, &back, &later)?;
    Ok(Woven {
        change,
        later,
        back,
        ahead,
    })
}
