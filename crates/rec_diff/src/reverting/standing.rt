//! Where the turns of a change stand once later ones were made.
ghost use Rattle.std.specs.Prelude.{◌≡◌, ◌≤◌, ◌<◌, ◌^◌, Option, Some, None, List, length, map, IfOk, MatchOption};
ghost use Rattle.rec_journal.specs.declared.patch.Hunk.{Hunk};
ghost use Rattle.rec_diff.specs.declared.turn.Place.{Place as APlace};
ghost use Rattle.rec_diff.specs.declared.turn.Turn.{Turn as ATurn};
ghost use Rattle.rec_diff.specs.proving.Turns.{AreIn};
ghost use Rattle.rec_diff.specs.proving.Weaving.{AreInStep, Passes, at_start, back_hunk, is_turn_beside, turn_order};
ghost use Rattle.rec_diff.specs.proving.Weaving.{turns_past, turns_stand};

use crate::turn::{Place, Texts, Turn};
use std::alloc::{AllocError, Global};

/// What takes a turn back: at this place of the text here the old bytes go, and the new ones come.
#[derive(Clone, Copy)]
pub(crate) struct Back<'t> {
    pub at: usize,
    pub old: &'t [u8],
    pub new: &'t [u8],
}

/// Later turns that are left, and where the last one that was passed ends: in the text between, and in the text here.
#[derive(Clone, Copy)]
struct Ahead<'o> {
    turns: &'o [Turn],
    place: Place,
}

/// Whether the change only took out where another turn puts something: which of them comes first isn't known.
fn is_beside(turn: Turn, other: Turn) -> bool
    ensures { result ≡ is_turn_beside turn other }
{
    turn.start.new == turn.end.new
        && other.start.new != other.end.new
        && (other.start.old == turn.start.new || other.end.old == turn.start.new)
}

/// Whether another turn comes before this one; none where they meet.
fn comes_before(turn: Turn, other: Turn) -> Option<bool>
    ensures { result ≡ turn_order turn other }
{
    if is_beside(turn, other) {
        return None;
    }
    if other.end.old <= turn.start.new {
        return Some(true);
    }
    if turn.end.new <= other.start.old {
        return Some(false);
    }
    None
}

/// Passes the other turns that come before this one; none where one meets it.
fn pass<'o>(ahead: Ahead<'o>, turn: Turn, last: Place) -> Option<Ahead<'o>>
    requires in_step { AreInStep last ahead.place ahead.turns.now }
    requires reached { ahead.place.old ≤ turn.start.new }
    requires order { turn.start.new ≤ turn.end.new }
    requires within { turn.end.new ≤ last.old }
    ensures { MatchOption result
        ((rest : List ATurn → APlace → Option (List Hunk))
        → turns_past turn rest ahead.entry.turns.now ahead.entry.place ≡ None)
        (λ next. Passes last turn ahead.entry next) }
{
    let mut next = ahead;
    while let Some((other, rest)) = next.turns.split_first() {
        if !comes_before(turn, *other)? {
            return Some(next);
        }
        next = Ahead {
            turns: rest,
            place: other.end,
        };
    }
    Some(next)
}

/// What takes the turns back, each where it stands in the text here; none where one meets another turn.
pub(crate) fn standing_of<'t>(
    alloc: Global,
    texts: Texts<'t>,
    turns: &[Turn],
    others: &[Turn],
    last: Place,
) -> Result<Option<Vec<Back<'t>>>, AllocError>
    requires turns { AreIn texts.before.now texts.after.now 0 0 turns.now }
    requires within { length texts.after.now ≤ last.old }
    requires others { AreInStep last at_start others.now }
    ensures { IfOk result (λ answer. MatchOption answer
        (turns_stand texts.entry.before.now texts.entry.after.now turns.now others.now at_start ≡ None)
        (λ backs. turns_stand texts.entry.before.now texts.entry.after.now turns.now others.now at_start
        ≡ Some (map back_hunk backs.items))) }
{
    let mut backs = Vec::new(alloc);
    let mut ahead = Ahead {
        turns: others,
        place: Place { old: 0, new: 0 },
    };
    for turn in turns {
        let Some(next) = pass(ahead, *turn, last) else {
            return Ok(None);
        };
        backs.push(Back {
            at: next.place.new + (turn.start.new - next.place.old),
            old: texts.new_of(*turn),
            new: texts.old_of(*turn),
        })?;
        ahead = next;
    }
    Ok(Some(backs))
}
