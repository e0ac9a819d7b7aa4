//! Moves through the history as far as an edit, one after another.
ghost use Rattle.std.specs.Prelude.{◌≡◌, ◌<◌, ◌^◌, List, Some, IfOk, IfSome, IsSomeAnd};
ghost use Rattle.rec_journal.specs.History.{IsRegular};
ghost use Rattle.rec_tools.specs.Home.{Call, HasFailed, left_by_all, WentOn};
ghost use Rattle.rec_tools.specs.Printouts.{Printed, IsSilence};
ghost use Rattle.rec_tools.specs.Requests.{asked_of, change_of};
ghost use Rattle.rec_tools.specs.Asked.{changing};
ghost use Rattle.rec_tools.specs.Attempts.{Answer, AttemptsAll};
ghost use Rattle.rec_tools.specs.Stands.{Stands};
ghost use Rattle.rec_tools.specs.States.{State};
ghost use Rattle.rec_tools.specs.Guarantee.{RunsAsMachine};
ghost use Rattle.rec_tools.specs.Through.{move_through, moves_through, moved_by, comes_before, leads_on, EndsThrough, IsThrough};
ghost use Rattle.rec_tools.specs.proving.Moving.{GoesThrough};
ghost use Rattle.rec_tools.specs.proving.Silently.{DoesSilently};

use crate::home::Home;
use crate::request::{Change, Reply};
use crate::response::without_texts;
use crate::runner::make_change;
use rec_journal::Direction;
use rec_text::Refusal;
use std::alloc::Global;

/// How moves through the history ended.
#[derive(Drop)]
pub struct Through {
    /// The number of the first edit that was taken back or made again, if one was.
    pub first: Option<usize>,
    /// That of the last.
    pub last: Option<usize>,
    /// The last answer: that of the last move, or the refusal of one more.
    pub answer: Result<Reply, Refusal>,
}

/// A move by the nearest edit that way, where the edit of this number lies that way too.
pub fn move_through(direction: Direction, number: usize) -> Change
    ensures { result ≡ move_through direction number }
{
    match direction {
        Direction::Forward => Change::Redo(Some(number)),
        Direction::Backward => Change::Undo(Some(number)),
    }
}

/// Moves by the nearest edit that way, where the edit of this number lies that way too.
fn move_once<H: Home>(
    alloc: Global,
    home: &mut H,
    direction: Direction,
    number: usize,
) -> Result<Reply, Refusal>
    ensures { DoesSilently H.goes home.old home.new (changing (change_of (move_through direction number))) result }
{
    let change = move_through(direction, number);
    without_texts(make_change(alloc, home, &change))
}

/// The number of the edit that was taken back or made again, if one was.
pub(crate) fn moved_by(answer: &Result<Reply, Refusal>) -> Option<usize>
    ensures moved { result ≡ moved_by answer.now }
    ensures bounded { IfSome result (λ n. n < 2 ^ 64) }
{
    match answer {
        Ok(Reply::Undone(number, _)) => Some(*number),
        Ok(Reply::Redone(number, _)) => Some(*number),
        _ => None,
    }
}

/// Whether the one edit comes before the other that way.
fn comes_before(direction: Direction, one: usize, other: usize) -> bool
    ensures { result ≡ comes_before direction one other }
{
    match direction {
        Direction::Forward => one < other,
        Direction::Backward => other < one,
    }
}

/// Whether a move is to follow the one by an edit, which came after the one by the last.
pub(crate) fn leads_on(
    direction: Direction,
    number: usize,
    last: Option<usize>,
    moved: Option<usize>,
) -> bool
    ensures { result ≡ leads_on direction number last moved }
{
    match (last, moved) {
        (None, Some(moved)) => comes_before(direction, moved, number),
        (Some(last), Some(moved)) => {
            comes_before(direction, last, moved) && comes_before(direction, moved, number)
        }
        (_, None) => false,
    }
}

/// The moves of `run_through`.
fn go_through<H: Home>(alloc: Global, home: &mut H, direction: Direction, number: usize) -> Through
    ensures { GoesThrough H.goes direction number home.old home.new result }
{
    let mut first = None;
    let mut last = None;
    loop {
        let answer = move_once(alloc, home, direction, number);
        let moved = moved_by(&answer);
        let ends = !leads_on(direction, number, last, moved);
        first = first.or(moved);
        last = moved.or(last);
        if ends {
            return Through {
                first,
                last,
                answer,
            };
        }
    }
}

/// Takes back, or makes again, the nearest edits that way as far as the edit of a number, each by a change of its own, which
/// is refused where that edit doesn't lie that way. It ends with the move by that edit, or where a change is refused. Where
/// another program has changed the history meanwhile, so that a move leads past the edit or not towards it, it ends there.
pub fn run_through<H: Home>(
    alloc: Global,
    home: &mut H,
    direction: Direction,
    number: usize,
) -> Through
    // One answer for each change, whatever fails and whoever writes between two of them, by calls of its own; nothing is
    // printed.
    ensures attempts { (answers : List Answer) × EndsThrough direction number answers result
        × (calls : List Call) × (p : Printed) × IsSilence p
        × AttemptsAll H.goes home.old home.new (moves_through direction number answers) answers calls p }

    // From contents that stand for a state, while the home tells them, a run of the machine where none of its calls fails.
    ensures guarantee { IfSome (H.contents home.old) (λ c. (s : State) → Stands c s →
        (answers : List Answer) × EndsThrough direction number answers result
        × (calls : List Call) × (p : Printed) × IsSilence p
        × WentOn H.goes H.contents c home.old calls home.new
        × (¬ HasFailed calls → (t : State)
        × RunsAsMachine asked_of c s (moves_through direction number answers) answers calls p t)) }

    // And whatever calls fail, where the journal is regular, as it then stays.
    ensures failing_stores { IfSome (H.contents home.old) (λ c. (s : State) → Stands c s → IsRegular c.journal →
        (answers : List Answer) × EndsThrough direction number answers result
        × (calls : List Call) × (p : Printed) × (t : State) × IsSilence p
        × WentOn H.goes H.contents c home.old calls home.new
        × RunsAsMachine asked_of c s (moves_through direction number answers) answers calls p t
        × IsRegular (left_by_all c calls).journal) }

    // Where the last answer is no refusal, the contents stand for the state to which the edits as far as that one lead, if it
    // lies that way.
    ensures reached { IfOk result.answer (λ reply. IfSome (H.contents home.old) (λ c. (s t : State) → Stands c s
        → IsThrough direction number s t → IsSomeAnd (H.contents home.new) (λ d. Stands d t))) }
{
    go_through(alloc, home, direction, number)
}
