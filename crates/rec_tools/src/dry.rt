//! A dry run of the moves through the history as far as an edit: what each of them would change, one after another.
ghost use Rattle.std.specs.Prelude.{◌≡◌, List, [], ◌∷◌, ◌++◌, Some, IfOk, IfSome};
ghost use Rattle.rec_tools.specs.Home.{written};
ghost use Rattle.rec_tools.specs.Printouts.{Printed, WentOut};
ghost use Rattle.rec_tools.specs.Requests.{change_of};
ghost use Rattle.rec_tools.specs.Asked.{moving};
ghost use Rattle.rec_tools.specs.Outcomes.{outcome_of, reply_in};
ghost use Rattle.rec_tools.specs.Attempts.{Answer};
ghost use Rattle.rec_tools.specs.Stands.{Stands};
ghost use Rattle.rec_tools.specs.States.{State};
ghost use Rattle.rec_tools.specs.Through.{move_through, answers_of, EndsThrough, IsThrough, PreviewsThrough, PreviewSteps};
ghost use Rattle.rec_tools.specs.proving.Courses.{contents};
ghost use Rattle.rec_tools.specs.proving.Moving.{turned, GoesDry, IsDryMove};

use crate::decision::{Decision, NewFile};
use crate::home::Home;
use crate::preview::print_decision;
use crate::request::{Change, Reply};
use crate::runner::read_both;
use crate::through::{Through, leads_on, move_through, moved_by};
use rec_diff::DiffStyle;
use rec_journal::Direction;
use rec_text::{Bytes, Refusal, Sink};
use std::alloc::Global;

/// The text of a new file.
fn text_in(file: NewFile) -> Bytes
    ensures { result ≡ file.text }
{
    let NewFile { text, .. } = file;
    text
}

/// Makes a file the new one, if there is one.
fn turn(file: &mut Bytes, new: Option<NewFile>)
    ensures { file.new ≡ turned file.old new }
{
    match new {
        Some(new) => *file = text_in(new),
        None => {}
    }
}

/// Makes both contents what a decision would leave, and gives its reply.
fn leave(decision: Decision, file: &mut Bytes, journal: &mut Bytes) -> Reply
    ensures left { contents file.new journal.new
        ≡ written (contents file.old journal.old) (outcome_of decision).writes }
    ensures reply { result ≡ reply_in decision }
{
    match decision {
        Decision::Stay(reply) => reply,
        Decision::Put {
            journal: put,
            file: new,
            reply,
        } => {
            *journal = put;
            turn(file, new);
            reply
        }
        Decision::Adopt {
            journal: put,
            reply,
            ..
        } => {
            *journal = put;
            reply
        }
    }
}

/// Prints what a change would make of a file, and makes both contents what it would leave.
fn preview_on<S: Sink>(
    alloc: Global,
    file: &mut Bytes,
    journal: &mut Bytes,
    out: &mut S,
    change: &Change,
    style: &DiffStyle,
) -> Result<Reply, Refusal>
    ensures { IsDryMove S.contents S.failure_count style.now (change_of change.now)
        (contents file.old journal.old) (contents file.new journal.new) out.old out.new result }
{
    let decision = print_decision(
        alloc,
        file.as_slice(),
        journal.as_slice(),
        change,
        style,
        out,
    )?;
    Ok(leave(decision, file, journal))
}

/// The dry run of a move by the nearest edit that way, where the edit of this number lies that way too.
fn preview_once<S: Sink>(
    alloc: Global,
    file: &mut Bytes,
    journal: &mut Bytes,
    out: &mut S,
    direction: Direction,
    number: usize,
    style: &DiffStyle,
) -> Result<Reply, Refusal>
    ensures { IsDryMove S.contents S.failure_count style.now (change_of (move_through direction number))
        (contents file.old journal.old) (contents file.new journal.new) out.old out.new result }
{
    let change = move_through(direction, number);
    preview_on(alloc, file, journal, out, &change, style)
}

/// The moves of `preview_through`.
fn go_dry<S: Sink>(
    alloc: Global,
    file: &mut Bytes,
    journal: &mut Bytes,
    out: &mut S,
    direction: Direction,
    number: usize,
    style: &DiffStyle,
) -> Through
    ensures { GoesDry S.contents S.failure_count style.now direction number
        (contents file.old journal.old) (contents file.new journal.new) out.old out.new result }
{
    let mut first = None;
    let mut last = None;
    loop {
        let answer = preview_once(alloc, file, journal, out, direction, number, style);
        let moved = moved_by(&answer);
        let ends = !leads_on(direction, number, last, moved);
        first = first.or(moved);
        last = moved.or(last);
        if ends {
            return Through {
                first,
                last,
                answer,
            };
        }
    }
}

/// Prints what each of the moves would change that `run_through` makes, one after another, from both contents as they are
/// read once. Nothing is written.
pub fn preview_through<H: Home, S: Sink>(
    alloc: Global,
    home: &mut H,
    out: &mut S,
    direction: Direction,
    number: usize,
    style: &DiffStyle,
) -> Through
    // One answer for each move, as its preview has it on the contents that the moves before it would leave.
    ensures attempts { (answers : List Answer) × EndsThrough direction number answers result
        × (p : Printed) × WentOut S.contents S.failure_count out.old out.new p
        × PreviewsThrough H.goes home.old home.new style.now direction number answers p }

    // Where the last answer is no refusal, then from contents that stand for a state it is printed what each step of the
    // machine changes on the way to that edit, if it lies that way.
    ensures previewed { IfOk result.answer (λ reply. IfSome (H.contents home.old) (λ c. (s t : State) → Stands c s
        → (through : IsThrough direction number s t)
        → (p : Printed) × WentOut S.contents S.failure_count out.old out.new p
        × PreviewSteps style.now s (moving direction (Some number))
        (answers_of direction (through.nearer ++ through.entry ∷ [])) p.text t)) }

    ensures looks { IfSome (H.contents home.old) (λ c. H.contents home.new ≡ Some c) }
{
    match read_both(alloc, home) {
        Ok((mut file, mut journal)) => go_dry(
            alloc,
            &mut file,
            &mut journal,
            out,
            direction,
            number,
            style,
        ),
        Err(fault) => Through {
            first: None,
            last: None,
            answer: Err(Refusal::from(fault)),
        },
    }
}
