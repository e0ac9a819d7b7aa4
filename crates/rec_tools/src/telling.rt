//! What a refusal is about that the history can tell.
ghost use Rattle.std.specs.Prelude.{◌≡◌};

use rec_journal::{Direction, History, Step};
use rec_text::{Fault, Outside, Reason, Refusal, Run, Undone};
use std::alloc::{AllocError, Global};
use std::str;

/// The refusal of a move on a history, which a journal holds.
pub(crate) fn refused_move(
    alloc: Global,
    history: &History,
    journal: &[u8],
    way: Direction,
    fault: Fault,
) -> Refusal
    ensures { result ≡ fault }
{
    match &fault {
        Fault::NothingToRedo => {
            let events = journal.get(..history.keep()).unwrap_or(journal);
            let reason = undone_by(events).map(|undone| Reason::Undone(undone));
            Refusal::from(fault).about(alloc, reason)
        }
        _ => refused_on(alloc, history, Some(way), fault),
    }
}

/// What became of the edits that were undone, by events of a journal; none where they were redone. In events the lines of a text
/// begin with `+`, save its first, which stands after the name of a field.
fn undone_by(events: &[u8]) -> Option<Undone> {
    let mut undone = Some(Undone::Never);
    let mut left: usize = 0;
    let mut number = 0;
    for line in events.split(|byte| *byte == b'\n') {
        if let Some(digits) = line.strip_prefix(b"Number: ") {
            number = number_of(digits);
        } else if line == b"Kind: undo".as_slice() {
            left = left.saturating_add(1);
            undone = None;
        } else if line == b"Kind: redo".as_slice() {
            left = left.saturating_sub(1);
        } else if left > 0 && line.starts_with(b"Kind: ") {
            left = 0;
            undone = Some(Undone::DroppedBy(number));
        }
    }
    undone
}

fn number_of(digits: &[u8]) -> usize {
    match str::from_utf8(digits) {
        Ok(digits) => digits.parse().unwrap_or(0),
        Err(_) => 0,
    }
}

/// The refusal of a request on a history that can name the edits which lie that way, or any edit where no way is given.
pub(crate) fn refused_on(
    alloc: Global,
    history: &History,
    way: Option<Direction>,
    fault: Fault,
) -> Refusal
    ensures { result ≡ fault }
{
    let reason = match &fault {
        Fault::NoSuchEdit => numbers_on(alloc, history, way).ok(),
        Fault::Drifted => Some(Reason::Outside(changed(history))),
        _ => None,
    };
    Refusal::from(fault).about(alloc, reason)
}

/// What was changed outside, where the edits of a history don't lead to the file or from it.
fn changed(history: &History) -> Outside {
    if history.is_drifted() {
        Outside::File
    } else {
        Outside::Journal
    }
}

/// The numbers of the edits that can be named, in runs. In a history they ascend.
fn numbers_on(
    alloc: Global,
    history: &History,
    way: Option<Direction>,
) -> Result<Reason, AllocError> {
    let mut runs = Vec::new(alloc);
    for step in history.steps() {
        if lies(way, step) {
            add_number(&mut runs, step.number)?;
        }
    }
    Ok(Reason::Edits(runs))
}

fn lies(way: Option<Direction>, step: Step) -> bool {
    match way {
        None => true,
        Some(Direction::Backward) => step.done,
        Some(Direction::Forward) => !step.done,
    }
}

fn add_number(runs: &mut Vec<Run>, number: usize) -> Result<(), AllocError> {
    if let Some(run) = runs.last_mut()
        && run.last.checked_add(1) == Some(number)
    {
        run.last = number;
        return Ok(());
    }
    runs.push(Run {
        first: number,
        last: number,
    })?;
    Ok(())
}
