//! The printed diff of an edit of several steps, and that of taking it back.
ghost use Rattle.std.specs.Prelude.{◌≡◌, ◌<◌, ◌^◌, ℕ, List, length, IfOk};
ghost use Rattle.rec_text.specs.Faults.{IsOkUnlessEither};
ghost use Rattle.rec_journal.specs.Direction.{that_way, Along};
ghost use Rattle.rec_journal.specs.Patch.{Splices};
ghost use Rattle.rec_journal.specs.Revisions.{LeadsBy};
ghost use Rattle.rec_select.specs.Taken.{PrintsAndCounts, Puts};
ghost use Rattle.rec_diff.specs.Diffs.{turned_hunks, IsDiff, OneDiff};

use crate::composing::compose;
use crate::printing::write_change;
use crate::style::DiffStyle;
use rec_journal::{Direction, EditStep, Hunk};
use rec_text::{Fault, Sink};
use std::alloc::{AllocError, Global};

/// The hunks that lead back.
fn turned(alloc: Global, hunks: Vec<Hunk>) -> Result<Vec<Hunk>, AllocError>
    requires leads { (before after : List ℕ) × (length before < 2 ^ 64) × (length after < 2 ^ 64)
        × Splices hunks.items before after }
    ensures { IfOk result (λ back. back.items ≡ turned_hunks hunks.items) }
{
    let mut back = Vec::with_capacity(alloc, hunks.len())?;
    let mut before = 0;
    let mut after = 0;
    for hunk in hunks {
        let Hunk { at, old, new } = hunk;
        let place = after + (at - before);
        before = at + old.as_slice().len();
        after = place + new.as_slice().len();
        back.push_reserved(Hunk {
            at: place,
            old: new,
            new: old,
        });
    }
    Ok(back)
}

/// The hunks that lead that way, of those that lead forward.
fn hunks_on(alloc: Global, direction: Direction, hunks: Vec<Hunk>) -> Result<Vec<Hunk>, AllocError>
    requires leads { (before after : List ℕ) × (length before < 2 ^ 64) × (length after < 2 ^ 64)
        × Splices hunks.items before after }
    ensures { IfOk result (λ on. on.items ≡ that_way direction (turned_hunks hunks.items) hunks.items) }
{
    match direction {
        Direction::Forward => Ok(hunks),
        Direction::Backward => turned(alloc, hunks),
    }
}

/// Writes what steps change, from the text here to the text there, as a diff: forward as they lead, and back as they are
/// taken back.
pub fn write_diff<S: Sink>(
    alloc: Global,
    out: &mut S,
    style: &DiffStyle,
    direction: Direction,
    steps: &[EditStep],
    here: &[u8],
    there: &[u8],
) -> Result<(), Fault>
    requires leads { Along direction (LeadsBy steps.now) here.now there.now }
    ensures written { PrintsAndCounts S.contents S.failure_count out.old out.new
        (Puts (IsDiff direction style.now steps.now here.now there.now)) result }
    ensures refusals { IsOkUnlessEither result Fault.OutOfMemory Fault.StoreFailed }
{
    let patch = compose(alloc, steps)?;
    let hunks = hunks_on(alloc, direction, patch)?;
    write_change(alloc, out, style, &hunks, here, there)
}

/// Steps make one diff at most.
pub fn one_diff()
    ensures { OneDiff }
{}
