//! The records that an edit is of.
ghost use Rattle.std.specs.Prelude.{◌≡◌, Ok, Err, IfOk, IfErr, MatchResult};
ghost use Rattle.rec_text.specs.Faults.{IsMemoryOr};
ghost use Rattle.rec_edit.specs.proving.Files.{AreRemovableIn};
ghost use Rattle.rec_select.specs.Selection.{filter_of};
ghost use Rattle.rec_edit.specs.Outcome.{allowed};

use rec_check::RecFile;
use rec_select::{By, Selection, choose};
use rec_text::{Fault, Reason, Refusal};
use std::alloc::Global;

/// Refuses to take this many records without a selection, unless that is forced.
fn require_allowed(alloc: Global, by: &By, force: bool, count: usize) -> Result<(), Refusal>
    ensures { MatchResult result
        (λ _. allowed (filter_of by.now) force ≡ Ok tt)
        (λ fault. allowed (filter_of by.now) force ≡ Err fault) }
{
    match by {
        By::All if !force => {
            let reason = Some(Reason::All(count));
            Err(Refusal::from(Fault::NoSelection).about(alloc, reason))
        }
        _ => Ok(()),
    }
}

/// The indexes of the records that a selection takes, where they may be taken out.
pub(crate) fn removable_records(
    alloc: Global,
    file: &RecFile,
    selection: &Selection,
    force: bool,
) -> Result<Vec<usize>, Refusal>
    ensures found { IfOk result (λ chosen. AreRemovableIn file.now selection.now force (Ok chosen.items)) }
    ensures refused { IfErr result (λ fault.
        IsMemoryOr fault (AreRemovableIn file.now selection.now force (Err fault))) }
{
    let selected = choose(alloc, file, selection)?;
    require_allowed(alloc, &selection.by, force, selected.len())?;
    Ok(selected)
}
