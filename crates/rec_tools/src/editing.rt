//! The edits that are asked for, and what they make of a file.
ghost use Rattle.std.specs.Prelude.{◌≡◌, ◌≢◌, ℕ, map, Result, Ok, Err, Some, IfOk, IfErr};
ghost use Rattle.rec_text.specs.declared.fault.Fault.{Fault};
ghost use Rattle.rec_text.specs.declared.fault.Fault.TheVariants.{BadPattern};
ghost use Rattle.rec_text.specs.Elements.{text_of};
ghost use Rattle.rec_text.specs.Faults.{IsMemoryOr, UnlessMemory};
ghost use Rattle.rec_journal.specs.Revisions.{LeadsBy, AreDone};
ghost use Rattle.rec_edit.specs.declared.answer.Edited.{Edited as EditedOf};
ghost use Rattle.rec_edit.specs.Task.{task_of};
ghost use Rattle.rec_edit.specs.Batch.{fault_alone};
ghost use Rattle.rec_tools.specs.Steps.{IsRefusal};
ghost use Rattle.rec_tools.specs.Requests.{IsTaskOf, AreTasks};
ghost use Rattle.rec_tools.specs.Making.{AreMade, HasNoTaskAt, AreRefusedSo};

use crate::request::EditRequest;
use crate::selecting::selection_of;
use rec_edit::{Edit, Edited, RecFile, RefusedEdit, edited};
use rec_text::{Fault, Refusal};
use std::alloc::Global;

/// The edit that is asked for, which borrows its texts. Refused where the records that are picked can't be told.
fn edit_of(alloc: Global, request: &EditRequest) -> Result<Edit<'_>, Refusal>
    ensures found { IfOk result (λ edit. IsTaskOf request.now (Ok (task_of edit))) }
    ensures refused { IfErr result (λ fault. IsMemoryOr fault (IsTaskOf request.now (Err fault))) }
    ensures refusals { IfErr result IsRefusal }
{
    Ok(match request {
        EditRequest::Insert { kind, fresh, auto } => {
            let auto = *auto;
            Edit::Insert { kind, fresh, auto }
        }
        EditRequest::Replace { pick, fresh } => {
            let selection = selection_of(alloc, pick)?;
            Edit::Replace { selection, fresh }
        }
        EditRequest::Delete(pick) => Edit::Delete(selection_of(alloc, pick)?),
        EditRequest::CommentOut(pick) => Edit::CommentOut(selection_of(alloc, pick)?),
        EditRequest::Set { pick, list, action } => {
            let selection = selection_of(alloc, pick)?;
            let list = list.as_slice();
            Edit::Set {
                selection,
                list,
                action,
            }
        }
        EditRequest::AutoFill => Edit::AutoFill,
    })
}

/// The edits that are asked for, in order. The first whose records can't be told is refused.
fn edits_of(alloc: Global, requests: &[EditRequest]) -> Result<Vec<Edit<'_>>, RefusedEdit>
    ensures found { IfOk result (λ edits. AreTasks requests.now (Ok (map task_of edits.items))) }
    ensures place { IfErr result (λ refused. IsMemoryOr refused.fault
        ((index : ℕ) × HasNoTaskAt requests.now index refused.fault × (refused.index ≡ Some index))) }
    ensures refusals { IfErr result (λ refused. IsRefusal refused.fault) }
{
    let Ok(mut edits) = Vec::with_capacity(alloc, requests.len()) else {
        return Err(RefusedEdit {
            fault: Refusal::from(Fault::OutOfMemory),
            index: None,
        });
    };
    for (index, request) in requests.iter().enumerate() {
        match edit_of(alloc, request) {
            Ok(edit) => edits.push_reserved(edit),
            Err(fault) => {
                return Err(RefusedEdit {
                    fault,
                    index: Some(index),
                });
            }
        }
    }
    Ok(edits)
}

/// What edits make of a file in turn, as one edit: all their words are read first. Without `force` the last text must keep the
/// rules of its record sets, and no edit deletes or comments out records without a selection. The elements of the file are let
/// go before any other text is read.
pub fn make(
    alloc: Global,
    file: RecFile,
    edits: &[EditRequest],
    force: bool,
) -> Result<Edited, RefusedEdit>
    ensures found { UnlessMemory (fault_alone result) (AreMade force edits.now (text_of file.entry.pieces)) }
    ensures only { (other : Result EditedOf Fault)
        → AreMade force edits.now (text_of file.entry.pieces) other → (other ≢ Err BadPattern)
        → UnlessMemory (fault_alone result) (λ answer. (answer ≢ Err BadPattern) → answer ≡ other) }

    // Which edit is refused, if one is: the first whose words can't be read comes before all that can't be made.
    ensures refusals { IfErr result (λ refused. IsRefusal refused.fault) }
    ensures place { IfErr result (λ refused. IsMemoryOr refused.fault
        (AreRefusedSo force edits.now (text_of file.entry.pieces) refused.index refused.fault)) }

    // The steps lead from the text to the last one; each has a hunk and a tool that isn't `batch`.
    ensures leads { IfOk result (λ made. LeadsBy made.steps (text_of file.entry.pieces) made.text) }
    ensures changes { IfOk result (λ made. AreDone made.steps) }
{
    let edits = edits_of(alloc, edits)?;
    edited(alloc, file, &edits, force)
}
