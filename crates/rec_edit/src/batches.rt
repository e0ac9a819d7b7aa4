//! Edits in turn, each of the text that the one before it gave. One edit is a batch of one.
ghost use Rattle.std.specs.Prelude.{◌≡◌, ◌≢◌, ◌∷◌, ◌++◌, [], ℕ, List, map, take, Result, Ok, Err, IfOk, IfErr, OnOk};
ghost use Rattle.rec_text.specs.declared.fault.Fault.{Fault};
ghost use Rattle.rec_text.specs.declared.fault.Fault.TheVariants.{BadPattern};
ghost use Rattle.rec_text.specs.Elements.{text_of};
ghost use Rattle.rec_text.specs.Faults.{IsMemoryOr, UnlessMemory};
ghost use Rattle.rec_journal.specs.Revisions.{LeadsBy, AreDone};
ghost use Rattle.rec_edit.specs.declared.answer.Edited.{Edited as EditedOf};
ghost use Rattle.rec_edit.specs.Task.{Task, task_of};
ghost use Rattle.rec_edit.specs.Outcome.{IsEditRefusal};
ghost use Rattle.rec_edit.specs.Batch.{IsEditOn, AreSteps, IsBatchOutcome, IsRefusedAt, AreRefusedAt, AreWholeSteps, HaveEffects, fault_alone};

mod progress;

use crate::answer::{Edited, RefusedEdit};
use crate::batches::progress::Progress;
use crate::outcome::{Patched, made};
use crate::request::Edit;
use crate::sound::{keep_rules, require_sound, text_before};
use rec_check::RecFile;
use rec_text::{Bytes, Fault, Refusal};
use std::alloc::Global;
use std::slice;

/// What an edit makes of a text that is read for it. The edited text may break rules.
fn made_on(alloc: Global, text: &[u8], edit: &Edit, force: bool) -> Result<Patched, Refusal>
    ensures { UnlessMemory result (IsEditOn force (task_of edit.now) text.now) }
{
    let file = RecFile::read(alloc, text)?;
    made(alloc, &file, edit, force)
}

/// What the first of some edits makes of a file, which is let go here.
fn first_made(
    alloc: Global,
    file: RecFile,
    edits: &[Edit],
    force: bool,
) -> Result<Progress, Refusal>
    ensures made { IfOk result (λ done.
        AreSteps force (take 1 (map task_of edits.now)) (text_of file.entry.pieces) (Ok done)) }
    ensures refused { IfErr result (λ fault.
        IsMemoryOr fault (IsRefusedAt force (map task_of edits.now) (text_of file.entry.pieces) 0 fault)) }
{
    let text = file.database().text();
    let Some((first, _)) = edits.split_first() else {
        return Ok(Progress::start(alloc, Bytes::copy_of(alloc, text)?));
    };
    let mut done = Progress::start(alloc, Bytes::from_vec(Vec::new(alloc)));
    done.add(first.tool(), made(alloc, &file, first, force)?)?;
    Ok(done)
}

/// One edit more.
fn take_step(alloc: Global, edit: &Edit, force: bool, done: &mut Progress) -> Result<(), Refusal>
    ensures made { (tasks : List Task) (text : List ℕ) → AreSteps force tasks text (Ok done.old)
        → OnOk result (AreSteps force (tasks ++ task_of edit.now ∷ []) text (Ok done.new)) }
    ensures refused { IfErr result (λ fault.
        IsMemoryOr fault (IsEditOn force (task_of edit.now) done.old.text (Err fault))) }
{
    let patched = made_on(alloc, done.text(), edit, force)?;
    done.add(edit.tool(), patched)?;
    Ok(())
}

/// The edits after the first one, one after another.
fn take_others(
    alloc: Global,
    edits: &[Edit],
    force: bool,
    done: &mut Progress,
) -> Result<(), RefusedEdit>
    ensures made { (text : List ℕ) → AreSteps force (take 1 (map task_of edits.now)) text (Ok done.old)
        → OnOk result (AreSteps force (map task_of edits.now) text (Ok done.new)) }
    ensures refused { (text : List ℕ) → AreSteps force (take 1 (map task_of edits.now)) text (Ok done.old)
        → IfErr result (λ refused. IsMemoryOr refused.fault
        (AreRefusedAt force (map task_of edits.now) text refused.index refused.fault)) }
{
    for index in 1..edits.len() {
        if let Err(fault) = take_step(alloc, &edits[index], force, done) {
            return Err(RefusedEdit {
                fault,
                index: Some(index),
            });
        }
    }
    Ok(())
}

/// What all edits make of a file in turn.
fn all_made(
    alloc: Global,
    file: RecFile,
    edits: &[Edit],
    force: bool,
) -> Result<Edited, RefusedEdit>
    ensures made { IfOk result (λ made.
        AreSteps force (map task_of edits.now) (text_of file.entry.pieces) (Ok made)) }
    ensures refused { IfErr result (λ refused. IsMemoryOr refused.fault
        (AreRefusedAt force (map task_of edits.now) (text_of file.entry.pieces) refused.index refused.fault)) }
{
    let mut done = match first_made(alloc, file, edits, force) {
        Ok(done) => done,
        Err(fault) => {
            return Err(RefusedEdit {
                fault,
                index: Some(0),
            });
        }
    };
    take_others(alloc, edits, force, &mut done)?;
    Ok(done.finish())
}

/// The text after all edits must keep its rules, unless that is forced.
fn outcome(alloc: Global, file: RecFile, edits: &[Edit], force: bool) -> Result<Edited, RefusedEdit>
    ensures made { IfOk result (λ made.
        IsBatchOutcome force (map task_of edits.now) (text_of file.entry.pieces) (Ok made)) }
    ensures refused { IfErr result (λ refused. IsMemoryOr refused.fault
        (AreRefusedAt force (map task_of edits.now) (text_of file.entry.pieces) refused.index refused.fault)) }
{
    let before = text_before(&file, edits);
    let is_sound = keep_rules(&file, edits, force);
    let made = all_made(alloc, file, edits, force)?;
    let text = made.text.as_slice();
    if !is_sound {
        if let Err(fault) = require_sound(alloc, before, text) {
            return Err(RefusedEdit { fault, index: None });
        }
    }
    Ok(made)
}

/// What edits make of a text, each of the text that the one before gave. Without `force` the last text must keep the rules of
/// its record sets, and no edit deletes or comments out records without a selection. The elements of the file are let go once
/// the first edit is made, before any other text is read.
pub fn edited(
    alloc: Global,
    file: RecFile,
    edits: &[Edit],
    force: bool,
) -> Result<Edited, RefusedEdit>
    ensures found { UnlessMemory (fault_alone result)
        (IsBatchOutcome force (map task_of edits.now) (text_of file.entry.pieces)) }
    ensures only { (other : Result EditedOf Fault)
        → IsBatchOutcome force (map task_of edits.now) (text_of file.entry.pieces) other → (other ≢ Err BadPattern)
        → UnlessMemory (fault_alone result) (λ answer. (answer ≢ Err BadPattern) → answer ≡ other) }

    // Which edit is refused, if one is.
    ensures refusals { IfErr result (λ refused. IsEditRefusal refused.fault) }
    ensures place { IfErr result (λ refused. IsMemoryOr refused.fault
        (AreRefusedAt force (map task_of edits.now) (text_of file.entry.pieces) refused.index refused.fault)) }

    // The steps lead from the text to the last one. Each has a hunk and a tool that isn't `batch`, takes whole elements out of
    // the text that it is of, and makes another text of it.
    ensures leads { IfOk result (λ made. LeadsBy made.steps (text_of file.entry.pieces) made.text) }
    ensures changes { IfOk result (λ made. AreDone made.steps) }
    ensures whole { IfOk result (λ made. AreWholeSteps made.steps (text_of file.entry.pieces)) }

    // What it means for the records, edit by edit.
    ensures effects { IfOk result (λ made.
        HaveEffects (map task_of edits.now) (text_of file.entry.pieces) made.text) }
{
    // These are the elements of a text.
    let _text = file.database().text();
    outcome(alloc, file, edits, force)
}

/// The same, without the place of the edit that is refused.
pub fn batch(alloc: Global, file: RecFile, edits: &[Edit], force: bool) -> Result<Edited, Fault>
    ensures found { UnlessMemory result
        (IsBatchOutcome force (map task_of edits.now) (text_of file.entry.pieces)) }
    ensures only { (other : Result EditedOf Fault)
        → IsBatchOutcome force (map task_of edits.now) (text_of file.entry.pieces) other → (other ≢ Err BadPattern)
        → UnlessMemory result (λ answer. (answer ≢ Err BadPattern) → answer ≡ other) }
    ensures refusals { IfErr result IsEditRefusal }
    ensures leads { IfOk result (λ made. LeadsBy made.steps (text_of file.entry.pieces) made.text) }
    ensures effects { IfOk result (λ made.
        HaveEffects (map task_of edits.now) (text_of file.entry.pieces) made.text) }
{
    Ok(edited(alloc, file, edits, force)?)
}

/// What one edit makes of a text.
pub fn edit(alloc: Global, file: RecFile, edit: &Edit, force: bool) -> Result<Edited, Fault>
    ensures found { UnlessMemory result
        (IsBatchOutcome force (task_of edit.now ∷ []) (text_of file.entry.pieces)) }
    ensures only { (other : Result EditedOf Fault)
        → IsBatchOutcome force (task_of edit.now ∷ []) (text_of file.entry.pieces) other → (other ≢ Err BadPattern)
        → UnlessMemory result (λ answer. (answer ≢ Err BadPattern) → answer ≡ other) }
    ensures refusals { IfErr result IsEditRefusal }
    ensures leads { IfOk result (λ made. LeadsBy made.steps (text_of file.entry.pieces) made.text) }
    ensures effects { IfOk result (λ made.
        HaveEffects (task_of edit.now ∷ []) (text_of file.entry.pieces) made.text) }
{
    batch(alloc, file, slice::from_ref(edit), force)
}
