//! The rules of the record sets of an edited text.
ghost use Rattle.std.specs.Prelude.{◌≡◌, false, map, IsTrue, Ok};
ghost use Rattle.rec_text.specs.declared.fault.Fault.TheVariants.{Integrity};
ghost use Rattle.rec_text.specs.Elements.{text_of};
ghost use Rattle.rec_text.specs.Faults.{UnlessMemory};
ghost use Rattle.rec_edit.specs.declared.answer.Edited.{Edited};
ghost use Rattle.rec_edit.specs.Batch.{AreSteps};
ghost use Rattle.rec_edit.specs.Outcome.{IsSound, IsSoundUnlessForced, PutsNoDescriptorIn};
ghost use Rattle.rec_edit.specs.Task.{task_of};

use crate::request::Edit;
use rec_check::{Before, RecFile, report_of};
use rec_text::{Fault, Reason, Refusal, Violation, Violations};
use std::alloc::Global;

/// Whether no descriptor is put in: only a new record of a type may bring one.
fn puts_no_descriptor_in(edit: &Edit) -> bool
    ensures { IsTrue result → PutsNoDescriptorIn (task_of edit.now) }
{
    match edit {
        Edit::Insert { kind: Some(_), .. } => false,
        Edit::Insert { kind: None, .. } | Edit::Replace { .. } | Edit::AutoFill => true,
        Edit::Delete(_) | Edit::CommentOut(_) | Edit::Set { .. } => true,
    }
}

/// Whether the text after some edits needn't be checked. That is so where they are forced; and a text without a descriptor
/// has no rules, and most edits put none in.
pub(crate) fn keep_rules(file: &RecFile, edits: &[Edit], force: bool) -> bool
    ensures kept { IsTrue result → (made : Edited)
        → AreSteps force (map task_of edits.now) (text_of file.now.pieces) (Ok made)
        → IsSoundUnlessForced force made.text (Ok tt) }
    ensures unforced { result ≡ false → force ≡ false }
{
    if force {
        return true;
    }
    // These are the elements of a text.
    let _text = file.database().text();
    match edits {
        [edit] => puts_no_descriptor_in(edit) && file.schema().sets().len() == 1,
        _ => false,
    }
}

/// The text before some edits.
pub(crate) fn text_before<'t>(file: &RecFile<'t>, edits: &[Edit]) -> Before<'t> {
    Before {
        text: file.database().text(),
        is_in_place: edits.iter().all(|edit| edit.is_in_place()),
    }
}

/// The refusal of a file with these violations, with what they are about, and which of them stood in the text before.
fn broken(alloc: Global, before: Before<'_>, file: &RecFile, found: Vec<Violation>) -> Refusal
    ensures { result ≡ Integrity found.items }
{
    let report = report_of(alloc, Some(before), file, &found);
    let reason = report.map(|report| Reason::Report(report));
    Refusal::from(Fault::Integrity(Violations::from_vec(found))).about(alloc, reason)
}

/// Refuses a file that breaks the rules of its record sets, with all its violations. It was made of the text before.
pub fn require_rules(alloc: Global, before: Before<'_>, file: &RecFile) -> Result<(), Refusal>
    ensures { UnlessMemory result (IsSound (text_of file.now.pieces)) }
{
    // These are the elements of a text.
    let _text = file.database().text();
    let found = file.schema().violations(alloc, file.database())?;
    if !found.is_empty() {
        return Err(broken(alloc, before, file, found));
    }
    Ok(())
}

/// The same of a text that is read for it.
pub(crate) fn require_sound(alloc: Global, before: Before<'_>, text: &[u8]) -> Result<(), Refusal>
    ensures { UnlessMemory result (IsSound text.now) }
{
    let file = RecFile::read(alloc, text)?;
    require_rules(alloc, before, &file)
}
