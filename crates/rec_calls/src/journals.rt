//! Calls of `rec_journal`, on a journal that was written by hand, with the digests that `sha256sum` prints.
ghost use Rattle.std.specs.Prelude.{◌≢◌, [], Ok, IfOk};
ghost use Rattle.rec_journal.specs.History.{IsOpening};

use rec_journal::{Hashed, History, Hunk, Patch, Plan, Tool, plan_edit, plan_redo, plan_undo};
use rec_text::{Bytes, Fault};
use std::alloc::Global;

/// Three records.
const ALL: &[u8] = b"A: 1\n\nB: 2\n\nC: 3\n";

/// The second of them is deleted.
const WITHOUT_B: &[u8] = b"A: 1\n\nC: 3\n";

/// The journal of that and of its undo.
const JOURNAL: &[u8] = b"%rec: RecEdit
%doc: recu journal, format 2
%key: Number

Number: 1
Kind: edit
Tool: recdel
Before: f95e734b3da4c8cf8de0ce7f1a4b5b8b9e41fd295544c7cdc62300f6cf89ea38
After: 679372bfd76bf8ed68f70ec527ce4595f05df91c5cab277a112ace73db6cbb3b
At: 6
Old: B: 2$
+ $
+ $
New: $

Number: 2
Kind: undo
Of: 1
Before: 679372bfd76bf8ed68f70ec527ce4595f05df91c5cab277a112ace73db6cbb3b
After: f95e734b3da4c8cf8de0ce7f1a4b5b8b9e41fd295544c7cdc62300f6cf89ea38

";

/// What a redo after the undo appends.
const REDO: &[u8] = b"Number: 3
Kind: redo
Of: 1
Before: f95e734b3da4c8cf8de0ce7f1a4b5b8b9e41fd295544c7cdc62300f6cf89ea38
After: 679372bfd76bf8ed68f70ec527ce4595f05df91c5cab277a112ace73db6cbb3b

";

/// The journal of the deletion, of 269 bytes, and what its undo appends.
fn parts() -> (&'static [u8], &'static [u8]) {
    JOURNAL.split_at_checked(269).unwrap_or((&[], &[]))
}

/// Whether a plan appends this to a journal, and leads to a file.
pub fn is_planned(plan: &Plan, journal: &[u8], appended: &[u8], file: &[u8]) -> bool {
    plan.journal.as_slice().strip_prefix(journal) == Some(appended) && plan.file.as_slice() == file
}

/// The hunk that takes the second record out.
fn deletion(alloc: Global) -> Result<Hunk, Fault> {
    let old = Bytes::copy_of(alloc, b"B: 2\n\n")?;
    let new = Bytes::copy_of(alloc, b"")?;
    Ok(Hunk { at: 6, old, new })
}

/// The patch that takes the second record out.
fn patch(alloc: Global) -> Result<Patch, Fault>
    ensures { IfOk result (λ patch. patch ≢ []) }
{
    let mut hunks = Vec::new(alloc);
    hunks.push(deletion(alloc)?)?;
    match Patch::new(hunks) {
        Some(patch) => Ok(patch),
        None => Err(Fault::BadUsage),
    }
}

/// `Patch::unapply`.
pub fn a_patch_leads_back(alloc: Global) -> Result<bool, Fault> {
    let before = patch(alloc)?.unapply(alloc, WITHOUT_B)?;
    Ok(before.as_slice() == ALL)
}

/// The history of a file, which is hashed first.
fn loaded(alloc: Global, file: &[u8], journal: &[u8]) -> Result<History, Fault>
    ensures { IfOk result (λ history. IsOpening file.now journal.now (Ok history)) }
{
    History::load(alloc, &Hashed::of(alloc, file)?, journal)
}

/// The plan of the deletion.
fn edited(alloc: Global) -> Result<Plan, Fault> {
    let file = Hashed::of(alloc, ALL)?;
    let history = History::load(alloc, &file, b"")?;
    let patch = patch(alloc)?;
    let text = patch.apply(alloc, ALL)?;
    plan_edit(alloc, &history, &file, b"", Tool::RecDel, patch, text)
}

/// `plan_edit`.
pub fn an_edit_is_planned(alloc: Global) -> Result<bool, Fault> {
    let (deleted, _) = parts();
    Ok(is_planned(&edited(alloc)?, b"", deleted, WITHOUT_B))
}

/// `plan_undo`.
pub fn an_undo_is_planned(alloc: Global) -> Result<bool, Fault> {
    let (deleted, undo) = parts();
    let history = loaded(alloc, WITHOUT_B, deleted)?;
    let plan = plan_undo(alloc, &history, WITHOUT_B, deleted)?;
    Ok(is_planned(&plan, deleted, undo, ALL))
}

/// `plan_redo`, and the numbers of edits that a history has.
pub fn a_redo_is_planned(alloc: Global) -> Result<bool, Fault> {
    let history = loaded(alloc, ALL, JOURNAL)?;
    if history.undos() != 0 || history.redos() != 1 || history.keep() != JOURNAL.len() {
        return Ok(false);
    }
    let plan = plan_redo(alloc, &history, ALL, JOURNAL)?;
    Ok(is_planned(&plan, JOURNAL, REDO, WITHOUT_B))
}
