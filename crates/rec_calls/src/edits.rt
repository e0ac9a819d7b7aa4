//! Calls of `rec_edit`, and the plan of a batch.
ghost use Rattle.std.specs.Prelude.{IfOk};
ghost use Rattle.rec_journal.specs.Revisions.{LeadsBy, AreDone};

use crate::journals::is_planned;
use crate::log::are;
use rec_edit::{Edit, Edited, RecFile, batch, edit, edited};
use rec_journal::{Hashed, History, Plan, plan_batch};
use rec_select::{By, Selection};
use rec_sex::IndexList;
use rec_text::Fault;
use std::alloc::Global;

/// Two records.
const BOTH: &[u8] = b"A: 1\n\nB: 2\n";

/// The first record.
fn first(alloc: Global) -> Result<Selection, Fault> {
    let by = By::Index(IndexList::parse(alloc, b"0")?);
    Ok(Selection { kind: None, by })
}

/// `edit`, which deletes the first record.
pub fn an_edit_is_made(alloc: Global) -> Result<bool, Fault> {
    let request = Edit::Delete(first(alloc)?);
    let made = edit(alloc, RecFile::read(alloc, BOTH)?, &request, false)?;
    Ok(are(made.text.as_slice(), b"B: 2\n") && made.changed == 1)
}

/// Deletes the first record, and makes a comment of the one that is then the first.
fn edits(alloc: Global) -> Result<Vec<Edit<'static>>, Fault> {
    let mut edits = Vec::new(alloc);
    edits.push(Edit::Delete(first(alloc)?))?;
    edits.push(Edit::CommentOut(first(alloc)?))?;
    Ok(edits)
}

/// `batch`.
pub fn a_batch_is_made(alloc: Global) -> Result<bool, Fault> {
    let edits = edits(alloc)?;
    let made = batch(alloc, RecFile::read(alloc, BOTH)?, &edits, false)?;
    Ok(are(made.text.as_slice(), b"#B: 2\n") && made.changed == 2)
}

/// The journal of that, with the digests that `sha256sum` prints.
const JOURNAL: &[u8] = b"%rec: RecEdit
%doc: recu journal, format 2
%key: Number

Number: 1
Kind: batch
Before: 630061d5901b9341b6e7f735c235c4a777aee0ecd43e0b79122e7f42640bb1c1
After: 1ae23217819a99e275278ff5e9b8515c3ef5a70da18a0cfc0b24d0a8f9a8c039
Step: recdel
At: 0
Old: A: 1$
+ $
+ $
New: $
Step: recdel
At: 0
Old: B: 2$
+ $
New: #B: 2$
+ $

";

/// What the edits make of the two records.
fn made(alloc: Global) -> Result<Edited, Fault>
    ensures leads { IfOk result (λ made. LeadsBy made.steps BOTH.now made.text) }
    ensures changes { IfOk result (λ made. AreDone made.steps) }
{
    let edits = edits(alloc)?;
    Ok(edited(alloc, RecFile::read(alloc, BOTH)?, &edits, false)?)
}

/// The plan of the edits.
fn planned(alloc: Global) -> Result<Plan, Fault> {
    let Edited { steps, text, .. } = made(alloc)?;
    let file = Hashed::of(alloc, BOTH)?;
    let history = History::load(alloc, &file, b"")?;
    if steps.as_slice().is_empty() {
        return Err(Fault::BadUsage);
    }
    plan_batch(alloc, &history, &file, b"", &steps, text)
}

/// `plan_batch`.
pub fn a_batch_is_planned(alloc: Global) -> Result<bool, Fault> {
    Ok(is_planned(&planned(alloc)?, b"", JOURNAL, b"#B: 2\n"))
}
