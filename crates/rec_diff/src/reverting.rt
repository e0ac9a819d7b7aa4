//! One edit of a text, made before later ones, is taken back alone.
ghost use Rattle.std.specs.Prelude.{◌≡◌, ◌≢◌, false, ℕ, List, [], IfOk, IfErr, IsTrue, MatchOption};
ghost use Rattle.rec_text.specs.declared.fault.Fault.TheVariants.{OutOfMemory};
ghost use Rattle.rec_journal.specs.Revisions.{LeadsBy, joined_steps, step_lists};
ghost use Rattle.rec_diff.specs.Reverts.{FieldsAreKept, NewestReverts, NothingReverts, OneRevert, Reverts};
ghost use Rattle.rec_diff.specs.Reverts.{RevertsLeaveTheRest};
ghost use Rattle.rec_diff.specs.proving.Keeping.{later_steps};
ghost use Rattle.rec_diff.specs.proving.Taking.{IsTakenBack, TakenKeeps};

mod answer;
mod edits;
mod keeping;
mod making;
mod numbering;
mod reading;
mod spread;
mod standing;
mod weaving;

use crate::reverting::answer::patch_of;
use crate::reverting::edits::Edits;
use crate::reverting::keeping::keeps_places;
use crate::reverting::standing::standing_of;
use crate::reverting::weaving::{Woven, weave};
use crate::turn::Place;
use rec_journal::{EditStep, Hunk, Patch};
use rec_text::Fault;
use std::alloc::{AllocError, Global};

/// What takes an edit back, and the changes among the texts with it and without it.
#[derive(Drop)]
struct TakenBack {
    hunks: Vec<Hunk>,
    woven: Woven,
}

/// What takes an edit back; none where a later change overlaps it, or nobody knows which comes first.
fn taken_back(alloc: Global, edits: Edits<'_>) -> Result<Option<TakenBack>, AllocError>
    requires own { LeadsBy edits.steps.now edits.before.now edits.after.now }
    requires later { LeadsBy (later_steps edits) edits.after.now edits.here.now }
    ensures { IfOk result (λ answer. MatchOption answer
        (NothingReverts edits.entry.steps.now edits.entry.before.now edits.entry.after.now (later_steps edits.entry)
        edits.entry.here.now)
        (λ taken. IsTakenBack edits.entry taken.hunks.items taken.woven)) }
{
    let change = edits.own_turns(alloc)?;
    let later = edits.later_turns(alloc)?;
    let last = Place {
        old: edits.after.len(),
        new: edits.here.len(),
    };
    let Some(backs) = standing_of(alloc, edits.own_texts(), &change, &later, last)? else {
        return Ok(None);
    };
    let hunks = patch_of(alloc, &backs)?;
    let woven = weave(alloc, change, later, &backs)?;
    Ok(Some(TakenBack { hunks, woven }))
}

/// Whether a patch leaves a text that keeps its places; nothing is asked where it changes nothing.
fn is_kept(alloc: Global, edits: Edits<'_>, woven: &Woven, patch: &Patch) -> Result<bool, Fault>
    requires own { LeadsBy edits.steps.now edits.before.now edits.after.now }
    requires later { LeadsBy (later_steps edits) edits.after.now edits.here.now }
    requires taken { IsTakenBack edits patch.now woven.now }
    ensures kept { IfOk result (λ kept. IsTrue kept → patch.now ≢ []
        → (taken : IsTakenBack edits.entry patch.now woven.now) → TakenKeeps edits.entry patch.now woven.now taken) }
    ensures lost { IfOk result (λ kept. kept ≡ false → (taken : IsTakenBack edits.entry patch.now woven.now)
        → (patch.now ≢ []) × (TakenKeeps edits.entry patch.now woven.now taken → ⊥)) }
    ensures refusals { IfErr result (λ fault. fault ≡ OutOfMemory) }
{
    if patch.hunks().is_empty() {
        return Ok(true);
    }
    let left = patch.apply(alloc, edits.here)?;
    keeps_places(alloc, edits, woven, left.as_slice())
}

/// The patch that takes an edit back out of the text to which later ones led, and leaves those; none where they can't be
/// told apart, or where what is left would not keep its places.
pub fn revert(
    alloc: Global,
    steps: &[EditStep],
    before: &[u8],
    after: &[u8],
    later: &[&[EditStep]],
    here: &[u8],
) -> Result<Option<Patch>, Fault>
    requires steps { LeadsBy steps.now before.now after.now }
    requires later { LeadsBy (joined_steps (step_lists later.now)) after.now here.now }
    ensures patch { IfOk result (λ answer. MatchOption answer
        (NothingReverts steps.now before.now after.now (joined_steps (step_lists later.now)) here.now)
        (λ patch. Reverts steps.now before.now after.now (joined_steps (step_lists later.now)) here.now patch)) }
    ensures refusals { IfErr result (λ fault. fault ≡ OutOfMemory) }
{
    let edits = Edits {
        steps,
        before,
        after,
        later,
        here,
    };
    let Some(TakenBack { hunks, woven }) = taken_back(alloc, edits)? else {
        return Ok(None);
    };
    let Some(patch) = Patch::new(hunks) else {
        unreachable!()
    };
    if is_kept(alloc, edits, &woven, &patch)? {
        Ok(Some(patch))
    } else {
        Ok(None)
    }
}

/// An edit can be taken back in one way at most.
pub fn one_revert()
    ensures { OneRevert }
{}

/// What takes an edit back is a patch, and leaves the text that there would be without it.
pub fn reverts_leave_the_rest()
    ensures { RevertsLeaveTheRest }
{}

/// What keeps its places keeps fields together and records of their types, and joins no lines.
pub fn fields_are_kept()
    ensures { FieldsAreKept }
{}

/// The newest edit can be taken back wherever its texts read.
pub fn newest_reverts()
    ensures { NewestReverts }
{}
