//! The patch that takes a change back.
ghost use Rattle.std.specs.Prelude.{◌≡◌, ◌<◌, ◌^◌, ℕ, List, length, map, IfOk};
ghost use Rattle.rec_journal.specs.Patch.{Splices};
ghost use Rattle.rec_diff.specs.Composing.{deeds_of};
ghost use Rattle.rec_diff.specs.Reverts.{as_patch, changing as without_unchanging};
ghost use Rattle.rec_diff.specs.proving.Runs.{run_deeds};
ghost use Rattle.rec_diff.specs.proving.Weaving.{back_hunk};

use crate::composing::run::{Run, push_change};
use crate::composing::turning::hunks_of;
use crate::reverting::standing::Back;
use rec_journal::Hunk;
use std::alloc::{AllocError, Global};

/// What is done to the text here.
fn runs_back<'t>(alloc: Global, backs: &[Back<'t>]) -> Result<Vec<Run<'t>>, AllocError>
    requires leads { (here left : List ℕ) × (length here < 2 ^ 64) × Splices (map back_hunk backs.now) here left }
    ensures { IfOk result (λ runs. run_deeds runs.items ≡ deeds_of (map back_hunk backs.now)) }
{
    let mut runs = Vec::new(alloc);
    let mut place = 0;
    for back in backs {
        push_change(&mut runs, back.at - place, back.old, back.new)?;
        place = back.at + back.old.len();
    }
    Ok(runs)
}

/// The hunks that change something.
fn changing(alloc: Global, hunks: Vec<Hunk>) -> Result<Vec<Hunk>, AllocError>
    ensures { IfOk result (λ left. left.items ≡ without_unchanging hunks.items) }
{
    let mut left = Vec::new(alloc);
    for hunk in hunks {
        if hunk.old.as_slice() != hunk.new.as_slice() {
            left.push(hunk)?;
        }
    }
    Ok(left)
}

/// The patch that takes turns back.
pub(crate) fn patch_of(alloc: Global, backs: &[Back<'_>]) -> Result<Vec<Hunk>, AllocError>
    requires leads { (here left : List ℕ) × (length here < 2 ^ 64) × Splices (map back_hunk backs.now) here left }
    ensures { IfOk result (λ hunks. hunks.items ≡ as_patch (map back_hunk backs.now)) }
{
    let runs = runs_back(alloc, backs)?;
    let hunks = hunks_of(alloc, &runs)?;
    changing(alloc, hunks)
}
