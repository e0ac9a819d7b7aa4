//! One patch instead of several.
ghost use Rattle.std.specs.Prelude.{◌≡◌, ◌<◌, ◌^◌, ◌++◌, ℕ, List, length, IfOk, OnOk};
ghost use Rattle.rec_journal.specs.Revisions.{LeadsBy, joined_steps, step_lists};
ghost use Rattle.rec_diff.specs.Composing.{all_deeds, patches_of, ComposesAll};
ghost use Rattle.rec_diff.specs.proving.Runs.{steps_at, run_deeds};

mod merging;
pub(crate) mod run;
pub(crate) mod turning;

use crate::composing::merging::merge;
use crate::composing::run::{Run, runs_of};
use crate::composing::turning::hunks_of;
use rec_journal::{EditStep, Hunk};
use std::alloc::{AllocError, Global};

/// Appends the steps of an edit.
fn push_steps<'a>(all: &mut Vec<&'a EditStep>, steps: &'a [EditStep]) -> Result<(), AllocError>
    ensures { OnOk result (steps_at all.new.items ≡ steps_at all.old.items ++ steps.now) }
{
    for step in steps {
        all.push(step)?;
    }
    Ok(())
}

/// The steps of these edits, one edit after another.
fn steps_of<'a>(alloc: Global, edits: &[&'a [EditStep]]) -> Result<Vec<&'a EditStep>, AllocError>
    ensures { IfOk result (λ steps. steps_at steps.items ≡ joined_steps (step_lists edits.now)) }
{
    let mut all = Vec::new(alloc);
    for steps in edits {
        push_steps(&mut all, steps)?;
    }
    Ok(all)
}

/// What all steps do, one after another. Halves are merged, so that each run is copied as often as steps can be halved.
fn runs_of_all<'a>(alloc: Global, steps: &[&'a EditStep]) -> Result<Vec<Run<'a>>, AllocError>
    ensures { IfOk result (λ runs. run_deeds runs.items ≡ all_deeds (patches_of (steps_at steps.now))) }
{
    match steps {
        [] => Ok(Vec::new(alloc)),
        [step] => runs_of(alloc, step.patch.hunks()),
        _ => {
            let (earlier, later) = steps.split_at(steps.len() / 2);
            let one = runs_of_all(alloc, earlier)?;
            let other = runs_of_all(alloc, later)?;
            merge(alloc, &one, &other)
        }
    }
}

/// The hunks of one patch that does what the steps of these edits do, one edit after another.
pub fn compose_all(alloc: Global, edits: &[&[EditStep]]) -> Result<Vec<Hunk>, AllocError>
    requires leads { (before after : List ℕ) × (length before < 2 ^ 64)
        × LeadsBy (joined_steps (step_lists edits.now)) before after }
    ensures composed { IfOk result
        (λ patch. ComposesAll (patches_of (joined_steps (step_lists edits.now))) patch.items) }
{
    let steps = steps_of(alloc, edits)?;
    let runs = runs_of_all(alloc, &steps)?;
    hunks_of(alloc, &runs)
}

/// The hunks of one patch that does what these steps do, one after another.
pub fn compose(alloc: Global, steps: &[EditStep]) -> Result<Vec<Hunk>, AllocError>
    requires leads { (before after : List ℕ) × (length before < 2 ^ 64) × LeadsBy steps.now before after }
    ensures composed { IfOk result (λ patch. ComposesAll (patches_of steps.now) patch.items) }
{
    compose_all(alloc, &[steps])
}
