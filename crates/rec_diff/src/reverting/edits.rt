//! An edit and later ones.
ghost use Rattle.std.specs.Prelude.{◌≡◌, IfOk};
ghost use Rattle.rec_journal.specs.Revisions.{LeadsBy, joined_steps, step_lists};
ghost use Rattle.rec_diff.specs.proving.Moving.{AreTurnable, turns_after};
ghost use Rattle.rec_diff.specs.proving.Weaving.{AreTurnsBy, at_start};

use crate::composing::compose_all;
use crate::lining::turns_of;
use crate::turn::{Place, Texts, Turn};
use rec_journal::{EditStep, Hunk};
use std::alloc::{AllocError, Global};

/// An edit and those made later, by their steps, and the texts before it, after it and after all of them.
#[derive(Clone, Copy)]
pub(crate) struct Edits<'e> {
    pub steps: &'e [EditStep],
    pub before: &'e [u8],
    pub after: &'e [u8],
    pub later: &'e [&'e [EditStep]],
    pub here: &'e [u8],
}

impl<'e> Edits<'e> {
    ghost use Rattle.std.specs.Prelude.{◌≡◌, ◌++◌, List, IfOk};
    ghost use Rattle.rec_journal.specs.Revisions.{LeadsBy, joined_steps, step_lists};
    ghost use Rattle.rec_diff.specs.Changes.{Stretch};
    ghost use Rattle.rec_diff.specs.Keeping.{IsCutBy};
    ghost use Rattle.rec_diff.specs.proving.Reading.{AreTurnsOf};
    ghost use Rattle.rec_diff.specs.proving.Weaving.{AreTurnsBy};

    /// The texts before and after the edit.
    pub(crate) fn own_texts(self) -> Texts<'e>
        ensures before { result.before ≡ self.entry.before }
        ensures after { result.after ≡ self.entry.after }
    {
        Texts {
            before: self.before,
            after: self.after,
        }
    }

    /// What the edit changes.
    pub(crate) fn own_turns(self, alloc: Global) -> Result<Vec<Turn>, AllocError>
        requires { LeadsBy self.steps.now self.before.now self.after.now }
        ensures { IfOk result (λ turns.
            AreTurnsBy self.entry.steps.now self.entry.before.now self.entry.after.now turns.items) }
    {
        turns_by(alloc, &[self.steps], self.own_texts())
    }

    fn later_texts(self) -> Texts<'e>
        ensures before { result.before ≡ self.entry.after }
        ensures after { result.after ≡ self.entry.here }
    {
        Texts {
            before: self.after,
            after: self.here,
        }
    }

    /// What the later ones change.
    pub(crate) fn later_turns(self, alloc: Global) -> Result<Vec<Turn>, AllocError>
        requires { LeadsBy (joined_steps (step_lists self.later.now)) self.after.now self.here.now }
        ensures { IfOk result (λ turns. AreTurnsBy (joined_steps (step_lists self.entry.later.now))
            self.entry.after.now self.entry.here.now turns.items) }
    {
        turns_by(alloc, self.later, self.later_texts())
    }

    /// What all of them change.
    pub(crate) fn all_turns(self, alloc: Global) -> Result<Vec<Turn>, AllocError>
        requires own { LeadsBy self.steps.now self.before.now self.after.now }
        requires later { LeadsBy (joined_steps (step_lists self.later.now)) self.after.now self.here.now }
        ensures { IfOk result (λ turns.
            AreTurnsBy (self.entry.steps.now ++ joined_steps (step_lists self.entry.later.now))
            self.entry.before.now self.entry.here.now turns.items) }
    {
        let mut all = Vec::new(alloc);
        all.push(self.steps)?;
        all.extend_from_slice(self.later)?;
        let texts = Texts {
            before: self.before,
            after: self.here,
        };
        turns_by(alloc, &all, texts)
    }

    /// What the later ones change, by bytes.
    pub(crate) fn later_cuts(self, alloc: Global) -> Result<Vec<Turn>, AllocError>
        requires { LeadsBy (joined_steps (step_lists self.later.now)) self.after.now self.here.now }
        ensures { IfOk result (λ turns. (parts : List Stretch)
            × IsCutBy (joined_steps (step_lists self.entry.later.now)) self.entry.after.now self.entry.here.now parts
            × AreTurnsOf parts self.entry.after.now self.entry.here.now turns.items) }
    {
        let hunks = compose_all(alloc, self.later)?;
        cuts_of(alloc, &hunks)
    }
}

/// What edits change, in whole lines.
fn turns_by(alloc: Global, edits: &[&[EditStep]], texts: Texts) -> Result<Vec<Turn>, AllocError>
    requires { LeadsBy (joined_steps (step_lists edits.now)) texts.before.now texts.after.now }
    ensures { IfOk result (λ turns. AreTurnsBy (joined_steps (step_lists edits.now))
        texts.entry.before.now texts.entry.after.now turns.items) }
{
    let hunks = compose_all(alloc, edits)?;
    turns_of(alloc, &hunks, texts)
}

/// The turns that hunks are.
fn cuts_of(alloc: Global, hunks: &[Hunk]) -> Result<Vec<Turn>, AllocError>
    requires { AreTurnable at_start hunks.now }
    ensures { IfOk result (λ turns. turns.items ≡ turns_after at_start hunks.now) }
{
    let mut turns = Vec::with_capacity(alloc, hunks.len())?;
    let mut last = Place { old: 0, new: 0 };
    for hunk in hunks {
        let (old, new) = (hunk.old.as_slice(), hunk.new.as_slice());
        let turn = Turn::after(last, hunk.at, old.len(), new.len());
        turns.push(turn)?;
        last = turn.end;
    }
    Ok(turns)
}
