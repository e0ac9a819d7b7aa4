//! What edits made so far, one after another.
ghost use Rattle.std.specs.Prelude.{◌≡◌, ◌++◌, OnOk};
ghost use Rattle.rec_edit.specs.Batch.{step_with, both_chosen};

use crate::answer::Edited;
use crate::outcome::Patched;
use rec_journal::{EditStep, EditSteps, Patch, Tool};
use rec_text::Bytes;
use std::alloc::{AllocError, Global};
use std::marker::Model;

/// The steps of the edits so far, the text after them, and how many records they changed and selected.
#[derive(Drop)]
pub(crate) struct Progress {
    steps: Vec<EditStep>,
    text: Bytes,
    changed: usize,
    chosen: Option<usize>,
}

impl Model for Progress {
    ghost use Rattle.rec_edit.specs.declared.answer.Edited.{Edited};

    ghost Value = { Edited };

    ghost view = { λ p. record { steps = p.steps.items; text = p.text; changed = p.changed; chosen = p.chosen } };
}

/// Appends an edit as a step, if it changes something.
fn append_step(steps: &mut Vec<EditStep>, tool: Tool, patch: Patch) -> Result<(), AllocError>
    ensures { OnOk result (steps.new.items ≡ steps.old.items ++ step_with tool patch) }
{
    if patch.hunks().is_empty() {
        return Ok(());
    }
    steps.push(EditStep { tool, patch })?;
    Ok(())
}

/// How many records two edits select, where one of them is of a selection.
fn both_chosen(one: Option<usize>, other: Option<usize>) -> Option<usize>
    ensures { result ≡ both_chosen one other }
{
    match (one, other) {
        (Some(one), Some(other)) => Some(one.saturating_add(other)),
        (Some(one), None) => Some(one),
        (None, other) => other,
    }
}

impl Progress {
    ghost use Rattle.std.specs.Prelude.{◌≡◌, OnOk};
    ghost use Rattle.rec_edit.specs.proving.Batches.{after_edit, untouched};

    /// No edit is made yet, of this text.
    pub fn start(alloc: Global, text: Bytes) -> Progress
        ensures { result ≡ untouched text }
    {
        Progress {
            steps: Vec::new(alloc),
            text,
            changed: 0,
            chosen: None,
        }
    }

    /// The text after the edits.
    pub fn text(&self) -> &[u8]
        ensures { result.now ≡ self.now.text }
    {
        self.text.as_slice()
    }

    /// Adds an edit of that text by a tool.
    pub fn add(&mut self, tool: Tool, edited: Patched) -> Result<(), AllocError>
        ensures { OnOk result (self.new ≡ after_edit self.old tool edited) }
    {
        append_step(&mut self.steps, tool, edited.patch)?;
        self.text = edited.text;
        self.changed = self.changed.saturating_add(edited.changed);
        self.chosen = both_chosen(self.chosen, edited.chosen);
        Ok(())
    }

    /// What the edits made, as one.
    pub fn finish(self) -> Edited
        ensures { result ≡ self }
    {
        Edited {
            steps: EditSteps::from_vec(self.steps),
            text: self.text,
            changed: self.changed,
            chosen: self.chosen,
        }
    }
}
