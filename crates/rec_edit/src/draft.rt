//! The patch and the text of an edit, made part by part.
ghost use Rattle.std.specs.Prelude.{◌≡◌, ◌∷◌, ◌++◌, ◌+◌, ◌==◌, ◌^◌, ◌<◌, [], List, length, OnOk, IfOk};
ghost use Rattle.rec_text.specs.Elements.{text_of};
ghost use Rattle.rec_edit.specs.Script.{Part, edited_text};
ghost use Rattle.rec_edit.specs.proving.Changes.{hunks_of, real_changes};
ghost use Rattle.rec_edit.specs.proving.Drafts.{IsDraft, IsRunHere, hunk_of, opening};

use rec_journal::{Hunk, Patch};
use rec_text::Bytes;
use std::alloc::{AllocError, Global};

/// Changes next to each other: at a place of the old text, what they take out and put in.
#[derive(Drop)]
struct Run {
    at: usize,
    old: Vec<u8>,
    new: Vec<u8>,
}

impl Run {
    ghost use Rattle.std.specs.Prelude.{◌≡◌, ◌+◌, ◌==◌, length};

    /// Whether it ends at this place.
    fn ends_at(&self, at: usize) -> bool
        ensures { result ≡ (self.now.at + length self.now.old.items == at) }
    {
        self.at <= at && at - self.at == self.old.len()
    }
}

/// Adds the hunk of a run that is ended, if it changes something.
fn add_hunk(hunks: &mut Vec<Hunk>, run: Run) -> Result<(), AllocError>
    ensures { OnOk result (hunks.new.items ≡ hunks.old.items ++ real_changes (hunk_of run ∷ [])) }
{
    if run.old == run.new {
        return Ok(());
    }
    hunks.push(Hunk {
        at: run.at,
        old: Bytes::from_vec(run.old),
        new: Bytes::from_vec(run.new),
    })?;
    Ok(())
}

/// The hunks, with that of the run that is still open.
fn all_hunks(mut hunks: Vec<Hunk>, run: Option<Run>) -> Result<Vec<Hunk>, AllocError>
    ensures { IfOk result (λ all. all.items ≡ hunks.items ++ real_changes (opening run [])) }
{
    match run {
        Some(run) => {
            add_hunk(&mut hunks, run)?;
            Ok(hunks)
        }
        None => Ok(hunks),
    }
}

/// What is done of an edit: the hunks of the runs that are ended, the run that may go on, the text so far, and the place in
/// the old text up to which it reaches.
#[derive(Drop)]
pub(crate) struct Draft {
    hunks: Vec<Hunk>,
    run: Option<Run>,
    text: Vec<u8>,
    at: usize,
}

impl Draft {
    ghost use Rattle.std.specs.Prelude.{◌≡◌, ◌∷◌, ◌++◌, ◌+◌, ◌^◌, ◌<◌, [], List, length, drop, OnOk, IfOk};
    ghost use Rattle.rec_text.specs.Elements.{Piece, text_of};
    ghost use Rattle.rec_edit.specs.Script.{Part, edited_text, old_pieces};
    ghost use Rattle.rec_edit.specs.Blocks.{put};
    ghost use Rattle.rec_edit.specs.proving.Changes.{hunks_of};
    ghost use Rattle.rec_edit.specs.proving.Drafts.{IsDraft, IsRunHere, AreKept, AreLines, LeadsOn};

    /// Nothing is done yet. The edited text is reckoned to be about as long as this.
    pub fn start(alloc: Global, len: usize) -> Result<Draft, AllocError>
        ensures { (whole : List Part) → IfOk result (λ draft. IsDraft draft whole whole) }
    {
        Ok(Draft {
            hunks: Vec::new(alloc),
            run: None,
            text: Vec::with_capacity(alloc, len)?,
            at: 0,
        })
    }

    /// How long the edited text is so far.
    pub fn len(&self) -> usize
        ensures { result ≡ length self.now.text.items }
    {
        self.text.len()
    }

    /// The edited text from a place on.
    pub fn since(&self, start: usize) -> &[u8]
        ensures { result.now ≡ drop start self.now.text.items }
    {
        match self.text.get(start..) {
            Some(text) => text,
            None => &[],
        }
    }

    /// Carries out parts whose two texts are the same.
    pub fn keep(&mut self, bytes: &[u8]) -> Result<(), AllocError>
        requires fits { self.old.at + length bytes.now < 2 ^ 64 }
        ensures carried_out { (parts : List Part) → AreKept parts → bytes.now ≡ text_of (old_pieces parts)
            → OnOk result (LeadsOn self.old parts self.new) }
        ensures reached { OnOk result (self.new.at ≡ self.old.at + length bytes.now) }
    {
        self.text.extend_from_slice(bytes)?;
        self.at += bytes.len();
        Ok(())
    }

    /// Carries out a part with these two texts.
    pub fn change(&mut self, alloc: Global, old: &[u8], new: &[u8]) -> Result<(), AllocError>
        requires fits { self.old.at + length old.now < 2 ^ 64 }
        ensures carried_out { (part : Part) → old.now ≡ text_of part.old → new.now ≡ text_of part.new
            → OnOk result (LeadsOn self.old (part ∷ []) self.new) }
        ensures reached { OnOk result (self.new.at ≡ self.old.at + length old.now) }
    {
        if old == new {
            return self.keep(old);
        }
        let mut run = self.run_here(alloc)?;
        run.old.extend_from_slice(old)?;
        run.new.extend_from_slice(new)?;
        self.run = Some(run);
        self.text.extend_from_slice(new)?;
        self.at += old.len();
        Ok(())
    }

    /// Carries out elements that are put in, if any, each of which ends in a newline.
    pub fn put(&mut self, alloc: Global, new: &[u8]) -> Result<(), AllocError>
        requires fits { self.old.at < 2 ^ 64 }
        ensures carried_out { (pieces : List Piece) → AreLines pieces → new.now ≡ text_of pieces
            → OnOk result (LeadsOn self.old (put pieces) self.new) }
        ensures reached { OnOk result (self.new.at ≡ self.old.at) }
    {
        if new.is_empty() {
            return Ok(());
        }
        self.change(alloc, b"", new)
    }

    /// The run that a change goes on with: the open one where it ends here, else an empty one, and the open one is ended.
    fn run_here(&mut self, alloc: Global) -> Result<Run, AllocError>
        ensures { IfOk result (λ run. IsRunHere self.old run self.new) }
    {
        if let Some(run) = self.run.take() {
            if run.ends_at(self.at) {
                return Ok(run);
            }
            add_hunk(&mut self.hunks, run)?;
        }
        Ok(Run {
            at: self.at,
            old: Vec::new(alloc),
            new: Vec::new(alloc),
        })
    }

    /// The patch and the text of what is done.
    pub fn finish(self) -> Result<(Patch, Bytes), AllocError>
        requires done { (whole : List Part) × IsDraft self [] whole }
        ensures { (whole : List Part) → IsDraft self [] whole
            → IfOk result (λ (patch, text). (patch ≡ hunks_of whole) × (text ≡ edited_text whole)) }
    {
        let hunks = all_hunks(self.hunks, self.run)?;
        let patch = Patch::new(hunks).unwrap();
        Ok((patch, Bytes::from_vec(self.text)))
    }
}
