//! Hunks of runs.
ghost use Rattle.std.specs.Prelude.{◌≡◌, ◌<◌, ◌+◌, ◌^◌, ◌++◌, [], IfOk, OnOk};
ghost use Rattle.rec_diff.specs.Composing.{put_hunk as with_hunk, deed_hunks};
ghost use Rattle.rec_diff.specs.proving.Runs.{deeds_in, run_deeds, old_count};

use crate::composing::run::Run;
use rec_journal::{Bytes, Hunk};
use std::alloc::{AllocError, Global};
use std::mem;

/// Appends a hunk, unless it is empty.
fn push_hunk(hunks: &mut Vec<Hunk>, at: usize, old: Vec<u8>, new: Vec<u8>) -> Result<(), AllocError>
    ensures { OnOk result (hunks.new.items ≡ hunks.old.items ++ with_hunk at old.items new.items []) }
{
    if old.is_empty() && new.is_empty() {
        return Ok(());
    }
    hunks.push(Hunk {
        at,
        old: Bytes::from_vec(old),
        new: Bytes::from_vec(new),
    })?;
    Ok(())
}

/// The hunks so far, and the one that isn't ended yet: its place, and the bytes that were removed and added.
#[derive(Drop)]
struct Turning {
    hunks: Vec<Hunk>,
    at: usize,
    removed: Vec<u8>,
    added: Vec<u8>,
}

impl Turning {
    ghost use Rattle.std.specs.Prelude.{List};
    ghost use Rattle.rec_diff.specs.Composing.{Deed};
    ghost use Rattle.rec_diff.specs.proving.Runs.{hunks_with, reached};

    fn start(alloc: Global) -> Turning
        ensures deeds { (deeds : List Deed) → hunks_with result deeds ≡ deed_hunks deeds }
        ensures place { reached result ≡ 0 }
    {
        Turning {
            hunks: Vec::new(alloc),
            at: 0,
            removed: Vec::new(alloc),
            added: Vec::new(alloc),
        }
    }

    /// Ends the hunk, unless it is empty. After it these bytes are kept.
    fn end(&mut self, alloc: Global, kept: usize) -> Result<(), AllocError>
        requires { reached self.old + kept < 2 ^ 64 }
        ensures hunks { OnOk result (self.new.hunks.items
            ≡ self.old.hunks.items ++ with_hunk self.old.at self.old.removed.items self.old.added.items []) }
        ensures place { OnOk result (self.new.at ≡ reached self.old + kept) }
        ensures removed { OnOk result (self.new.removed.items ≡ []) }
        ensures added { OnOk result (self.new.added.items ≡ []) }
    {
        let removed = mem::replace(&mut self.removed, Vec::new(alloc));
        let added = mem::replace(&mut self.added, Vec::new(alloc));
        let at = self.at;
        self.at = at + removed.len() + kept;
        push_hunk(&mut self.hunks, at, removed, added)
    }

    /// Goes on by a run.
    fn add(&mut self, alloc: Global, run: &Run<'_>) -> Result<(), AllocError>
        requires { reached self.old + old_count (deeds_in run.now) < 2 ^ 64 }
        ensures deeds { OnOk result ((more : List Deed)
            → hunks_with self.new more ≡ hunks_with self.old (deeds_in run.now ++ more)) }
        ensures place { OnOk result (reached self.new ≡ reached self.old + old_count (deeds_in run.now)) }
    {
        match run {
            Run::Kept(count) => {
                if *count == 0 {
                    return Ok(());
                }
                self.end(alloc, *count)
            }
            Run::Removed(bytes) => self.removed.extend_from_slice(bytes),
            Run::Added(bytes) => self.added.extend_from_slice(bytes),
        }
    }
}

/// The hunks of runs: what lies between two kept bytes is one hunk.
pub(crate) fn hunks_of(alloc: Global, runs: &[Run<'_>]) -> Result<Vec<Hunk>, AllocError>
    requires { old_count (run_deeds runs.now) < 2 ^ 64 }
    ensures { IfOk result (λ hunks. hunks.items ≡ deed_hunks (run_deeds runs.now)) }
{
    let mut turning = Turning::start(alloc);
    for run in runs {
        turning.add(alloc, run)?;
    }
    turning.end(alloc, 0)?;
    let Turning { hunks, .. } = turning;
    Ok(hunks)
}
