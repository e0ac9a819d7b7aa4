//! What patches do, in runs.
ghost use Rattle.std.specs.Prelude.{◌≡◌, ◌≤◌, ◌-◌, ◌++◌, map, replicate, IfOk, OnOk};
ghost use Rattle.rec_journal.specs.Patch.{IsPatch};
ghost use Rattle.rec_diff.specs.Composing.{keeps, removes, adds, deeds_of};
ghost use Rattle.rec_diff.specs.proving.Runs.{run_length, deeds_in, run_deeds, CutsRun};

use rec_journal::Hunk;
use std::alloc::{AllocError, Global};

/// Bytes in a row of which a patch keeps all, removes all, or adds all.
#[derive(Clone, Copy)]
pub(crate) enum Run<'a> {
    Kept(usize),
    Removed(&'a [u8]),
    Added(&'a [u8]),
}

/// How many bytes there are.
pub(crate) fn count_of(run: &Run<'_>) -> usize
    ensures { result ≡ run_length run.now }
{
    match run {
        Run::Kept(count) => *count,
        Run::Removed(bytes) => bytes.len(),
        Run::Added(bytes) => bytes.len(),
    }
}

/// The first bytes of a run, and the others.
pub(crate) fn cut<'a>(run: &Run<'a>, at: usize) -> (Run<'a>, Run<'a>)
    requires { at ≤ run_length run.now }
    ensures { CutsRun run.now at result.0 result.1 }
{
    match run {
        Run::Kept(count) => (Run::Kept(at), Run::Kept(*count - at)),
        Run::Removed(bytes) => {
            let (first, rest) = bytes.split_at(at);
            (Run::Removed(first), Run::Removed(rest))
        }
        Run::Added(bytes) => {
            let (first, rest) = bytes.split_at(at);
            (Run::Added(first), Run::Added(rest))
        }
    }
}

/// Appends a run, unless it is empty.
pub(crate) fn push<'a>(runs: &mut Vec<Run<'a>>, run: &Run<'a>) -> Result<(), AllocError>
    ensures { OnOk result (run_deeds runs.new.items ≡ run_deeds runs.old.items ++ deeds_in run.now) }
{
    if count_of(run) > 0 {
        runs.push(*run)?;
    }
    Ok(())
}

/// Appends bytes that are kept, then some that are removed, and some that are added.
pub(crate) fn push_change<'a>(
    runs: &mut Vec<Run<'a>>,
    kept: usize,
    old: &'a [u8],
    new: &'a [u8],
) -> Result<(), AllocError>
    ensures { OnOk result (run_deeds runs.new.items
        ≡ run_deeds runs.old.items ++ (replicate kept keeps ++ (map removes old.now ++ map adds new.now))) }
{
    push(runs, &Run::Kept(kept))?;
    push(runs, &Run::Removed(old))?;
    push(runs, &Run::Added(new))
}

/// Appends what a hunk does, after bytes that are kept.
fn push_hunk<'a>(runs: &mut Vec<Run<'a>>, kept: usize, hunk: &'a Hunk) -> Result<(), AllocError>
    ensures { OnOk result (run_deeds runs.new.items
        ≡ run_deeds runs.old.items ++ (replicate kept keeps ++ (map removes hunk.now.old ++ map adds hunk.now.new))) }
{
    push_change(runs, kept, hunk.old.as_slice(), hunk.new.as_slice())
}

/// What a patch does.
pub(crate) fn runs_of<'a>(alloc: Global, hunks: &'a [Hunk]) -> Result<Vec<Run<'a>>, AllocError>
    requires { IsPatch hunks.now }
    ensures { IfOk result (λ runs. run_deeds runs.items ≡ deeds_of hunks.now) }
{
    let mut runs = Vec::new(alloc);
    let mut place: u128 = 0;
    for hunk in hunks {
        let kept = (hunk.at as u128 - place) as usize;
        push_hunk(&mut runs, kept, hunk)?;
        place = hunk.at as u128 + hunk.old.as_slice().len() as u128;
    }
    Ok(runs)
}
