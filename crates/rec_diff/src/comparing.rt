//! Two texts compared: the hunks by which one becomes the other.
ghost use Rattle.std.specs.Prelude.{◌≡◌, ◌≤◌, ◌+◌, ◌-◌, [], map, length, IfOk, OnOk};
ghost use Rattle.std.specs.List.{between};
ghost use Rattle.rec_diff.specs.Changes.{hunks_at};
ghost use Rattle.rec_diff.specs.Comparing.{step_between, hunks_between as hunks_of, longest_from, landmarks, parts_between};
ghost use Rattle.rec_diff.specs.WholeLines.{same_start as start_of_both, same_end as end_of_both, whole_lines};
ghost use Rattle.rec_diff.specs.proving.Cutting.{AreCuts, IsInner, ArePassed, hunk_at};
ghost use Rattle.rec_diff.specs.proving.Passages.{origin};
ghost use Rattle.rec_diff.specs.proving.Turns.{AreIn, IsIn, IsLining, site_of, sites};

pub mod choosing;
pub mod landmarks;

use crate::comparing::choosing::longest;
use crate::comparing::landmarks::landmarks_between;
use crate::lines::{first_lines, same_end, same_start};
use crate::lining::Lining;
use crate::turn::{Place, Texts, Turn};
use rec_journal::{Bytes, EditSteps, Hunk, Patch, Tool};
use std::alloc::{AllocError, Global};

/// The texts without these many bytes at their start, and these many at their end.
fn inner_texts<'t>(texts: Texts<'t>, first: usize, last: usize) -> Texts<'t>
    requires old { first + last ≤ length texts.before.now }
    requires new { first + last ≤ length texts.after.now }
    ensures old { result.before.now ≡ between first (length texts.entry.before.now - last) texts.entry.before.now }
    ensures new { result.after.now ≡ between first (length texts.entry.after.now - last) texts.entry.after.now }
{
    Texts {
        before: &texts.before[first..texts.before.len() - last],
        after: &texts.after[first..texts.after.len() - last],
    }
}

/// The landmarks at which two texts are cut.
fn marks_of(alloc: Global, texts: Texts) -> Result<Vec<Place>, AllocError>
    ensures { IfOk result (λ marks.
        marks.items ≡ longest_from 0 (landmarks texts.entry.before.now texts.entry.after.now)) }
{
    let marks = landmarks_between(alloc, texts.before, texts.after)?;
    longest(alloc, &marks)
}

/// Reads what turns between landmarks of the inner texts, which begin after some bytes of both, and these lines.
fn pass_marks(
    lining: &mut Lining,
    texts: Texts,
    first: usize,
    inner: Texts,
    marks: &[Place],
) -> Result<(), AllocError>
    requires inner { IsInner texts.before.now texts.after.now first inner.before.now inner.after.now }
    requires lining { IsLining texts.before.now texts.after.now lining.old }
    requires old { lining.old.here.old ≡ first }
    requires new { lining.old.here.new ≡ first }
    requires cuts { AreCuts inner.before.now inner.after.now origin marks.now }
    ensures { OnOk result (ArePassed texts.entry.before.now texts.entry.after.now
        inner.entry.before.now inner.entry.after.now first marks.now lining.old [] lining.new) }
{
    for mark in marks {
        let line = first_lines(&inner.before[mark.old..], 1);
        let place = Place {
            old: first + mark.old,
            new: first + mark.new,
        };
        lining.turn_to(texts, place)?;
        lining.stay(texts, line)?;
    }
    Ok(())
}

/// The turns of whole lines by which one text becomes another.
fn turns_between(alloc: Global, texts: Texts) -> Result<Vec<Turn>, AllocError>
    ensures places { IfOk result (λ turns. map (site_of texts.entry.before.now texts.entry.after.now) turns.items
        ≡ sites [] [] (whole_lines (parts_between texts.entry.before.now texts.entry.after.now))) }
    ensures order { IfOk result (λ turns. AreIn texts.entry.before.now texts.entry.after.now 0 0 turns.items) }
{
    let first = same_start(texts.before, texts.after);
    let last = same_end(&texts.before[first..], &texts.after[first..]);
    let inner = inner_texts(texts, first, last);
    let marks = marks_of(alloc, inner)?;
    let mut lining = Lining::new(alloc);
    lining.stay(texts, first)?;
    pass_marks(&mut lining, texts, first, inner, &marks)?;
    let end = Place {
        old: texts.before.len() - last,
        new: texts.after.len() - last,
    };
    lining.turn_to(texts, end)?;
    lining.stay(texts, last)?;
    lining.finish(texts)
}

fn hunk_of(alloc: Global, texts: Texts, turn: Turn) -> Result<Hunk, AllocError>
    requires { IsIn texts.before.now texts.after.now 0 0 turn }
    ensures { IfOk result (λ hunk. hunk ≡ hunk_at (site_of texts.entry.before.now texts.entry.after.now turn)) }
{
    let old = Bytes::copy_of(alloc, texts.old_of(turn))?;
    let new = Bytes::copy_of(alloc, texts.new_of(turn))?;
    Ok(Hunk {
        at: turn.start.old,
        old,
        new,
    })
}

fn hunks_by(alloc: Global, texts: Texts, turns: &[Turn]) -> Result<Vec<Hunk>, AllocError>
    requires { AreIn texts.before.now texts.after.now 0 0 turns.now }
    ensures { IfOk result (λ hunks.
        hunks.items ≡ map hunk_at (map (site_of texts.entry.before.now texts.entry.after.now) turns.now)) }
{
    let mut hunks = Vec::with_capacity(alloc, turns.len())?;
    for turn in turns {
        hunks.push(hunk_of(alloc, texts, *turn)?)?;
    }
    Ok(hunks)
}

/// The hunks by which one text becomes another, in whole lines and as short as a diff prints them. Lines that stand once
/// in each text are found by sorting both, and the longest list of them that has one order in both by a search for each.
pub fn hunks_between(alloc: Global, old: &[u8], new: &[u8]) -> Result<Vec<Hunk>, AllocError>
    ensures { IfOk result (λ hunks. hunks.items ≡ hunks_of old.now new.now) }
{
    let texts = Texts {
        before: old,
        after: new,
    };
    let turns = turns_between(alloc, texts)?;
    hunks_by(alloc, texts, &turns)
}

/// The one step by a tool that makes one text the other, by the hunks between them.
pub fn step_by_lines(
    alloc: Global,
    tool: Tool,
    old: &[u8],
    new: &[u8],
) -> Result<EditSteps, AllocError>
    ensures { IfOk result (λ steps. steps ≡ step_between tool old.now new.now) }
{
    let hunks = hunks_between(alloc, old, new)?;
    let Some(patch) = Patch::new(hunks) else {
        unreachable!()
    };
    EditSteps::single(alloc, tool, patch)
}
