//! What the hunks of a diff show: turns that are near one another, and lines that stay around them.
ghost use Rattle.std.specs.Prelude.{◌≡◌, ◌≤◌, ◌<◌, ◌+◌, [], length, nat_lt, IfOk};
ghost use Rattle.std.specs.List.{between, flat_map};
ghost use Rattle.rec_diff.specs.Diff.{hunks, views_of};
ghost use Rattle.rec_diff.specs.Lines.{line_count};
ghost use Rattle.rec_diff.specs.proving.Passages.{ArePassages, AreKept, BeginsLast, EndsFirst, IsKept, cut_at, passage_text, origin};

use crate::lines::{first_lines, has_more_lines, last_lines};
use crate::turn::{Place, Texts, Turn};
use std::alloc::{AllocError, Global};

/// What a hunk shows: both texts from one place to another, with these turns between the two.
#[derive(Clone, Copy)]
pub(crate) struct Passage<'t> {
    pub start: Place,
    pub end: Place,
    pub turns: &'t [Turn],
}

/// What stays between two places, which are those of one text.
fn kept<'t>(texts: Texts<'t>, from: Place, to: Place) -> &'t [u8]
    requires { IsKept texts.before.now texts.after.now from to }
    ensures { result.now ≡ between from.old to.old texts.entry.before.now }
{
    &texts.before[from.old..to.old]
}

/// Whether more lines stay between two turns than are shown after the one and before the other.
fn are_apart(texts: Texts, from: Place, to: Place, context: usize) -> bool
    requires { IsKept texts.before.now texts.after.now from to }
    ensures { result ≡ nat_lt (context + context) (line_count (between from.old to.old texts.entry.before.now)) }
{
    has_more_lines(kept(texts, from, to), context, context)
}

/// Where the lines begin that are shown before a turn.
fn start_before(texts: Texts, from: Place, to: Place, context: usize) -> Place
    requires { IsKept texts.before.now texts.after.now from to }
    ensures { BeginsLast texts.entry.before.now texts.entry.after.now context from to result }
{
    let bytes = last_lines(kept(texts, from, to), context);
    Place {
        old: to.old - bytes,
        new: to.new - bytes,
    }
}

/// Where the lines end that are shown after a turn.
fn end_after(texts: Texts, from: Place, to: Place, context: usize) -> Place
    requires { IsKept texts.before.now texts.after.now from to }
    ensures { EndsFirst texts.entry.before.now texts.entry.after.now context from to result }
{
    let bytes = first_lines(kept(texts, from, to), context);
    Place {
        old: from.old + bytes,
        new: from.new + bytes,
    }
}

/// What the hunks show of some turns, with up to this number of lines before and after each.
pub(crate) fn passages_of<'t>(
    alloc: Global,
    texts: Texts,
    context: usize,
    turns: &'t [Turn],
) -> Result<Vec<Passage<'t>>, AllocError>
    requires some { 0 < length turns.now }
    requires kept { AreKept texts.before.now texts.after.now origin turns.now }
    ensures some { IfOk result (λ passages. 0 < length passages.items) }
    ensures text { IfOk result (λ passages.
        flat_map (passage_text texts.entry.before.now texts.entry.after.now) passages.items
        ≡ hunks [] [] [] (views_of 0 context (cut_at texts.entry.before.now texts.entry.after.now origin turns.now))) }
    ensures order { IfOk result (λ passages.
        ArePassages texts.entry.before.now texts.entry.after.now 0 0 passages.items) }
{
    let mut passages = Vec::new(alloc);
    let mut first = 0;
    let mut start = start_before(texts, Place { old: 0, new: 0 }, turns[0].start, context);
    let mut end = turns[0].end;
    for index in 1..turns.len() {
        let next = turns[index];
        if are_apart(texts, end, next.start, context) {
            passages.push(Passage {
                start,
                end: end_after(texts, end, next.start, context),
                turns: &turns[first..index],
            })?;
            start = start_before(texts, end, next.start, context);
            first = index;
        }
        end = next.end;
    }
    let whole = Place {
        old: texts.before.len(),
        new: texts.after.len(),
    };
    passages.push(Passage {
        start,
        end: end_after(texts, end, whole, context),
        turns: &turns[first..],
    })?;
    Ok(passages)
}
