//! Prints what a patch changes of a text.
ghost use Rattle.std.specs.Prelude.{◌≡◌, ◌≤◌, ◌+◌, ◌++◌, ◌<◌, ◌^◌, [], codes, length, take, if◌then◌else◌, IfOk, OnOk, IsOkUnless};
ghost use Rattle.std.specs.List.{between, flat_map};
ghost use Rattle.rec_text.specs.Bytes.{is_nil};
ghost use Rattle.rec_text.specs.Faults.{IsOkUnlessEither};
ghost use Rattle.rec_journal.specs.Patch.{Splices};
ghost use Rattle.rec_select.specs.Taken.{Prints, PrintsAndCounts, Puts};
ghost use Rattle.rec_diff.specs.Diff.{IsChangeText, after_space, begins_blank as blank_begins, head as head_line, hunks};
ghost use Rattle.rec_diff.specs.Diff.{marked, named, names, part_text, views_of};
ghost use Rattle.rec_diff.specs.proving.Passages.{ArePassages, AreKept, IsPassage, cut_at, first_heading, origin, parts_in};
ghost use Rattle.rec_diff.specs.proving.Passages.{passage_text, turn_lines};
ghost use Rattle.rec_diff.specs.proving.Headings.{IsPassed};
ghost use Rattle.rec_diff.specs.proving.Turns.{IsIn};

use crate::head::put_head;
use crate::heading::begins_blank;
use crate::label::put_label;
use crate::lining::turns_of;
use crate::marked::write_marked;
use crate::passages::{Passage, passages_of};
use crate::passed::Passed;
use crate::style::DiffStyle;
use crate::turn::{Place, Texts, Turn};
use rec_journal::Hunk;
use rec_text::{Fault, Sink, put_all};
use std::alloc::{AllocError, Global};

/// The field that heads a hunk whose first turn has these lines: where they are blank, none.
fn field_above<'t>(field: &'t [u8], old: &'t [u8], new: &'t [u8]) -> &'t [u8]
    ensures { after_space result.now
        ≡ (if blank_begins (if is_nil old.now then new.now else old.now) then [] else after_space field.now) }
{
    let shown = if old.is_empty() { new } else { old };
    if begins_blank(shown) { &[] } else { field }
}

/// The first line of the hunk of a passage. Both texts are passed to its start; at its first turn this field is found.
fn head_of<'t>(
    alloc: Global,
    texts: Texts<'t>,
    passed: Passed<'t>,
    field: &'t [u8],
    passage: &Passage<'t>,
) -> Result<Vec<u8>, AllocError>
    requires passage { IsPassage texts.before.now texts.after.now 0 0 passage.now }
    requires old { passed.old_lines + 1 < 2 ^ 64 }
    requires new { passed.new_lines + 1 < 2 ^ 64 }
    ensures { IfOk result (λ head. head.items ≡ head_line passed.entry.old_lines passed.entry.new_lines
        (between passage.now.start.old passage.now.end.old texts.entry.before.now)
        (between passage.now.start.new passage.now.end.new texts.entry.after.now)
        (first_heading texts.entry.before.now texts.entry.after.now passage.now.turns.now field.now)) }
{
    let first = passage.turns[0];
    let field = field_above(field, texts.old_of(first), texts.new_of(first));
    let all = Turn {
        start: passage.start,
        end: passage.end,
    };
    let mut head = Vec::new(alloc);
    put_head(
        &mut head,
        passed.old_lines,
        passed.new_lines,
        texts.old_of(all),
        texts.new_of(all),
        field,
    )?;
    Ok(head)
}

/// Prints the lines that go, and those that come.
fn write_both<'p, S: Sink>(old: &'p [u8], new: &'p [u8], out: &mut S) -> Result<(), Fault>
    ensures printed { Prints S.contents S.failure_count out.old out.new
        (marked (codes "-") old.now ++ marked (codes "+") new.now) result }
    ensures refusals { IsOkUnless result Fault.StoreFailed }
{
    write_marked(b"-", old, out)?;
    write_marked(b"+", new, out)
}

/// Prints the lines of a turn, after those that stay between a place and it.
fn write_turn<S: Sink>(texts: Texts, place: Place, turn: Turn, out: &mut S) -> Result<(), Fault>
    requires { IsIn texts.before.now texts.after.now place.old place.new turn }
    ensures printed { Prints S.contents S.failure_count out.old out.new
        (turn_lines texts.entry.before.now texts.entry.after.now place turn) result }
    ensures refusals { IsOkUnless result Fault.StoreFailed }
{
    write_marked(b" ", &texts.before[place.old..turn.start.old], out)?;
    write_both(texts.old_of(turn), texts.new_of(turn), out)
}

/// Prints the lines of a passage.
fn write_parts<'t, S: Sink>(
    texts: Texts<'t>,
    passage: &Passage<'t>,
    out: &mut S,
) -> Result<(), Fault>
    requires { IsPassage texts.before.now texts.after.now 0 0 passage.now }
    ensures printed { Prints S.contents S.failure_count out.old out.new
        (flat_map part_text (parts_in texts.entry.before.now texts.entry.after.now passage.now)) result }
    ensures refusals { IsOkUnless result Fault.StoreFailed }
{
    let mut place = passage.start;
    for turn in passage.turns {
        write_turn(texts, place, *turn, out)?;
        place = turn.end;
    }
    write_marked(b" ", &texts.before[place.old..passage.end.old], out)
}

/// Prints the hunk of a passage, and passes both texts up to its first turn.
fn write_hunk<'t, S: Sink>(
    alloc: Global,
    texts: Texts<'t>,
    passed: Passed<'t>,
    passage: &Passage<'t>,
    out: &mut S,
) -> Result<Passed<'t>, Fault>
    requires known { IsPassed texts.before.now texts.after.now passed }
    requires passage { IsPassage texts.before.now texts.after.now passed.place.old passed.place.new passage.now }
    ensures printed { Prints S.contents S.failure_count out.old out.new
        (passage_text texts.entry.before.now texts.entry.after.now passage.now) result }
    ensures known { IfOk result (IsPassed texts.entry.before.now texts.entry.after.now) }
    ensures place { IfOk result (λ passed. (passed.place.old ≤ passage.now.end.old)
        × (passed.place.new ≤ passage.now.end.new)) }
{
    let start = passed.on_to(texts, passage.start);
    let first = start.on_to(texts, passage.turns[0].start);
    let head = head_of(alloc, texts, start, first.field, passage)?;
    put_all(out, &head)?;
    write_parts(texts, passage, out)?;
    Ok(first)
}

/// Prints the hunks of passages, in one pass over the texts.
fn write_hunks<'t, S: Sink>(
    alloc: Global,
    texts: Texts<'t>,
    passages: &[Passage<'t>],
    out: &mut S,
) -> Result<(), Fault>
    requires { ArePassages texts.before.now texts.after.now 0 0 passages.now }
    ensures { Prints S.contents S.failure_count out.old out.new
        (flat_map (passage_text texts.entry.before.now texts.entry.after.now) passages.now) result }
{
    let mut passed = Passed::nothing(texts);
    for passage in passages {
        passed = write_hunk(alloc, texts, passed, passage, out)?;
    }
    Ok(())
}

/// Appends a name on both sides.
fn put_names(out: &mut Vec<u8>, name: &[u8]) -> Result<(), AllocError>
    ensures { OnOk result (out.new.items ≡ out.old.items ++ names name.now) }
{
    out.extend_from_slice(b"--- ")?;
    put_label(out, name)?;
    out.extend_from_slice(b"\n+++ ")?;
    put_label(out, name)?;
    out.extend_from_slice(b"\n")
}

/// Prints a name on both sides.
fn write_names<S: Sink>(alloc: Global, name: &[u8], out: &mut S) -> Result<(), Fault>
    ensures { Prints S.contents S.failure_count out.old out.new (names name.now) result }
{
    let mut head = Vec::new(alloc);
    put_names(&mut head, name)?;
    put_all(out, &head)
}

/// Prints turns; of none nothing.
fn write_turns<S: Sink>(
    alloc: Global,
    style: &DiffStyle,
    texts: Texts,
    turns: &[Turn],
    out: &mut S,
) -> Result<(), Fault>
    requires { AreKept texts.before.now texts.after.now origin turns.now }
    ensures { Prints S.contents S.failure_count out.old out.new
        (named style.now.name (hunks [] [] []
        (views_of 0 style.now.context (cut_at texts.entry.before.now texts.entry.after.now origin turns.now)))) result }
{
    if turns.is_empty() {
        return Ok(());
    }
    let passages = passages_of(alloc, texts, style.context, turns)?;
    write_names(alloc, style.name.as_slice(), out)?;
    write_hunks(alloc, texts, &passages, out)
}

/// Writes the diff that a patch makes of a text.
pub fn write_change<S: Sink>(
    alloc: Global,
    out: &mut S,
    style: &DiffStyle,
    patch: &[Hunk],
    before: &[u8],
    after: &[u8],
) -> Result<(), Fault>
    requires { Splices patch.now before.now after.now }
    ensures written { PrintsAndCounts S.contents S.failure_count out.old out.new
        (Puts (IsChangeText style.now patch.now before.now after.now)) result }
    ensures refusals { IsOkUnlessEither result Fault.OutOfMemory Fault.StoreFailed }
{
    let texts = Texts { before, after };
    let turns = turns_of(alloc, patch, texts)?;
    write_turns(alloc, style, texts, &turns, out)
}
