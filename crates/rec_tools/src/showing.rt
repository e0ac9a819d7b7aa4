//! Prints what edits made.
ghost use Rattle.std.specs.Prelude.{◌≡◌, List, false, codes, map, Ok, IfErr, IsOkUnless};
ghost use Rattle.rec_text.specs.Faults.{IsOkUnlessEither};
ghost use Rattle.rec_journal.specs.EditTexts.{WithTexts, GoesOver};
ghost use Rattle.rec_journal.specs.History.{IsOpening};
ghost use Rattle.rec_select.specs.Taken.{PrintsAndCounts};
ghost use Rattle.rec_tools.specs.Steps.{IsRefusal};
ghost use Rattle.rec_tools.specs.Printouts.{told_of, IsLog, IsShownEdit, IsLogOf, IsWholeLog, IsShownText, IsTextWith};
ghost use Rattle.rec_tools.specs.Printouts.{PutsPrintout};
ghost use Rattle.rec_tools.specs.Requests.{as_diff};
ghost use Rattle.rec_tools.specs.proving.Logs.{HasSteps, HaveSteps, IsEditDiff, IsLogged, PrintsThe};

use crate::history::{history_of, write_step};
use crate::request::Reply;
use crate::telling::refused_on;
use rec_diff::{DiffStyle, write_diff};
use rec_journal::{Direction, EditTexts, EditWalk, History, edit_texts};
use rec_text::{Fault, Refusal, Sink, put_all};
use std::alloc::Global;

/// Prints an edit as a diff.
fn write_edit<S: Sink>(
    alloc: Global,
    made: &EditTexts<'_>,
    style: &DiffStyle,
    out: &mut S,
) -> Result<(), Fault>
    requires { HasSteps made.now }
    ensures printed { PrintsThe S.contents S.failure_count out.old out.new (IsEditDiff style.now made.now) result }
    ensures refusals { IsOkUnlessEither result Fault.OutOfMemory Fault.StoreFailed }
{
    let steps = made.steps();
    let before = made.before();
    let after = made.after();
    write_diff(alloc, out, style, Direction::Forward, steps, before, after)
}

/// Prints what the edit of a number made, or the newest that can be taken back.
pub fn print_edit<S: Sink>(
    alloc: Global,
    file: &[u8],
    journal: &[u8],
    number: Option<usize>,
    style: &DiffStyle,
    out: &mut S,
) -> Result<Reply, Refusal>
    ensures written { PrintsAndCounts S.contents S.failure_count out.old out.new
        (PutsPrintout (IsShownText (IsShownEdit number (as_diff style.now) file.now journal.now))) result }
    ensures refusals { IfErr result IsRefusal }
{
    let history = history_of(alloc, file, journal)?;
    let made = match edit_texts(alloc, &history, file, journal, number) {
        Ok(made) => made,
        Err(fault) => return Err(refused_on(alloc, &history, None, fault)),
    };
    write_edit(alloc, &made, style, out)?;
    Ok(Reply::Shown)
}

/// Prints an edit's line in the history, and after it what it made.
fn write_line<S: Sink>(
    alloc: Global,
    made: &EditTexts<'_>,
    style: &DiffStyle,
    out: &mut S,
) -> Result<(), Fault>
    requires { HasSteps made.now }
    ensures printed { PrintsThe S.contents S.failure_count out.old out.new (IsLogged style.now made.now) result }
    ensures refusals { IsOkUnlessEither result Fault.OutOfMemory Fault.StoreFailed }
{
    write_step(made.step(), out)?;
    write_edit(alloc, made, style, out)
}

/// The same of each edit of a walk.
fn write_lines<S: Sink>(
    alloc: Global,
    walk: Option<EditWalk<'_>>,
    style: &DiffStyle,
    out: &mut S,
) -> Result<(), Fault>
    requires { HaveSteps walk }
    ensures printed { (all : List WithTexts) → GoesOver walk.entry all
        → PrintsThe S.contents S.failure_count out.old out.new (IsLog (as_diff style.now) (map told_of all)) result }
    ensures refusals { IsOkUnlessEither result Fault.OutOfMemory Fault.StoreFailed }
{
    let mut walk = walk;
    while let Some(here) = walk {
        write_line(alloc, here.texts(), style, out)?;
        walk = here.next(alloc)?;
    }
    Ok(())
}

/// Prints that the file was changed outside.
fn print_drifted<S: Sink>(out: &mut S) -> Result<Reply, Refusal>
    ensures printed { PrintsAndCounts S.contents S.failure_count out.old out.new
        (PutsPrintout (IsTextWith Reply.Drifted (λ answer. answer ≡ Ok (codes "drifted\n")))) result }
    ensures refusals { IsOkUnless result Fault.StoreFailed }
{
    put_all(out, b"drifted\n")?;
    Ok(Reply::Drifted)
}

/// Prints the edits of a history, and after each of them what it made.
fn print_edits<S: Sink>(
    alloc: Global,
    history: &History,
    file: &[u8],
    journal: &[u8],
    style: &DiffStyle,
    out: &mut S,
) -> Result<Reply, Refusal>
    requires opened { IsOpening file.now journal.now (Ok history.now) }
    requires settled { history.now.drifted ≡ false }
    ensures written { PrintsAndCounts S.contents S.failure_count out.old out.new
        (PutsPrintout (IsShownText (IsLogOf (as_diff style.now) file.now history.now))) result }
    ensures refusals { IfErr result IsRefusal }
{
    let walk = match EditWalk::begin(alloc, history, file, journal) {
        Ok(walk) => walk,
        Err(fault) => return Err(refused_on(alloc, history, None, fault)),
    };
    write_lines(alloc, walk, style, out)?;
    Ok(Reply::Shown)
}

/// Prints the history, and after each of its edits what that made.
pub fn print_log<S: Sink>(
    alloc: Global,
    file: &[u8],
    journal: &[u8],
    style: &DiffStyle,
    out: &mut S,
) -> Result<Reply, Refusal>
    ensures written { PrintsAndCounts S.contents S.failure_count out.old out.new
        (PutsPrintout (IsWholeLog (as_diff style.now) file.now journal.now)) result }
    ensures refusals { IfErr result IsRefusal }
{
    let history = history_of(alloc, file, journal)?;
    if history.is_drifted() {
        return print_drifted(out);
    }
    print_edits(alloc, &history, file, journal, style, out)
}
