//! Prints the history of a file.
ghost use Rattle.std.specs.Prelude.{◌≡◌, codes, flat_map, Ok, IfErr, IsOkUnless, if◌then◌else◌};
ghost use Rattle.rec_text.specs.Faults.{UnlessMemory};
ghost use Rattle.rec_select.specs.Taken.{Prints, PrintsAndCounts};
ghost use Rattle.rec_journal.specs.History.{IsOpening};
ghost use Rattle.rec_tools.specs.Steps.{IsRefusal};
ghost use Rattle.rec_tools.specs.Printouts.{IsHistory, PutsPrintout, history_reply, printed_history};
ghost use Rattle.rec_tools.specs.proving.Listed.{line_of};

use crate::request::Reply;
use itoa::Buffer;
use rec_journal::{Hashed, History, Step, Steps};
use rec_select::put_parts;
use rec_text::{Fault, Refusal, Sink, put_all};
use std::alloc::Global;

/// The history that a file and its journal stand for.
pub fn history_of(alloc: Global, file: &[u8], journal: &[u8]) -> Result<History, Fault>
    ensures { UnlessMemory result (IsOpening file.now journal.now) }
{
    let hashed = Hashed::of(alloc, file)?;
    History::load(alloc, &hashed, journal)
}

/// Prints an edit, in a line.
pub(crate) fn write_step<S: Sink>(step: Step, out: &mut S) -> Result<(), Fault>
    ensures printed { Prints S.contents S.failure_count out.old out.new (line_of step) result }
    ensures refusals { IsOkUnless result Fault.StoreFailed }
{
    let word: &[u8] = if step.done { b"done" } else { b"undone" };
    let mut buffer = Buffer::new();
    let number = buffer.format(step.number).as_bytes();
    put_parts(out, &[word, b" ", number, b" ", step.tool.name(), b"\n"])
}

fn write_steps<S: Sink>(steps: Steps, out: &mut S) -> Result<(), Fault>
    ensures printed { Prints S.contents S.failure_count out.old out.new (flat_map line_of steps.entry) result }
    ensures refusals { IsOkUnless result Fault.StoreFailed }
{
    for step in steps {
        write_step(step, out)?;
    }
    Ok(())
}

fn write_history<S: Sink>(history: &History, out: &mut S) -> Result<(), Fault>
    ensures printed { Prints S.contents S.failure_count out.old out.new (printed_history history.now) result }
    ensures refusals { IsOkUnless result Fault.StoreFailed }
{
    if history.is_drifted() {
        return put_all(out, b"drifted\n");
    }
    write_steps(history.steps(), out)
}

/// The reply to a history that is printed.
fn reply_to(history: &History) -> Reply
    ensures { result ≡ history_reply history.now }
{
    if history.is_drifted() {
        Reply::Drifted
    } else {
        Reply::Shown
    }
}

/// Prints the history that a file and its journal stand for.
pub fn print_history<S: Sink>(
    alloc: Global,
    file: &[u8],
    journal: &[u8],
    out: &mut S,
) -> Result<Reply, Refusal>
    ensures written { PrintsAndCounts S.contents S.failure_count out.old out.new
        (PutsPrintout (IsHistory file.now journal.now)) result }
    ensures refusals { IfErr result IsRefusal }
{
    let history = history_of(alloc, file, journal)?;
    write_history(&history, out)?;
    Ok(reply_to(&history))
}
