//! Prints what a change would make of the file, without doing it.
ghost use Rattle.std.specs.Prelude.{Ok, IfOk, IfErr, option_copied};
ghost use Rattle.rec_text.specs.Faults.{IsOkUnlessEither};
ghost use Rattle.rec_select.specs.Taken.{PrintsAndCounts, Puts};
ghost use Rattle.rec_tools.specs.Steps.{IsRefusal};
ghost use Rattle.rec_tools.specs.Printouts.{PutsPrintout};
ghost use Rattle.rec_tools.specs.Requests.{change_of};
ghost use Rattle.rec_tools.specs.Outcomes.{Decides};
ghost use Rattle.rec_tools.specs.proving.Courses.{LeadsFromFile, LeadsSo, IsTextOf, IsDecisionText, IsPreviewed, replied};

use crate::decision::{Decision, NewFile, decide};
use crate::request::Change;
use rec_diff::{DiffStyle, write_diff};
use rec_journal::Direction;
use rec_text::{Fault, Refusal, Sink};
use std::alloc::Global;

/// Prints what becomes of a file, as a diff; where there is no new one, nothing.
fn write_new<S: Sink>(
    alloc: Global,
    file: &[u8],
    new: Option<&NewFile>,
    style: &DiffStyle,
    out: &mut S,
) -> Result<(), Fault>
    requires { LeadsFromFile file.now (option_copied new) }
    ensures written { PrintsAndCounts S.contents S.failure_count out.old out.new
        (Puts (IsTextOf style.now file.now (option_copied new.entry))) result }
    ensures refusals { IsOkUnlessEither result Fault.OutOfMemory Fault.StoreFailed }
{
    match new {
        Some(new) => {
            let steps = new.steps.as_slice();
            let text = new.text.as_slice();
            write_diff(alloc, out, style, new.direction, steps, file, text)
        }
        None => Ok(()),
    }
}

/// Prints what becomes of a file by a decision, or what became of it before, as a diff.
fn write_decision<S: Sink>(
    alloc: Global,
    file: &[u8],
    decision: &Decision,
    style: &DiffStyle,
    out: &mut S,
) -> Result<(), Fault>
    requires { LeadsSo file.now decision.now }
    ensures written { PrintsAndCounts S.contents S.failure_count out.old out.new
        (Puts (IsDecisionText style.now file.now decision.now)) result }
    ensures refusals { IsOkUnlessEither result Fault.OutOfMemory Fault.StoreFailed }
{
    match decision {
        Decision::Stay(_) => Ok(()),
        Decision::Put { file: new, .. } => write_new(alloc, file, new.as_ref(), style, out),
        Decision::Adopt { from, steps, .. } => {
            let steps = steps.as_slice();
            let from = from.as_slice();
            write_diff(alloc, out, style, Direction::Forward, steps, from, file)
        }
    }
}

/// Prints what a change would make of a file, as a diff, and gives the decision.
pub(crate) fn print_decision<S: Sink>(
    alloc: Global,
    file: &[u8],
    journal: &[u8],
    change: &Change,
    style: &DiffStyle,
    out: &mut S,
) -> Result<Decision, Refusal>
    ensures written { PrintsAndCounts S.contents S.failure_count out.old out.new
        (PutsPrintout (IsPreviewed style.now file.now journal.now (change_of change.now))) (replied result) }
    ensures found { IfOk result (λ decision. Decides file.now journal.now (change_of change.now) (Ok decision)) }
    ensures refusals { IfErr result IsRefusal }
{
    let decision = decide(alloc, file, journal, change)?;
    write_decision(alloc, file, &decision, style, out)?;
    Ok(decision)
}
