//! A change by another program becomes an edit of the history.
ghost use Rattle.std.specs.Prelude.{◌≡◌, true, Ok, take, IfOk, IfErr};
ghost use Rattle.rec_text.specs.Faults.{UnlessMemory};
ghost use Rattle.rec_journal.specs.History.{IsOpening};
ghost use Rattle.rec_journal.specs.Ending.{digest_of, EndsWith};
ghost use Rattle.rec_tools.specs.Steps.{IsRefusal};
ghost use Rattle.rec_tools.specs.Asked.{adopting};
ghost use Rattle.rec_tools.specs.Outcomes.{Decides};
ghost use Rattle.rec_tools.specs.proving.Courses.{HasCourse};
ghost use Rattle.rec_tools.specs.proving.Adopting.{AdoptsTo, AdoptsFrom};

use crate::decision::Decision;
use crate::request::Reply;
use rec_diff::step_by_lines;
use rec_journal::{End, Hashed, History, Tool, digest_of_end, find_end, plan_adoption};
use rec_text::{Bytes, Fault, Outside, Reason, Refusal};
use std::alloc::Global;

/// What became of the end of a history is the next edit.
fn adopted(
    alloc: Global,
    history: &History,
    file: &Hashed<'_>,
    journal: &[u8],
    end: End,
) -> Result<Decision, Fault>
    requires opened { IsOpening file.now journal.now (Ok history.now) }
    requires drifted { history.now.drifted ≡ true }
    requires ends { EndsWith (take history.now.keep journal.now) end.history }
    requires end { digest_of end.text ≡ end.history.digest }
    ensures found { UnlessMemory result (AdoptsTo history.now file.now journal.now end) }
    ensures course { IfOk result (HasCourse file.now journal.now) }
    ensures refusals { IfErr result IsRefusal }
{
    let steps = step_by_lines(alloc, Tool::Adopt, end.text.as_slice(), file.text())?;
    let put = plan_adoption(alloc, history, file, journal, &end, &steps)?;
    let End { text, .. } = end;
    Ok(Decision::Adopt {
        journal: put,
        from: text,
        steps,
        reply: Reply::Adopted(history.next()),
    })
}

/// The refusal where the end isn't found.
fn without_end(
    alloc: Global,
    history: &History,
    file: &Hashed<'_>,
    journal: &[u8],
    fault: Fault,
) -> Refusal
    requires opened { IsOpening file.now journal.now (Ok history.now) }
    requires drifted { history.now.drifted ≡ true }
    ensures { result ≡ fault }
{
    let reason = match &fault {
        Fault::Drifted => Some(Reason::Outside(Outside::Journal)),
        Fault::OtherText => match digest_of_end(alloc, history, file, journal) {
            Ok(digits) => Some(Reason::End(digits)),
            Err(_) => None,
        },
        _ => None,
    };
    Refusal::from(fault).about(alloc, reason)
}

/// Decides an adoption where a file has drifted, from a text of the history.
fn adopt_from<'t>(
    alloc: Global,
    history: &History,
    file: &Hashed<'t>,
    journal: &[u8],
    old: &Hashed<'t>,
) -> Result<Decision, Refusal>
    requires opened { IsOpening file.now journal.now (Ok history.now) }
    requires drifted { history.now.drifted ≡ true }
    ensures found { UnlessMemory result (AdoptsFrom history.now file.now journal.now old.now) }
    ensures course { IfOk result (HasCourse file.now journal.now) }
    ensures refusals { IfErr result IsRefusal }
{
    let end = match find_end(alloc, history, file, journal, old) {
        Ok(end) => end,
        Err(fault) => return Err(without_end(alloc, history, file, journal, fault)),
    };
    Ok(adopted(alloc, history, file, journal, end)?)
}

/// Decides an adoption on a file that was hashed and a journal.
fn adopt_on<'t>(
    alloc: Global,
    file: &Hashed<'t>,
    journal: &[u8],
    old: &'t Option<Bytes>,
) -> Result<Decision, Refusal>
    ensures found { UnlessMemory result (Decides file.now journal.now (adopting old.now)) }
    ensures course { IfOk result (HasCourse file.now journal.now) }
    ensures refusals { IfErr result IsRefusal }
{
    let history = History::load(alloc, file, journal)?;
    if !history.is_drifted() {
        return Ok(Decision::Stay(Reply::Unchanged { chosen: None }));
    }
    match old {
        Some(text) => {
            let old = Hashed::of(alloc, text.as_slice())?;
            adopt_from(alloc, &history, file, journal, &old)
        }
        None => adopt_from(alloc, &history, file, journal, file),
    }
}

/// Decides an adoption on a file and a journal.
pub(crate) fn decide_adoption<'t>(
    alloc: Global,
    file: &'t [u8],
    journal: &[u8],
    old: &'t Option<Bytes>,
) -> Result<Decision, Refusal>
    ensures found { UnlessMemory result (Decides file.now journal.now (adopting old.now)) }
    ensures course { IfOk result (HasCourse file.now journal.now) }
    ensures refusals { IfErr result IsRefusal }
{
    let hashed = Hashed::of(alloc, file)?;
    adopt_on(alloc, &hashed, journal, old)
}
