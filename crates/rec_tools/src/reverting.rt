//! One edit is taken back, and the later ones stay.
ghost use Rattle.std.specs.Prelude.{◌≡◌, Ok, IfOk, IfErr};
ghost use Rattle.rec_text.specs.Faults.{UnlessMemory};
ghost use Rattle.rec_journal.specs.Event.{AreStepsBy};
ghost use Rattle.rec_journal.specs.EditTexts.{WithLater};
ghost use Rattle.rec_journal.specs.History.{IsOpening};
ghost use Rattle.rec_journal.specs.Revisions.{LeadsBy, joined_steps};
ghost use Rattle.rec_tools.specs.Steps.{IsRefusal};
ghost use Rattle.rec_tools.specs.Reverting.{AreHunksBack, IsLeft, IsKept, IsReverted, IsRevertOf, last_tool, standing_of, unread};
ghost use Rattle.rec_tools.specs.proving.Editing.{HasSteps};
ghost use Rattle.rec_tools.specs.proving.Reverting.{StandsBefore};

use crate::obstacles::obstacle_of;
use crate::telling::refused_on;
use rec_check::{Before, RecFile};
use rec_diff::revert;
use rec_edit::{Edited, require_rules};
use rec_journal::{
    Direction, EditStep, EditSteps, History, Patch, StandingEdit, Tool, standing_edit,
};
use rec_text::{Fault, Obstacle, Reason, Refusal};
use std::alloc::Global;

/// The tool of the last step, or this one where there is none.
fn last_tool(tool: Tool, steps: &[EditStep]) -> Tool
    ensures { result ≡ last_tool tool steps.now }
{
    match steps.last() {
        Some(step) => step.tool,
        None => tool,
    }
}

/// The patch that takes an edit back out of the file, and leaves the later ones.
fn patch_back(alloc: Global, standing: &StandingEdit<'_>, file: &[u8]) -> Result<Patch, Fault>
    requires { StandsBefore file.now standing.now }
    ensures found { UnlessMemory result (AreHunksBack (standing_of standing.now) file.now) }
    ensures refusals { IfErr result IsRefusal }
{
    let texts = standing.texts();
    let later = standing.later(alloc)?;
    let back = revert(
        alloc,
        texts.steps(),
        texts.before(),
        texts.after(),
        &later,
        file,
    )?;
    match back {
        Some(patch) => Ok(patch),
        None => Err(Fault::ChangedLater),
    }
}

/// What is left of the file without an edit, by the tool of the edit's last step.
fn left_without(
    alloc: Global,
    standing: &StandingEdit<'_>,
    file: &[u8],
) -> Result<(Tool, Edited), Fault>
    requires { StandsBefore file.now standing.now }
    ensures found { UnlessMemory result (IsLeft (standing_of standing.now) file.now) }
    ensures steps { IfOk result (HasSteps file.now) }
    ensures refusals { IfErr result IsRefusal }
{
    let patch = patch_back(alloc, standing, file)?;
    let text = patch.apply(alloc, file)?;
    let texts = standing.texts();
    let tool = texts.step().tool;
    let last = last_tool(tool, texts.steps());
    let steps = EditSteps::single(alloc, last, patch)?;
    let edited = Edited {
        steps,
        text,
        changed: 0,
        chosen: None,
    };
    Ok((tool, edited))
}

/// The refusal of a text that would be left, by that of reading it.
fn unread(alloc: Global, fault: Fault) -> Refusal
    ensures { result ≡ unread fault }
{
    match fault {
        Fault::OutOfMemory => Refusal::from(Fault::OutOfMemory),
        Fault::BadPattern => Refusal::from(Fault::BadPattern),
        _ => {
            let reason = Some(Reason::Obstacle(Obstacle::Unread));
            Refusal::from(Fault::ChangedLater).about(alloc, reason)
        }
    }
}

/// Refuses what would be left of a file where that doesn't read, or else, unless that is forced, where it breaks the rules of its
/// record sets.
fn require_kept(alloc: Global, file: &[u8], text: &[u8], force: bool) -> Result<(), Refusal>
    ensures found { UnlessMemory result (IsKept force text.now) }
    ensures refusals { IfErr result IsRefusal }
{
    let left = match RecFile::read(alloc, text) {
        Ok(left) => left,
        Err(refusal) => return Err(unread(alloc, Fault::from(refusal))),
    };
    if force {
        return Ok(());
    }
    let before = Before {
        text: file,
        is_in_place: false,
    };
    require_rules(alloc, before, &left)
}

/// The refusal of an edit that can't be taken back alone, with what keeps it from that.
fn not_alone(
    alloc: Global,
    history: &History,
    number: usize,
    standing: &StandingEdit<'_>,
    file: &[u8],
    fault: Fault,
) -> Refusal
    requires { StandsBefore file.now standing.now }
    ensures { result ≡ fault }
{
    let obstacle = match &fault {
        Fault::ChangedLater => obstacle_of(alloc, history, number, standing, file),
        _ => None,
    };
    let reason = obstacle.map(|obstacle| Reason::Obstacle(obstacle));
    Refusal::from(fault).about(alloc, reason)
}

/// What is left of a file without the edit of a number, and the tool of the edit. Refused where the file has drifted, where no
/// edit of this number can be undone, where the edits don't lead from the file to its texts, where a later edit changed the same
/// lines or the text would not read, and, unless that is forced, where the text breaks the rules of its record sets.
pub fn reverted(
    alloc: Global,
    history: &History,
    file: &[u8],
    journal: &[u8],
    number: usize,
    force: bool,
) -> Result<(Tool, Edited), Refusal>
    requires opened { IsOpening file.now journal.now (Ok history.now) }
    ensures found { UnlessMemory result (IsRevertOf number (IsReverted force) history.now file.now) }
    ensures steps { IfOk result (HasSteps file.now) }
    ensures refusals { IfErr result IsRefusal }
{
    let standing = match standing_edit(alloc, history, file, journal, number) {
        Ok(standing) => standing,
        Err(fault) => return Err(refused_on(alloc, history, Some(Direction::Backward), fault)),
    };
    let (tool, edited) = match left_without(alloc, &standing, file) {
        Ok(left) => left,
        Err(fault) => return Err(not_alone(alloc, history, number, &standing, file, fault)),
    };
    require_kept(alloc, file, edited.text.as_slice(), force)?;
    Ok((tool, edited))
}
