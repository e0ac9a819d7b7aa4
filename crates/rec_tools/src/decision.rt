//! What a request makes of a file and a journal, before anything is put in place.
ghost use Rattle.std.specs.Prelude.{◌≡◌, Some, Ok, IfOk, IfErr, if◌then◌else◌};
ghost use Rattle.rec_text.specs.Elements.{text_of};
ghost use Rattle.rec_text.specs.Faults.{UnlessMemory};
ghost use Rattle.rec_journal.specs.History.{IsOpening, lost_edits};
ghost use Rattle.rec_journal.specs.Plans.{nothing_there};
ghost use Rattle.rec_tools.specs.Steps.{IsRefusal};
ghost use Rattle.rec_check.specs.DescribedTexts.{IsDescribedText};
ghost use Rattle.rec_tools.specs.Asked.{editing, moving, reverting, forgetting, writing};
ghost use Rattle.rec_tools.specs.Reverting.{IsReverted};
ghost use Rattle.rec_tools.specs.Writing.{IsWritten};
ghost use Rattle.rec_tools.specs.Requests.{IsMade, change_of};
ghost use Rattle.rec_tools.specs.Outcomes.{IsEditOutcome, Decides, outcome_in, reply_of};
ghost use Rattle.rec_tools.specs.declared.decision.Decision.TheVariants.{Put};
ghost use Rattle.rec_tools.specs.proving.Courses.{HasCourse};
ghost use Rattle.rec_tools.specs.proving.Editing.{AreEditsFrom, HasSteps};

use crate::adopting::decide_adoption;
use crate::batches::batch_edits;
use crate::editing::make;
use crate::history::history_of;
use crate::request::{Change, EditRequest, Reply};
use crate::reverting::reverted;
use crate::telling::{refused_move, refused_on};
use crate::writing::written;
use rec_check::RecFile;
use rec_edit::Edited;
use rec_journal::{
    Direction, EditSteps, Hashed, History, MovePlan, Plan, Tool, plan_forget, plan_move, plan_steps,
};
use rec_text::{Bytes, Fault, Refusal};
use std::alloc::Global;
use std::slice;

/// The new text of a file, and the steps by which the file leads there, forward, or from which it leads back.
#[derive(Drop)]
pub struct NewFile {
    pub text: Bytes,
    pub direction: Direction,
    pub steps: EditSteps,
}

/// A reply, and what is to be put in place first: nothing, or a journal and, where it changes, the file.
#[derive(Drop)]
pub enum Decision {
    Stay(Reply),
    Put {
        journal: Bytes,
        file: Option<NewFile>,
        reply: Reply,
    },
    /// The journal alone, in which the file is where these steps lead from another text.
    Adopt {
        journal: Bytes,
        from: Bytes,
        steps: EditSteps,
        reply: Reply,
    },
}

impl Decision {
    ghost use Rattle.std.specs.Prelude.{◌≡◌};
    ghost use Rattle.rec_tools.specs.Outcomes.{reply_in};

    /// The reply.
    pub fn reply(&self) -> Reply
        ensures { result ≡ reply_in self.now }
    {
        match self {
            Decision::Stay(reply) => *reply,
            Decision::Put { reply, .. } => *reply,
            Decision::Adopt { reply, .. } => *reply,
        }
    }
}

/// Both contents of a plan are to be put in place, the file by these steps.
fn put_plan(plan: Plan, direction: Direction, steps: EditSteps, reply: Reply) -> Decision
    ensures { result ≡ Put plan.journal
        (Some (record { text = plan.file; direction = direction; steps = steps })) reply }
{
    let Plan { journal, file } = plan;
    Decision::Put {
        journal,
        file: Some(NewFile {
            text: file,
            direction,
            steps,
        }),
        reply,
    }
}

/// What is asked to be made as one edit.
#[derive(Clone, Copy)]
pub enum Source<'r> {
    OneEdit(&'r EditRequest),
    /// The edits that a rec text lists.
    Listed(&'r [u8]),
}

/// What edits make of a file, and the tool that is told with them.
fn made_from(
    alloc: Global,
    file: RecFile,
    source: Source<'_>,
    force: bool,
) -> Result<(Tool, Edited), Refusal>
    ensures found { UnlessMemory result (IsMade (AreEditsFrom source.entry force) (text_of file.entry.pieces)) }
    ensures steps { IfOk result (HasSteps (text_of file.entry.pieces)) }
    ensures refusals { IfErr result IsRefusal }
{
    match source {
        Source::OneEdit(edit) => {
            let made = make(alloc, file, slice::from_ref(edit), force)?;
            Ok((edit.tool(), made))
        }
        Source::Listed(text) => {
            let edits = batch_edits(alloc, text)?;
            let made = make(alloc, file, &edits, force)?;
            Ok((Tool::Batch, made))
        }
    }
}

/// Plans what edits made of a file, with the reply to that. Where it's the same text, nothing is planned.
fn put_edited(
    alloc: Global,
    history: &History,
    file: &Hashed<'_>,
    journal: &[u8],
    tool: Tool,
    edited: Edited,
    reply: Reply,
) -> Result<Decision, Refusal>
    requires opened { IsOpening file.now journal.now (Ok history.now) }
    requires steps { HasSteps file.now (tool, edited) }
    ensures found { UnlessMemory result (λ answer. IsEditOutcome history.now
        (record { file = file.now; journal = journal.now }) tool edited reply (outcome_in answer)) }
    ensures course { IfOk result (HasCourse file.now journal.now) }
    ensures refusals { IfErr result IsRefusal }
{
    if edited.text.as_slice() == file.text() {
        let chosen = edited.chosen;
        return Ok(Decision::Stay(Reply::Unchanged { chosen }));
    }
    let Edited { steps, text, .. } = edited;
    let plan = plan_steps(alloc, history, file, journal, tool, &steps, text)?;
    Ok(put_plan(plan, Direction::Forward, steps, reply))
}

/// Decides an edit on a file that was hashed and a journal. The elements of the file are let go before the edited text is
/// checked and a plan is made, which need memory too.
fn decide_on(
    alloc: Global,
    file: &Hashed<'_>,
    journal: &[u8],
    source: Source<'_>,
    force: bool,
) -> Result<Decision, Refusal>
    ensures found { UnlessMemory result
        (Decides file.now journal.now (editing IsDescribedText (IsMade (AreEditsFrom source.entry force)))) }
    ensures course { IfOk result (HasCourse file.now journal.now) }
    ensures refusals { IfErr result IsRefusal }
{
    let read = RecFile::read(alloc, file.text())?;
    let history = History::load(alloc, file, journal)?;
    let (tool, edited) = made_from(alloc, read, source, force)?;
    let reply = Reply::Edited {
        changed: edited.changed,
        number: history.next(),
        dropped: history.dropped(),
    };
    put_edited(alloc, &history, file, journal, tool, edited, reply)
}

/// Decides an edit on a file and a journal.
fn decide_edit(
    alloc: Global,
    file: &[u8],
    journal: &[u8],
    source: Source<'_>,
    force: bool,
) -> Result<Decision, Refusal>
    ensures found { UnlessMemory result
        (Decides file.now journal.now (editing IsDescribedText (IsMade (AreEditsFrom source.entry force)))) }
    ensures course { IfOk result (HasCourse file.now journal.now) }
    ensures refusals { IfErr result IsRefusal }
{
    let hashed = Hashed::of(alloc, file)?;
    decide_on(alloc, &hashed, journal, source, force)
}

/// Decides a revert on a file that was hashed and a journal. The elements of the file are let go at once: it only has to read.
fn decide_revert_on(
    alloc: Global,
    file: &Hashed<'_>,
    journal: &[u8],
    number: usize,
    force: bool,
) -> Result<Decision, Refusal>
    ensures found { UnlessMemory result
        (Decides file.now journal.now (reverting IsDescribedText number (IsReverted force))) }
    ensures course { IfOk result (HasCourse file.now journal.now) }
    ensures refusals { IfErr result IsRefusal }
{
    RecFile::read(alloc, file.text())?;
    let history = History::load(alloc, file, journal)?;
    let (tool, edited) = reverted(alloc, &history, file.text(), journal, number, force)?;
    let reply = Reply::Reverted {
        edit: number,
        tool,
        number: history.next(),
    };
    put_edited(alloc, &history, file, journal, tool, edited, reply)
}

/// Decides a revert on a file and a journal.
fn decide_revert(
    alloc: Global,
    file: &[u8],
    journal: &[u8],
    number: usize,
    force: bool,
) -> Result<Decision, Refusal>
    ensures found { UnlessMemory result
        (Decides file.now journal.now (reverting IsDescribedText number (IsReverted force))) }
    ensures course { IfOk result (HasCourse file.now journal.now) }
    ensures refusals { IfErr result IsRefusal }
{
    let hashed = Hashed::of(alloc, file)?;
    decide_revert_on(alloc, &hashed, journal, number, force)
}

/// Decides what a whole text makes of a file that was hashed and a journal.
fn decide_write_on(
    alloc: Global,
    file: &Hashed<'_>,
    journal: &[u8],
    text: &[u8],
    over: &Option<Bytes>,
    force: bool,
) -> Result<Decision, Refusal>
    ensures found { UnlessMemory result (Decides file.now journal.now (writing (IsWritten force over.now text.now))) }
    ensures course { IfOk result (HasCourse file.now journal.now) }
    ensures refusals { IfErr result IsRefusal }
{
    let history = History::load(alloc, file, journal)?;
    let (tool, edited) = written(alloc, file.text(), text, over, force)?;
    let number = history.next();
    let dropped = history.dropped();
    let reply = Reply::Written { number, dropped };
    put_edited(alloc, &history, file, journal, tool, edited, reply)
}

/// Decides what a whole text makes of a file and a journal.
fn decide_write(
    alloc: Global,
    file: &[u8],
    journal: &[u8],
    text: &[u8],
    over: &Option<Bytes>,
    force: bool,
) -> Result<Decision, Refusal>
    ensures found { UnlessMemory result (Decides file.now journal.now (writing (IsWritten force over.now text.now))) }
    ensures course { IfOk result (HasCourse file.now journal.now) }
    ensures refusals { IfErr result IsRefusal }
{
    let hashed = Hashed::of(alloc, file)?;
    decide_write_on(alloc, &hashed, journal, text, over, force)
}

/// The reply to a move by the edit of this number and tool.
fn reply_of(direction: Direction, number: usize, tool: Tool) -> Reply
    ensures { result ≡ reply_of direction number tool }
{
    match direction {
        Direction::Forward => Reply::Redone(number, tool),
        Direction::Backward => Reply::Undone(number, tool),
    }
}

/// The refusal where no edit lies that way.
fn nothing_there(direction: Direction) -> Fault
    ensures { result ≡ nothing_there direction }
{
    match direction {
        Direction::Backward => Fault::NothingToUndo,
        Direction::Forward => Fault::NothingToRedo,
    }
}

/// Decides a move on a file and a journal: back it is an undo, forward a redo.
fn decide_move(
    alloc: Global,
    file: &[u8],
    journal: &[u8],
    direction: Direction,
    through: Option<usize>,
) -> Result<Decision, Refusal>
    ensures found { UnlessMemory result (Decides file.now journal.now (moving direction through)) }
    ensures course { IfOk result (HasCourse file.now journal.now) }
    ensures refusals { IfErr result IsRefusal }
{
    let history = history_of(alloc, file, journal)?;
    if history.lacks(direction, through) {
        let fault = Fault::NoSuchEdit;
        return Err(refused_move(alloc, &history, journal, direction, fault));
    }
    let moved = match plan_move(alloc, direction, &history, file, journal) {
        Ok(moved) => moved,
        Err(fault) => return Err(refused_move(alloc, &history, journal, direction, fault)),
    };
    let MovePlan { plan, number, tool } = moved;
    let reply = reply_of(direction, number, tool);
    match history.into_steps(direction) {
        Some(steps) => Ok(put_plan(plan, direction, steps, reply)),
        None => Err(Refusal::from(nothing_there(direction))),
    }
}

/// How many edits go that can be neither taken back nor made again any more.
fn dropped_of(history: &History, dropping: bool) -> usize
    ensures { result ≡ (if dropping then lost_edits history.now else 0) }
{
    if dropping { history.lost() } else { 0 }
}

/// Decides what is forgotten, on a file and a journal.
fn decide_forgetting(
    alloc: Global,
    file: &[u8],
    journal: &[u8],
    newest: usize,
    dropping: bool,
) -> Result<Decision, Refusal>
    ensures found { UnlessMemory result (Decides file.now journal.now (forgetting newest dropping)) }
    ensures course { IfOk result (HasCourse file.now journal.now) }
    ensures refusals { IfErr result IsRefusal }
{
    let history = history_of(alloc, file, journal)?;
    if history.is_drifted() {
        return Err(refused_on(alloc, &history, None, Fault::Drifted));
    }
    let undos = history.undos();
    let older = undos.saturating_sub(newest);
    let dropped = dropped_of(&history, dropping);
    let reply = Reply::Forgotten { older, dropped };
    if older == 0 && dropped == 0 {
        return Ok(Decision::Stay(reply));
    }
    let left = plan_forget(alloc, &history, file, journal, undos - older)?;
    Ok(Decision::Put {
        journal: left,
        file: None,
        reply,
    })
}

/// Decides a change of a file and a journal.
pub fn decide(
    alloc: Global,
    file: &[u8],
    journal: &[u8],
    change: &Change,
) -> Result<Decision, Refusal>
    ensures found { UnlessMemory result (Decides file.now journal.now (change_of change.now)) }

    // A new file comes of an edit that is made or taken back, by these steps.
    ensures course { IfOk result (HasCourse file.now journal.now) }
    ensures refusals { IfErr result IsRefusal }
{
    match change {
        Change::Edit { edit, force } => {
            decide_edit(alloc, file, journal, Source::OneEdit(edit), *force)
        }
        Change::Batch { text, force } => {
            let text = text.as_slice();
            decide_edit(alloc, file, journal, Source::Listed(text), *force)
        }
        Change::Undo(through) => decide_move(alloc, file, journal, Direction::Backward, *through),
        Change::Redo(through) => decide_move(alloc, file, journal, Direction::Forward, *through),
        Change::Revert { number, force } => decide_revert(alloc, file, journal, *number, *force),
        Change::Forget { newest, dropped } => {
            decide_forgetting(alloc, file, journal, *newest as usize, *dropped)
        }
        Change::Adopt(old) => decide_adoption(alloc, file, journal, old),
        Change::Write { text, over, force } => {
            decide_write(alloc, file, journal, text.as_slice(), over, *force)
        }
    }
}
