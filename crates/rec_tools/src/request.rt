//! What a user asks for, and what is answered.
use rec_diff::DiffStyle;
use rec_edit::{Action, NewRecord};
use rec_journal::Tool;
use rec_select::InfoForm;
use rec_text::Bytes;

/// How records are selected.
#[derive(Drop)]
pub enum Ask {
    /// All of them.
    All,
    /// Those that an expression selects, such as `Age > 17 && #Email`.
    Expr(Bytes),
    /// By their places in the set, from 0: a list such as `0,4-7`.
    Index(Bytes),
    /// Those with a value that contains these bytes.
    Quick(Bytes),
    /// Those of which some field has exactly a value: its name, `=` and the value, such as `Name=Ann`.
    Where(Bytes),
}

impl Ask {
    ghost use Rattle.std.specs.Prelude.{◌≡◌, MatchOption};
    ghost use Rattle.rec_tools.specs.declared.request.Ask.{Ask as AskOf};
    ghost use Rattle.rec_tools.specs.Asking.{selection_for};

    /// The records that are asked for by the texts of four options: all of them where none is given, and none where more than
    /// one is.
    pub fn of(
        expression: Option<Bytes>,
        number: Option<Bytes>,
        quick: Option<Bytes>,
        named: Option<Bytes>,
    ) -> Option<Ask>
        ensures { MatchOption result ((by : AskOf) → selection_for by ≡ (expression, number, quick, named) → ⊥)
            (λ by. selection_for by ≡ (expression, number, quick, named)) }
    {
        match (expression, number, quick, named) {
            (None, None, None, None) => Some(Ask::All),
            (Some(text), None, None, None) => Some(Ask::Expr(text)),
            (None, Some(list), None, None) => Some(Ask::Index(list)),
            (None, None, Some(text), None) => Some(Ask::Quick(text)),
            (None, None, None, Some(text)) => Some(Ask::Where(text)),
            _ => None,
        }
    }
}

/// Which records of which type. Without a type they are those of the untyped set where that has a record, and else of
/// the only typed set.
#[derive(Drop)]
pub struct Pick {
    pub kind: Option<Bytes>,
    pub by: Ask,
}

/// What is printed of each record. A list of fields is a text such as `Name,Email[0-1]`.
#[derive(Drop)]
pub enum Form {
    /// All its fields, as they stand in the file.
    Blocks,
    /// The fields that a list picks, as they stand in the file.
    Print(Bytes),
    /// The values of these, one in a line.
    Values(Bytes),
    /// The values of these in one line.
    Row(Bytes),
    /// Nothing: the number of the records is printed instead.
    Count,
}

/// An edit as it is asked for, whose words aren't read yet. Without force the file may not break the rules of its record sets
/// afterwards.
#[derive(Drop)]
pub enum EditRequest {
    /// Puts a record in, as the last one of its set: that of a type, which is made where it isn't there, or else the untyped
    /// one. With `auto` it gets the automatic fields that it lacks.
    Insert {
        kind: Option<Bytes>,
        fresh: NewRecord,
        auto: bool,
    },
    /// Puts a new record instead of each that is picked.
    Replace {
        pick: Pick,
        fresh: NewRecord,
    },
    /// Deletes records. Only with force may all be picked (`Ask::All`).
    Delete(Pick),
    /// Makes comments of records, with force as for a deletion.
    CommentOut(Pick),
    /// Edits the fields that a list picks of records: a text such as `Name,Email[0-1]`.
    Set {
        pick: Pick,
        list: Bytes,
        action: Action,
    },
    /// Gives all records of typed sets the automatic fields that they lack.
    AutoFill,
}

impl EditRequest {
    ghost use Rattle.std.specs.Prelude.{◌≡◌, Ok};
    ghost use Rattle.rec_edit.specs.Task.{Task, tool_of};
    ghost use Rattle.rec_tools.specs.Requests.{IsTaskOf};

    /// The tool that does it.
    pub(crate) fn tool(&self) -> Tool
        ensures { (task : Task) → IsTaskOf self.now (Ok task) → result ≡ tool_of task }
    {
        match self {
            EditRequest::Insert { .. } | EditRequest::Replace { .. } => Tool::RecIns,
            EditRequest::Delete(_) | EditRequest::CommentOut(_) => Tool::RecDel,
            EditRequest::Set { .. } => Tool::RecSet,
            EditRequest::AutoFill => Tool::RecFix,
        }
    }
}

/// What is printed of a file and its journal, of which nothing is changed.
#[derive(Drop)]
pub enum Look {
    /// Prints records. With `collapse` no empty line stands between them.
    Show {
        pick: Pick,
        form: Form,
        collapse: bool,
    },
    /// Prints what record sets there are, or what that of a type is.
    Info {
        kind: Option<Bytes>,
        form: InfoForm,
    },
    /// Reports where the file breaks the rules of its record sets.
    Check,
    /// Prints the edits: those that stand, the oldest first, and then those that can be made again, the nearest first; or
    /// that the file was changed outside.
    History,
    /// Prints what an edit of the history made, that of this number or the newest that can be taken back, as a diff.
    Diff(Option<usize>, DiffStyle),
    /// Prints the edits as for `History`, and after each of them what it made.
    Log(DiffStyle),
}

/// What is done to a file and its journal, of which nothing is printed.
#[derive(Drop)]
pub enum Change {
    /// Makes an edit. Only with `force` may the file break the rules of its record sets afterwards.
    Edit {
        edit: EditRequest,
        force: bool,
    },
    /// Makes the edits that a rec text lists, one after another, as one edit. Only with `force` may one of them delete all
    /// records of a set, and may the file break the rules of its record sets after the last.
    Batch {
        text: Bytes,
        force: bool,
    },
    /// Takes the newest edit back, where a number is named only if the edit of that number can be taken back too.
    Undo(Option<usize>),
    /// Makes the edit that was taken back last again, where a number is named only if the edit of that number can be made
    /// again too.
    Redo(Option<usize>),
    /// Takes the edit of this number back and leaves the later ones, as an edit of its own. Only with `force` may the file break
    /// the rules of its record sets afterwards.
    Revert {
        number: usize,
        force: bool,
    },
    /// Forgets all but the newest of the edits that can be taken back; those that can be made again stay. With `dropped`
    /// the edits go too that can be neither taken back nor made again any more.
    Forget {
        newest: u32,
        dropped: bool,
    },
    /// Makes the change by another program since the last edit an edit of the history, of which this is some text. Where none is
    /// given the file's own text is looked for in it. The file stays as it is.
    Adopt(Option<Bytes>),
    /// Gives the file this text, as one edit; where a text is named that it was made from, only if the file still has that one.
    /// Only with `force` may it break the rules of its record sets. The file itself needn't read.
    Write {
        text: Bytes,
        over: Option<Bytes>,
        force: bool,
    },
}

/// A request on a file and its journal.
#[derive(Drop)]
pub enum Request {
    Look(Look),
    Change(Change),
    /// Prints what a change would make of the file, as a diff, and does nothing.
    Preview(Change, DiffStyle),
}

/// The answer to a request that isn't refused.
#[derive(Clone, Copy)]
pub enum Reply {
    /// What was asked for was printed.
    Shown,
    /// It was printed that the file was changed outside.
    Drifted,
    /// The number of violations that were reported.
    Violated(usize),
    /// The text was changed.
    Edited {
        /// The number of records that were changed, of a batch the sum of those of its edits.
        changed: usize,
        /// The edit's number in the history.
        number: usize,
        /// How many edits can't be undone any more, since the file was changed outside after them.
        dropped: usize,
    },
    /// The text stays as it is; no event is made.
    Unchanged {
        /// The number of records that are selected, where an edit is of a selection; of a batch the sum.
        chosen: Option<usize>,
    },
    /// The edit of this number, by this tool, was taken back.
    Undone(usize, Tool),
    /// The edit of this number, by this tool, was made again.
    Redone(usize, Tool),
    /// The edit of a number was taken back alone.
    Reverted {
        /// Its number.
        edit: usize,
        tool: Tool,
        /// The number of the edit by which it was.
        number: usize,
    },
    /// Edits were forgotten.
    Forgotten {
        /// The number of those that could be taken back.
        older: usize,
        /// The number of those that could be neither taken back nor made again any more.
        dropped: usize,
    },
    /// What another program changed became the edit of this number.
    Adopted(usize),
    /// The file got a whole text.
    Written {
        /// The edit's number in the history.
        number: usize,
        /// How many edits can't be undone any more, since the file was changed outside after them.
        dropped: usize,
    },
}
