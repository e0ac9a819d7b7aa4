//! What an edit is to do.
ghost use Rattle.std.specs.Prelude.{◌≡◌, map, length, IfOk};

use rec_journal::Tool;
use rec_select::Selection;
use rec_text::Bytes;
use std::alloc::{AllocError, Global};

/// What is done to the fields that a list picks of a record.
#[derive(Drop)]
pub enum Action {
    /// Each gets this value.
    Set(Bytes),
    /// For each item of the list a field with this value is added after the record's last field.
    Add(Bytes),
    /// Items that pick fields set them to this value; for each item that picks none a field is added.
    SetAdd(Bytes),
    /// Each gets this name.
    Rename(Bytes),
    /// Each is deleted.
    Delete,
    /// Each becomes a comment.
    Comment,
}

impl Action {
    ghost use Rattle.std.specs.Prelude.{◌≡◌, MatchOption};
    ghost use Rattle.rec_edit.specs.declared.request.Action.{Action as ActionOf};
    ghost use Rattle.rec_edit.specs.Options.{action_for};

    /// What is done to fields by one of these: values to set, to add, and to set or else add, a new name, or that they are
    /// deleted or become comments. It is none where not exactly one is given.
    pub fn of(
        set: Option<Bytes>,
        add: Option<Bytes>,
        set_add: Option<Bytes>,
        rename: Option<Bytes>,
        deletes: bool,
        comments: bool,
    ) -> Option<Action>
        ensures { MatchOption result
            ((action : ActionOf) → action_for action ≡ (set, add, set_add, rename, deletes, comments) → ⊥)
            (λ action. action_for action ≡ (set, add, set_add, rename, deletes, comments)) }
    {
        match (set, add, set_add, rename, deletes, comments) {
            (Some(value), None, None, None, false, false) => Some(Action::Set(value)),
            (None, Some(value), None, None, false, false) => Some(Action::Add(value)),
            (None, None, Some(value), None, false, false) => Some(Action::SetAdd(value)),
            (None, None, None, Some(name), false, false) => Some(Action::Rename(name)),
            (None, None, None, None, true, false) => Some(Action::Delete),
            (None, None, None, None, false, true) => Some(Action::Comment),
            _ => None,
        }
    }
}

/// A field of a new record.
#[derive(Drop)]
pub struct Pair {
    pub name: Bytes,
    pub value: Bytes,
}

/// A new record.
#[derive(Drop)]
pub enum NewRecord {
    /// Its fields, in order.
    Pairs(Vec<Pair>),
    /// A text that holds it alone. Comments and blank lines of the text are dropped.
    Text(Bytes),
}

/// Names and values as fields, place by place.
fn pairs_of(alloc: Global, names: Vec<Bytes>, values: Vec<Bytes>) -> Result<Vec<Pair>, AllocError>
    requires { length names.items ≡ length values.items }
    ensures names { IfOk result (λ pairs. map (λ pair. pair.name) pairs.items ≡ names.items) }
    ensures values { IfOk result (λ pairs. map (λ pair. pair.value) pairs.items ≡ values.items) }
{
    let mut pairs = Vec::with_capacity(alloc, names.len())?;
    for (name, value) in names.into_iter().zip(values) {
        pairs.push(Pair { name, value })?;
    }
    Ok(pairs)
}

impl NewRecord {
    ghost use Rattle.std.specs.Prelude.{◌≡◌, IfOk, MatchOption};
    ghost use Rattle.rec_edit.specs.declared.request.NewRecord.{NewRecord as GivenRecord};
    ghost use Rattle.rec_edit.specs.Options.{new_record_for};

    /// The record of these names and values, which belong together place by place, or of this text. It is none where they
    /// don't pair, and where both are given; no name, no value and no text are the record of no fields.
    pub fn of(
        alloc: Global,
        names: Vec<Bytes>,
        values: Vec<Bytes>,
        text: Option<Bytes>,
    ) -> Result<Option<NewRecord>, AllocError>
        ensures { IfOk result (λ found. MatchOption found
            ((fresh : GivenRecord) → new_record_for fresh ≡ (names.items, values.items, text) → ⊥)
            (λ fresh. new_record_for fresh ≡ (names.items, values.items, text))) }
    {
        match text {
            None if names.len() == values.len() => {
                Ok(Some(NewRecord::Pairs(pairs_of(alloc, names, values)?)))
            }
            Some(text) if names.is_empty() && values.is_empty() => Ok(Some(NewRecord::Text(text))),
            _ => Ok(None),
        }
    }
}

/// An edit of the records of a text. The texts that it works with are borrowed.
#[derive(Drop)]
pub enum Edit<'r> {
    /// Puts a record in, after the last one of its set: that of a type, which is made where it isn't there, or else the
    /// untyped one. With `auto` it gets the automatic fields that it lacks.
    Insert {
        kind: &'r Option<Bytes>,
        fresh: &'r NewRecord,
        auto: bool,
    },
    /// Replaces each record that a selection takes by a new one.
    Replace {
        selection: Selection,
        fresh: &'r NewRecord,
    },
    /// Deletes those that a selection takes, with the blank lines directly after each.
    Delete(Selection),
    /// Makes comments of all their lines.
    CommentOut(Selection),
    /// Edits the fields that a list picks of each: a text such as `Name,Email[0-1]`.
    Set {
        selection: Selection,
        list: &'r [u8],
        action: &'r Action,
    },
    /// Gives all records of typed sets the automatic fields that they lack.
    AutoFill,
}

impl Edit<'_> {
    ghost use Rattle.std.specs.Prelude.{◌≡◌};
    ghost use Rattle.rec_edit.specs.Task.{task_of, tool_of};

    /// The tool that does it.
    pub fn tool(&self) -> Tool
        ensures { result ≡ tool_of (task_of self.now) }
    {
        match self {
            Edit::Insert { .. } => Tool::RecIns,
            Edit::Replace { .. } => Tool::RecIns,
            Edit::Delete(_) => Tool::RecDel,
            Edit::CommentOut(_) => Tool::RecDel,
            Edit::Set { .. } => Tool::RecSet,
            Edit::AutoFill => Tool::RecFix,
        }
    }

    /// Whether it leaves each record in its place.
    pub(crate) fn is_in_place(&self) -> bool {
        match self {
            Edit::Replace { .. } | Edit::Set { .. } | Edit::AutoFill => true,
            Edit::Insert { .. } | Edit::Delete(_) | Edit::CommentOut(_) => false,
        }
    }
}
