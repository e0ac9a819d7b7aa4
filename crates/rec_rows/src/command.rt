//! The requests of lines such as `recdel -t P -n 0 --force`: the words of the command line without a path, each of which is
//! a cell.
use crate::cells::bytes_in;
use rec_command::{ChangeOrder, CommandLine, Order, request_of as request_of_words};
use rec_tools::{
    Action, Ask, Bytes, Change, EditRequest, Fault, Form, Look, NewRecord, Pick, Request,
    move_through,
};
use std::alloc::{AllocError, Global};
use std::str;

/// Adds the words of a part that has no quotes.
fn push_words<'l>(words: &mut Vec<&'l str>, part: &'l str) -> Result<(), AllocError> {
    for word in part.split(' ') {
        if !word.is_empty() {
            words.push(word)?;
        }
    }
    Ok(())
}

/// The words of a line. What stands between single quotes is a word.
fn words_of(alloc: Global, line: &str) -> Result<Vec<&str>, AllocError> {
    let mut words = Vec::new(alloc);
    for (place, part) in line.split('\'').enumerate() {
        if place % 2 == 0 {
            push_words(&mut words, part)?;
        } else {
            words.push(part)?;
        }
    }
    Ok(words)
}

/// What cells stand for.
#[derive(Clone, Copy)]
struct Cells<'w> {
    alloc: Global,
    /// What the cell `$` stands for.
    word: &'w [u8],
}

impl<'w> Cells<'w> {
    /// A cell becomes what it stands for.
    fn read(&self, cell: &mut Bytes) -> Result<(), AllocError> {
        *cell = match str::from_utf8(cell.as_slice()) {
            Ok("$") => Bytes::copy_of(self.alloc, self.word)?,
            Ok(cell) => bytes_in(self.alloc, cell)?,
            Err(_) => return Ok(()),
        };
        Ok(())
    }

    fn read_kind(&self, kind: &mut Option<Bytes>) -> Result<(), AllocError> {
        match kind {
            Some(cell) => self.read(cell),
            None => Ok(()),
        }
    }

    fn read_ask(&self, by: &mut Ask) -> Result<(), AllocError> {
        match by {
            Ask::All => Ok(()),
            Ask::Expr(cell) | Ask::Index(cell) | Ask::Quick(cell) | Ask::Where(cell) => {
                self.read(cell)
            }
        }
    }

    fn read_pick(&self, pick: &mut Pick) -> Result<(), AllocError> {
        self.read_kind(&mut pick.kind)?;
        self.read_ask(&mut pick.by)
    }

    fn read_form(&self, form: &mut Form) -> Result<(), AllocError> {
        match form {
            Form::Blocks | Form::Count => Ok(()),
            Form::Print(cell) | Form::Values(cell) | Form::Row(cell) => self.read(cell),
        }
    }

    fn read_action(&self, action: &mut Action) -> Result<(), AllocError> {
        match action {
            Action::Set(cell) | Action::Add(cell) | Action::SetAdd(cell) | Action::Rename(cell) => {
                self.read(cell)
            }
            Action::Delete | Action::Comment => Ok(()),
        }
    }

    fn read_pairs(&self, fresh: &mut NewRecord) -> Result<(), AllocError> {
        match fresh {
            NewRecord::Text(cell) => self.read(cell)?,
            NewRecord::Pairs(pairs) => {
                for pair in pairs.iter_mut() {
                    self.read(&mut pair.name)?;
                    self.read(&mut pair.value)?;
                }
            }
        }
        Ok(())
    }

    fn read_edit(&self, edit: &mut EditRequest) -> Result<(), AllocError> {
        match edit {
            EditRequest::Insert { kind, fresh, .. } => {
                self.read_kind(kind)?;
                self.read_pairs(fresh)
            }
            EditRequest::Replace { pick, fresh } => {
                self.read_pick(pick)?;
                self.read_pairs(fresh)
            }
            EditRequest::Delete(pick) | EditRequest::CommentOut(pick) => self.read_pick(pick),
            EditRequest::Set { pick, list, action } => {
                self.read_pick(pick)?;
                self.read(list)?;
                self.read_action(action)
            }
            EditRequest::AutoFill => Ok(()),
        }
    }

    /// The cells of a request become what they stand for, of a dry run those of what it tries.
    fn read_request(&self, request: &mut Request) -> Result<(), AllocError> {
        match request {
            Request::Look(look) => self.read_look(look),
            Request::Change(change) | Request::Preview(change, _) => self.read_change(change),
        }
    }

    fn read_look(&self, look: &mut Look) -> Result<(), AllocError> {
        match look {
            Look::Show { pick, form, .. } => {
                self.read_pick(pick)?;
                self.read_form(form)
            }
            Look::Info { kind, .. } => self.read_kind(kind),
            Look::Check | Look::History | Look::Diff(_, _) | Look::Log(_) => Ok(()),
        }
    }

    fn read_change(&self, change: &mut Change) -> Result<(), AllocError> {
        match change {
            Change::Edit { edit, .. } => self.read_edit(edit),
            Change::Batch { text, .. } => self.read(text),
            Change::Adopt(None) => Ok(()),
            Change::Adopt(Some(old)) => self.read(old),
            Change::Write { text, over, .. } => {
                self.read(text)?;
                match over {
                    Some(old) => self.read(old),
                    None => Ok(()),
                }
            }
            Change::Undo(_) | Change::Redo(_) | Change::Revert { .. } | Change::Forget { .. } => {
                Ok(())
            }
        }
    }
}

/// The request of these words, whose cells are as they stand.
fn request_in(alloc: Global, words: &[&str]) -> Result<Request, Fault> {
    let CommandLine { order, .. } = request_of_words(alloc, words)?;
    Ok(match order {
        Order::Look(look) => Request::Look(look),
        Order::Change(order) => Request::Change(change_of(alloc, order)?),
        Order::Preview(order, style) => Request::Preview(change_of(alloc, order)?, style),
    })
}

/// The change of an order, which has the words that name the paths of its texts as these. Of moves as far as an edit it is the first.
fn change_of(alloc: Global, order: ChangeOrder) -> Result<Change, AllocError> {
    match order {
        ChangeOrder::Whole(change) => Ok(change),
        ChangeOrder::BatchAt { path, force } => {
            let text = Bytes::copy_of(alloc, path.as_bytes())?;
            Ok(Change::Batch { text, force })
        }
        ChangeOrder::AdoptAt(old) => Ok(Change::Adopt(word_given(alloc, &old)?)),
        ChangeOrder::WriteAt { path, over, force } => Ok(Change::Write {
            text: Bytes::copy_of(alloc, path.as_bytes())?,
            over: word_given(alloc, &over)?,
            force,
        }),
        ChangeOrder::Through(direction, number) => Ok(move_through(direction, number)),
    }
}

fn word_given(alloc: Global, word: &Option<String>) -> Result<Option<Bytes>, AllocError> {
    match word {
        Some(word) => Ok(Some(Bytes::copy_of(alloc, word.as_bytes())?)),
        None => Ok(None),
    }
}

/// The request of a line, in which the word `$` stands for the given one.
pub fn request_of(alloc: Global, line: &str, word: &[u8]) -> Result<Request, Fault> {
    let mut words = words_of(alloc, line)?;
    words.push("file")?;
    let mut request = request_in(alloc, words.as_slice())?;
    Cells { alloc, word }.read_request(&mut request)?;
    Ok(request)
}
