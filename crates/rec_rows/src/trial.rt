//! One run of a case: its fields are taken in order.
use crate::cells::{bytes_in, number_in};
use crate::command::request_of;
use crate::log::Log;
use crate::tester::{Tester, Wanted};
use rec_tools::{Bytes, Change, Fault, MemoryHome, Request};
use std::alloc::{AllocError, Global};

/// How the requests of a case are run.
#[derive(Clone, Copy, PartialEq, Eq)]
pub enum Way {
    /// Each by itself.
    OneByOne,
    /// All in one call.
    Together,
    /// Each by itself, and again where a growth was refused.
    Again,
}

/// The requests that were taken, to be run in one call, with what is wanted of them.
#[derive(Drop)]
struct Taken {
    requests: Vec<Request>,
    answers: String,
    prints: Vec<u8>,
}

/// A home, and the request that is to be run on it next.
#[derive(Drop)]
pub struct Trial {
    alloc: Global,
    way: Way,
    /// How much of the journal that is given counts.
    cut: usize,
    tester: Tester,
    wanted: Wanted,
    word: Bytes,
    line: String,
    taken: Taken,
    /// How many events the edits of a row have made, those that took them back and made them again included.
    events: u64,
}

fn nothing(alloc: Global) -> Bytes {
    Bytes::from_vec(Vec::new(alloc))
}

/// The first bytes, at most n.
fn prefix(bytes: &[u8], len: usize) -> &[u8] {
    &bytes[..bytes.len().min(len)]
}

fn is_change(answer: &str) -> bool {
    [
        "edited ",
        "undone ",
        "redone ",
        "reverted ",
        "forgotten ",
        "adopted ",
        "written ",
    ]
    .iter()
    .any(|prefix| answer.starts_with(prefix) && answer != "forgotten 0")
}

impl Wanted {
    fn new(alloc: Global) -> Wanted {
        Wanted {
            answer: String::new(alloc),
            print: nothing(alloc),
            file: nothing(alloc),
            journal: Some(nothing(alloc)),
        }
    }
}

impl Taken {
    fn new(alloc: Global) -> Taken {
        Taken {
            requests: Vec::new(alloc),
            answers: String::new(alloc),
            prints: Vec::new(alloc),
        }
    }

    fn add(&mut self, request: Request, wanted: &Wanted) -> Result<(), Fault> {
        self.requests.push(request)?;
        self.answers.push_str(wanted.answer.as_str())?;
        self.answers.push('\n')?;
        Ok(self.prints.extend_from_slice(wanted.print.as_slice())?)
    }
}

impl Trial {
    pub fn new(alloc: Global, way: Way, cut: usize) -> Trial {
        Trial {
            alloc,
            way,
            cut,
            tester: Tester::new(alloc),
            wanted: Wanted::new(alloc),
            word: nothing(alloc),
            line: String::new(alloc),
            taken: Taken::new(alloc),
            events: 0,
        }
    }

    /// Takes a field of the case.
    pub fn take(&mut self, name: &str, cell: &str, log: &mut Log) -> Result<(), Fault> {
        match name {
            "File" => self.put_file(cell),
            "Journal" => self.put_journal(cell),
            "Outside" => self.change_outside(cell, log),
            "Fails" => self.fail(cell),
            "Request" => self.begin(cell, log),
            "Records" => self.delete_each(number_in(cell)?, log),
            _ if name.starts_with("rec") => self.edit(name, cell, log),
            _ => self.want(name, cell),
        }
    }

    /// Takes a field that says what is wanted of the request, or what its word stands for.
    fn want(&mut self, name: &str, cell: &str) -> Result<(), Fault> {
        match name {
            "Answer" => return self.want_answer(cell),
            "Word" => self.word = bytes_in(self.alloc, cell)?,
            "Prints" => self.wanted.print = bytes_in(self.alloc, cell)?,
            "File_after" => self.wanted.file = bytes_in(self.alloc, cell)?,
            "Journal_after" => self.wanted.journal = Some(bytes_in(self.alloc, cell)?),
            _ => return Err(Fault::BadUsage),
        }
        Ok(())
    }

    fn want_answer(&mut self, answer: &str) -> Result<(), Fault> {
        if is_change(answer) {
            self.wanted.journal = None;
        }
        self.wanted.answer = String::from_str(self.alloc, answer)?;
        Ok(())
    }

    fn put_file(&mut self, cell: &str) -> Result<(), Fault> {
        self.wanted.file = bytes_in(self.alloc, cell)?;
        self.tester.home.file = bytes_in(self.alloc, cell)?;
        Ok(())
    }

    fn put_journal(&mut self, cell: &str) -> Result<(), Fault> {
        let whole = bytes_in(self.alloc, cell)?;
        let journal = prefix(whole.as_slice(), self.cut);
        self.tester.home.journal = Bytes::copy_of(self.alloc, journal)?;
        Ok(self.want_journal()?)
    }

    /// The journal is to stay as it is.
    fn want_journal(&mut self) -> Result<(), AllocError> {
        let journal = Bytes::copy_of(self.alloc, self.tester.home.journal())?;
        self.wanted.journal = Some(journal);
        Ok(())
    }

    /// Another program gives the file this content, once the requests so far were run.
    fn change_outside(&mut self, cell: &str, log: &mut Log) -> Result<(), Fault> {
        self.finish(log)?;
        self.line.clear();
        self.taken = Taken::new(self.alloc);
        if self.wanted.journal.is_none() {
            self.want_journal()?;
        }
        self.put_file(cell)
    }

    /// Lets a call of the home fail: its number, and how many of its writes are made all the same.
    fn fail(&mut self, cell: &str) -> Result<(), Fault> {
        let (call, left) = cell.split_once(' ').unwrap_or((cell, ""));
        self.tester.fails = true;
        let left = number_in(left)? as usize;
        Ok(self.tester.home.fail(number_in(call)?, left)?)
    }

    /// Begins a request, of which nothing else is wanted until a field says so than that it shows nothing.
    fn begin(&mut self, line: &str, log: &mut Log) -> Result<(), Fault> {
        self.end(log)?;
        self.line = String::from_str(self.alloc, line)?;
        self.wanted.answer = String::from_str(self.alloc, "shown")?;
        self.wanted.print = nothing(self.alloc);
        Ok(())
    }

    /// The request that was begun has all its fields.
    fn end(&mut self, log: &mut Log) -> Result<(), Fault> {
        if self.line.as_str().is_empty() {
            return Ok(());
        }
        let request = request_of(self.alloc, self.line.as_str(), self.word.as_slice())?;
        if self.way == Way::Together {
            return self.taken.add(request, &self.wanted);
        }
        self.run(&request, log)
    }

    fn run(&mut self, request: &Request, log: &mut Log) -> Result<(), Fault> {
        if self.way == Way::Again {
            self.tester.run_again(request, &self.wanted, log)?;
        } else {
            self.tester.run(request, &self.wanted, log)?;
        }
        if self.wanted.journal.is_none() {
            self.want_journal()?;
        }
        Ok(())
    }

    /// All fields are taken.
    pub fn finish(&mut self, log: &mut Log) -> Result<(), Fault> {
        self.end(log)?;
        if self.taken.requests.is_empty() {
            return Ok(());
        }
        self.tester.answer_all(self.taken.requests.as_slice())?;
        let said = self.tester.said().as_bytes();
        log.compare("answers together", said, self.taken.answers.as_bytes())?;
        Ok(
            self.tester
                .compare(self.taken.prints.as_slice(), &self.wanted, log)?,
        )
    }

    fn ask(&mut self, line: &str, answer: &str, log: &mut Log) -> Result<(), Fault> {
        let request = request_of(self.alloc, line, &[])?;
        Ok(self.tester.ask(&request, answer, log)?)
    }

    /// An edit makes this text of the file, of one record, and is taken back, made again and taken back. One that
    /// changes nothing is no edit.
    fn edit(&mut self, line: &str, cell: &str, log: &mut Log) -> Result<(), Fault> {
        let after = bytes_in(self.alloc, cell)?;
        self.edit_to(line, after.as_slice(), log)
    }

    fn edit_to(&mut self, line: &str, after: &[u8], log: &mut Log) -> Result<(), Fault> {
        if after == self.wanted.file.as_slice() {
            self.ask(line, "unchanged", log)?;
            return self.is_as_before(true, log);
        }
        self.ask(line, "edited 1", log)?;
        log.compare(line, self.tester.home.file(), after)?;
        self.take_back(log)?;
        self.make_again(after, log)?;
        self.take_back(log)?;
        self.events = self.events.saturating_add(4);
        Ok(())
    }

    /// Moves by the newest edit.
    fn move_by(&mut self, request: &Request, moved: &str, log: &mut Log) -> Result<(), Fault> {
        let number = self.events.saturating_add(1);
        let answer = format!(in self.alloc; "{moved} {number}")?;
        Ok(self.tester.ask(request, answer.as_str(), log)?)
    }

    /// Takes the newest edit back.
    fn take_back(&mut self, log: &mut Log) -> Result<(), Fault> {
        self.move_by(&Request::Change(Change::Undo(None)), "undone", log)?;
        self.is_as_before(true, log)
    }

    /// Makes the newest edit again, whose text is this one.
    fn make_again(&mut self, after: &[u8], log: &mut Log) -> Result<(), Fault> {
        self.move_by(&Request::Change(Change::Redo(None)), "redone", log)?;
        Ok(log.compare("made again", self.tester.home.file(), after)?)
    }

    /// Each of n records is deleted in turn and brought back, and there is no further one.
    fn delete_each(&mut self, records: u64, log: &mut Log) -> Result<(), Fault> {
        for index in 0..records {
            self.delete(index, "edited 1", log)?;
            self.is_as_before(false, log)?;
            self.take_back(log)?;
            self.events = self.events.saturating_add(2);
        }
        self.delete(records, "unchanged", log)?;
        self.is_as_before(true, log)
    }

    fn delete(&mut self, index: u64, answer: &str, log: &mut Log) -> Result<(), Fault> {
        let line = format!(in self.alloc; "recdel -n {index}")?;
        self.ask(line.as_str(), answer, log)
    }

    fn is_as_before(&self, wanted: bool, log: &mut Log) -> Result<(), Fault> {
        let is_same = self.tester.home.file() == self.wanted.file.as_slice();
        Ok(log.expect(
            "the file, with a record deleted or brought back",
            is_same == wanted,
        )?)
    }
}
