//! A home on which requests are run, and what is found there.
use crate::log::Log;
use crate::narrow::Narrow;
use rec_tools::{
    Bytes, Fault, Home, MemoryHome, Output, Refusal, Reply, Request, Sink, run, run_all,
    without_texts,
};
use std::alloc::{AllocError, Global};

pub const STORE_FAILED: &str = "23 a file could not be read or written";

const OUT_OF_MEMORY: &str = "1 out of memory";

/// What is wanted of a request.
#[derive(Drop)]
pub struct Wanted {
    pub answer: String,
    pub print: Bytes,
    pub file: Bytes,
    /// None where any journal is right.
    pub journal: Option<Bytes>,
}

/// A home in memory, and what is answered and printed.
#[derive(Drop)]
pub struct Tester {
    alloc: Global,
    pub home: MemoryHome,
    out: Output<Narrow>,
    /// The last answer, or those of one call, each ended by a newline.
    said: String,
    /// How often the home is to have failed.
    failures: u64,
    /// Whether a call of the home is to fail.
    pub fails: bool,
}

/// Adds an answer in words.
fn say(said: &mut String, answer: &Result<Reply, Refusal>) -> Result<(), AllocError> {
    match answer {
        Ok(Reply::Shown) => said.push_str("shown"),
        Ok(Reply::Drifted) => said.push_str("drifted"),
        Ok(Reply::Violated(count)) => write!(said, "violated {count}"),
        Ok(Reply::Edited { changed, .. }) => write!(said, "edited {changed}"),
        Ok(Reply::Unchanged { .. }) => said.push_str("unchanged"),
        Ok(Reply::Undone(number, _)) => write!(said, "undone {number}"),
        Ok(Reply::Redone(number, _)) => write!(said, "redone {number}"),
        Ok(Reply::Reverted { edit, .. }) => write!(said, "reverted {edit}"),
        Ok(Reply::Forgotten { older, dropped: 0 }) => write!(said, "forgotten {older}"),
        Ok(Reply::Forgotten { older, dropped }) => write!(
            said,
            "forgotten {older}, dropped {dropped}"
        ),
        Ok(Reply::Adopted(number)) => write!(said, "adopted {number}"),
        Ok(Reply::Written { number, .. }) => write!(said, "written {number}"),
        Err(refusal) => {
            let fault = refusal.fault();
            write!(said, "{} {fault}", fault.number())
        }
    }
}

/// Adds answers in words, one in a line.
fn say_all(said: &mut String, answers: &[Result<Reply, Refusal>]) -> Result<(), AllocError> {
    for answer in answers {
        say(said, answer)?;
        said.push('\n')?;
    }
    Ok(())
}

impl Tester {
    pub fn new(alloc: Global) -> Tester {
        let file = Bytes::from_vec(Vec::new(alloc));
        let journal = Bytes::from_vec(Vec::new(alloc));
        let taken = Vec::new(alloc);
        Tester {
            alloc,
            home: MemoryHome::new(alloc, file, journal),
            out: Output {
                writer: Narrow { taken, room: 0 },
                failed: 0,
            },
            said: String::new(alloc),
            failures: 0,
            fails: false,
        }
    }

    /// Gives the home these contents.
    pub fn put(&mut self, file: &[u8], journal: &[u8]) -> Result<(), AllocError> {
        self.home.file = Bytes::copy_of(self.alloc, file)?;
        self.home.journal = Bytes::copy_of(self.alloc, journal)?;
        Ok(())
    }

    /// A home with these contents, none of whose calls fails.
    pub fn with(alloc: Global, file: &[u8], journal: &[u8]) -> Result<Tester, AllocError> {
        let mut tester = Tester::new(alloc);
        tester.put(file, journal)?;
        Ok(tester)
    }

    /// The same contents and the same count of failures; no call fails.
    pub fn copy_of_home(&self) -> Result<Tester, AllocError> {
        let mut copy = Tester::with(self.alloc, self.home.file(), self.home.journal())?;
        copy.home.failed = self.home.failed;
        Ok(copy)
    }

    /// Empties the output, and leaves it so much room.
    fn clear(&mut self, room: usize) {
        self.out.writer.taken.clear();
        self.out.writer.room = room;
        self.out.failed = 0;
        self.said.clear();
    }

    /// Runs a request, whose output has so much room.
    fn answer_in(&mut self, request: &Request, room: usize) -> Result<(), AllocError> {
        self.clear(room);
        let answer = run(self.alloc, &mut self.home, &mut self.out, request);
        let answer = without_texts(answer);
        say(&mut self.said, &answer)
    }

    pub fn answer(&mut self, request: &Request) -> Result<(), AllocError> {
        self.answer_in(request, usize::MAX)
    }

    /// Runs requests in one call.
    pub fn answer_all(&mut self, requests: &[Request]) -> Result<(), Fault> {
        self.clear(usize::MAX);
        let answers = run_all(self.alloc, &mut self.home, &mut self.out, requests)?;
        Ok(say_all(&mut self.said, answers.as_slice())?)
    }

    /// What was answered last.
    pub fn said(&self) -> &str {
        self.said.as_str()
    }

    /// What was printed last.
    pub fn printed(&self) -> &[u8] {
        self.out.writer.taken.as_slice()
    }

    fn compare_answer(&self, what: &str, answer: &str, log: &mut Log) -> Result<(), AllocError> {
        log.compare(what, self.said.as_bytes(), answer.as_bytes())
    }

    /// Runs a request, whose answer alone is wanted.
    pub fn ask(
        &mut self,
        request: &Request,
        answer: &str,
        log: &mut Log,
    ) -> Result<(), AllocError> {
        log.count();
        self.answer(request)?;
        self.compare_answer("answers", answer, log)
    }

    /// Runs a request.
    pub fn run(
        &mut self,
        request: &Request,
        wanted: &Wanted,
        log: &mut Log,
    ) -> Result<(), AllocError> {
        self.ask(request, wanted.answer.as_str(), log)?;
        self.count_failures(wanted, log)?;
        self.compare(wanted.print.as_slice(), wanted, log)?;
        self.narrow(request, wanted.print.as_slice(), log)
    }

    /// The home has failed where it is wanted, and the output hasn't.
    fn count_failures(&mut self, wanted: &Wanted, log: &mut Log) -> Result<(), AllocError> {
        if wanted.answer.as_str().starts_with("23 ") {
            self.failures = self.failures.saturating_add(1);
        }
        let has_failed = self.home.failures() == self.failures;
        log.expect("the failures of the home", has_failed)?;
        log.expect("the failures of the output", self.out.failures() == 0)
    }

    /// Whether a growth was refused: memory ran out, and both contents are as before, or the home or the output had no room.
    fn is_refused(
        &self,
        before: &Tester,
        wanted: &Wanted,
        log: &mut Log,
    ) -> Result<bool, AllocError> {
        let has_failed = self.home.failures() != before.home.failures();
        if has_failed || self.out.failures() > 0 {
            self.compare_answer("answers", STORE_FAILED, log)?;
        } else if self.said() != OUT_OF_MEMORY {
            return Ok(false);
        }
        log.compare("the old file", self.home.file(), before.home.file())?;
        if !has_failed {
            log.compare(
                "the old journal",
                self.home.journal(),
                before.home.journal(),
            )?;
        }
        let is_prefix = wanted.print.as_slice().starts_with(self.printed());
        log.expect("a prefix of what is printed", is_prefix)?;
        Ok(true)
    }

    /// Runs a request, and again where a growth was refused.
    pub fn run_again(
        &mut self,
        request: &Request,
        wanted: &Wanted,
        log: &mut Log,
    ) -> Result<(), AllocError> {
        log.count();
        let before = self.copy_of_home()?;
        self.answer(request)?;
        if self.is_refused(&before, wanted, log)? {
            log.count_again();
            self.answer(request)?;
        }
        self.compare_answer("answers", wanted.answer.as_str(), log)?;
        self.compare(wanted.print.as_slice(), wanted, log)
    }

    /// Compares what was printed, and both contents.
    pub fn compare(&self, print: &[u8], wanted: &Wanted, log: &mut Log) -> Result<(), AllocError> {
        log.compare("prints", self.printed(), print)?;
        log.compare("the file", self.home.file(), wanted.file.as_slice())?;
        match &wanted.journal {
            Some(journal) => log.compare("the journal", self.home.journal(), journal.as_slice()),
            None => Ok(()),
        }
    }

    /// Runs a request that prints again with each smaller room for its output, where no call of the home is to fail.
    fn narrow(&mut self, request: &Request, print: &[u8], log: &mut Log) -> Result<(), AllocError> {
        if self.fails {
            return Ok(());
        }
        for room in 0..print.len() {
            self.answer_in(request, room)?;
            self.compare_answer("answers in little room", STORE_FAILED, log)?;
            log.expect("one failure in little room", self.out.failures() == 1)?;
            log.expect(
                "the prefix of what is printed",
                self.printed().len() == room && print.starts_with(self.printed()),
            )?;
        }
        Ok(())
    }
}
