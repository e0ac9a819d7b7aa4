//! Requests on homes of whose calls some fail, and on journals that are cut. Beside such a home stands its twin, of which no
//! call fails, and on which each request is run that has taken effect: both stand for the same state.
use crate::log::Log;
use crate::tester::{STORE_FAILED, Tester};
use rec_tools::{Change, Fault, Home, Look, Request};
use std::alloc::{AllocError, Global};
use std::mem;

/// A call of the home that fails.
#[derive(Clone, Copy)]
struct Failing {
    call: u64,
    /// How many of its writes are made all the same.
    left: usize,
}

impl Failing {
    /// Three for each call: it leaves none of two writes, the first, and both.
    fn of(number: u64) -> Failing {
        Failing {
            call: number / 3,
            left: (number % 3) as usize,
        }
    }
}

/// A copy of a home, opened with no failure: it has answered its history.
fn opened(home: &Tester) -> Result<Tester, AllocError> {
    let mut copy = home.copy_of_home()?;
    copy.answer(&Request::Look(Look::History))?;
    Ok(copy)
}

/// Whether the contents stand for the state of the twin: its text, and its history.
fn stands_for(home: &Tester, twin: &Tester) -> Result<bool, AllocError> {
    let home = opened(home)?;
    let twin = opened(twin)?;
    Ok(
        home.said() == "shown"
            && home.printed() == twin.printed()
            && home.home.file() == twin.home.file(),
    )
}

fn expect_same(what: &str, home: &Tester, twin: &Tester, log: &mut Log) -> Result<(), AllocError> {
    let stands = stands_for(home, twin)?;
    log.expect(what, stands)
}

fn compare_answers(home: &Tester, twin: &Tester, log: &mut Log) -> Result<(), AllocError> {
    log.compare("answers", home.said().as_bytes(), twin.said().as_bytes())
}

fn compare_contents(home: &Tester, twin: &Tester, log: &mut Log) -> Result<(), AllocError> {
    log.compare("the file", home.home.file(), twin.home.file())?;
    log.compare("the journal", home.home.journal(), twin.home.journal())
}

/// Whether a failed request left both contents as they were before it, the new journal beside the old file, or both new.
fn is_left_of(home: &Tester, before: &Tester, next: &Tester) -> bool {
    let has_new_journal = home.home.journal() == next.home.journal();
    let has_old_journal = home.home.journal() == before.home.journal();
    home.home.file() == before.home.file() && (has_old_journal || has_new_journal)
        || home.home.file() == next.home.file() && has_new_journal
}

/// Whether the contents stand for the next state of the twin. A request goes as there, or answers that a file could not be read
/// or written, and leaves the state before or the one after.
fn is_done(
    home: &Tester,
    before: &Tester,
    next: &Tester,
    log: &mut Log,
) -> Result<bool, AllocError> {
    if home.home.failures() == before.home.failures() {
        compare_answers(home, next, log)?;
        return Ok(true);
    }
    log.compare("answers", home.said().as_bytes(), STORE_FAILED.as_bytes())?;
    let is_left = is_left_of(home, before, next);
    log.expect("both contents old, the journal new, or both new", is_left)?;
    stands_for(home, next)
}

/// Runs a request, of whose calls some may fail.
fn step(
    home: &mut Tester,
    twin: &mut Tester,
    request: &Request,
    log: &mut Log,
) -> Result<(), AllocError> {
    log.count();
    let before = home.copy_of_home()?;
    home.answer(request)?;
    follow(home, &before, twin, request, log)
}

/// Runs the request on the twin too, where it has taken effect.
fn follow(
    home: &Tester,
    before: &Tester,
    twin: &mut Tester,
    request: &Request,
    log: &mut Log,
) -> Result<(), AllocError> {
    let mut next = twin.copy_of_home()?;
    next.answer(request)?;
    if is_done(home, before, &next, log)? {
        mem::swap(twin, &mut next);
    }
    expect_same("the history before or after", home, twin, log)
}

/// Takes back all edits, which are at most n, and compares.
fn undo_each(
    home: &mut Tester,
    twin: &mut Tester,
    n: usize,
    log: &mut Log,
) -> Result<(), AllocError> {
    for _ in 0..=n {
        home.answer(&Request::Change(Change::Undo(None)))?;
        twin.answer(&Request::Change(Change::Undo(None)))?;
        compare_answers(home, twin, log)?;
        if !twin.said().starts_with("undone ") {
            break;
        }
    }
    log.compare("the first text", home.home.file(), twin.home.file())
}

/// With no failure, each edit that is done can be undone, and then there is none.
fn undo_all(home: &Tester, twin: &Tester, n: usize, log: &mut Log) -> Result<(), AllocError> {
    let mut home = home.copy_of_home()?;
    let mut twin = twin.copy_of_home()?;
    undo_each(&mut home, &mut twin, n, log)
}

/// A file, and requests that are run on it and an empty journal.
#[derive(Clone, Copy)]
pub struct Case<'c> {
    pub alloc: Global,
    pub file: &'c [u8],
    pub requests: &'c [Request],
}

impl<'c> Case<'c> {
    fn begin(&self, fails: &[Failing]) -> Result<Tester, AllocError> {
        let mut home = Tester::with(self.alloc, self.file, &[])?;
        for failing in fails {
            home.home.fail(failing.call, failing.left)?;
        }
        Ok(home)
    }

    /// Runs the requests with these failing calls, one by one and in one call, and then undoes what is done.
    fn run_with(&self, fails: &[Failing], log: &mut Log) -> Result<(), Fault> {
        log.row.clear();
        for failing in fails {
            write!(log.row, "failing {} {} ", failing.call, failing.left)?;
        }
        let mut together = self.begin(fails)?;
        together.answer_all(self.requests)?;
        self.run_beside(&together, fails, log)
    }

    fn run_beside(&self, together: &Tester, fails: &[Failing], log: &mut Log) -> Result<(), Fault> {
        let mut home = self.begin(fails)?;
        let mut twin = self.begin(&[])?;
        Ok(self.run_both(&mut home, &mut twin, together, log)?)
    }

    fn run_both(
        &self,
        home: &mut Tester,
        twin: &mut Tester,
        together: &Tester,
        log: &mut Log,
    ) -> Result<(), AllocError> {
        self.run_each(home, twin, together.said(), log)?;
        compare_contents(together, home, log)?;
        undo_all(home, twin, self.requests.len(), log)
    }

    /// Runs the requests one by one, which gives these answers.
    fn run_each(
        &self,
        home: &mut Tester,
        twin: &mut Tester,
        answers: &str,
        log: &mut Log,
    ) -> Result<(), AllocError> {
        let mut together = answers.lines();
        for request in self.requests {
            step(home, twin, request, log)?;
            let is_same = together.next() == Some(home.said());
            log.expect("the same answer in one call", is_same)?;
        }
        log.expect("no further answer", together.next().is_none())
    }

    /// Every list of one or two failing calls among the first ones.
    fn run_failing(&self, calls: u64, log: &mut Log) -> Result<(), Fault> {
        let end = calls.saturating_mul(3);
        for one in 0..end {
            self.run_with(&[Failing::of(one)], log)?;
            let next = (one / 3).saturating_add(1).saturating_mul(3);
            for two in next..end {
                self.run_with(&[Failing::of(one), Failing::of(two)], log)?;
            }
        }
        Ok(())
    }

    /// Every prefix of the journal that each request writes, beside the old file.
    fn run_cut(&self, before: &mut Tester, log: &mut Log) -> Result<(), AllocError> {
        for (place, request) in self.requests.iter().enumerate() {
            log.row.clear();
            write!(log.row, "its request {place}")?;
            self.cut_request(before, request, log)?;
        }
        Ok(())
    }

    fn cut_request(
        &self,
        before: &mut Tester,
        request: &Request,
        log: &mut Log,
    ) -> Result<(), AllocError> {
        let mut after = before.copy_of_home()?;
        after.answer(request)?;
        self.cut_each(before, &after, request, log)?;
        mem::swap(before, &mut after);
        Ok(())
    }

    /// Every prefix of the journal after a request that has the one before it.
    fn cut_each(
        &self,
        before: &Tester,
        after: &Tester,
        request: &Request,
        log: &mut Log,
    ) -> Result<(), AllocError> {
        let journal = after.home.journal();
        for cut in before.home.journal().len()..=journal.len() {
            log.count();
            log.cut = cut;
            let prefix = journal.get(..cut).unwrap_or(journal);
            let mut stopped = Tester::with(self.alloc, before.home.file(), prefix)?;
            self.go_on(&mut stopped, before, after, request, log)?;
        }
        log.cut = 0;
        Ok(())
    }

    /// Contents that a stop left open as those before, and the same request leads to the same contents.
    fn go_on(
        &self,
        stopped: &mut Tester,
        before: &Tester,
        after: &Tester,
        request: &Request,
        log: &mut Log,
    ) -> Result<(), AllocError> {
        expect_same("the history before", stopped, before, log)?;
        undo_all(stopped, before, self.requests.len(), log)?;
        stopped.answer(request)?;
        compare_answers(stopped, after, log)?;
        compare_contents(stopped, after, log)
    }

    /// Runs the requests with every list of one or two failing calls among the first ones, and on every prefix of each journal.
    pub fn run(&self, calls: u64, log: &mut Log) -> Result<(), Fault> {
        self.run_failing(calls, log)?;
        let mut before = self.begin(&[])?;
        Ok(self.run_cut(&mut before, log)?)
    }
}
