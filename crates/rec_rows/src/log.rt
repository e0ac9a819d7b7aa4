//! What was found so far.
use crate::cells::spell;
use rec_text::Fault;
use std::alloc::{AllocError, Global};

/// The lines on cases that differ, and how much was run.
#[derive(Drop)]
pub struct Log {
    pub text: String,
    /// The case that is run, with its row and the length to which its journal is cut.
    name: String,
    pub row: String,
    pub cut: usize,
    /// How many requests of the case were run.
    place: usize,
    cases: usize,
    requests: usize,
    /// Where requests are run again when a growth was refused: how many were.
    pub again: Option<usize>,
}

impl Log {
    pub fn new(alloc: Global) -> Log {
        Log {
            text: String::new(alloc),
            name: String::new(alloc),
            row: String::new(alloc),
            cut: 0,
            place: 0,
            cases: 0,
            requests: 0,
            again: None,
        }
    }

    /// Begins a case.
    pub fn begin(&mut self, name: String) {
        self.name = name;
        self.row.clear();
        self.cut = 0;
        self.place = 0;
        self.cases = self.cases.saturating_add(1);
    }

    /// Counts a request.
    pub fn count(&mut self) {
        self.place = self.place.saturating_add(1);
        self.requests = self.requests.saturating_add(1);
    }

    /// Counts a request that is run again.
    pub fn count_again(&mut self) {
        if let Some(again) = &mut self.again {
            *again = again.saturating_add(1);
        }
    }

    /// The last line: how much was run.
    pub fn end(&mut self) -> Result<(), AllocError> {
        write!(
            self.text,
            "{} cases, {} requests",
            self.cases, self.requests
        )?;
        if let Some(again) = self.again {
            write!(self.text, ", {again} again")?;
        }
        self.text.push('\n')
    }

    fn put_place(&mut self) -> Result<(), AllocError> {
        write!(self.text, "{}", self.name)?;
        if !self.row.as_str().is_empty() {
            write!(self.text, ", {}", self.row)?;
        }
        if self.cut > 0 {
            write!(self.text, ", cut at {}", self.cut)?;
        }
        write!(self.text, ", request {}: ", self.place)
    }

    /// A line on what was found, where it is otherwise than what is wanted.
    pub fn compare(&mut self, what: &str, found: &[u8], wanted: &[u8]) -> Result<(), AllocError> {
        if found == wanted {
            return Ok(());
        }
        self.put_place()?;
        write!(self.text, "{what}: ")?;
        spell(&mut self.text, found)?;
        self.text.push('\n')
    }

    /// A line, where a fact that is wanted doesn't hold.
    pub fn expect(&mut self, what: &str, holds: bool) -> Result<(), AllocError> {
        if holds {
            return Ok(());
        }
        self.put_place()?;
        write!(self.text, "otherwise: {what}\n")
    }

    /// A line, where a case can't be run.
    pub fn refuse(&mut self, fault: &Fault) -> Result<(), AllocError> {
        self.put_place()?;
        write!(self.text, "{fault}\n")
    }
}
