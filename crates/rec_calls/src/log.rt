//! Which cases are run, and which of them found something else than is written.
use rec_text::Fault;
use std::alloc::Global;

/// Whether bytes are those that are wanted.
pub fn are(found: &[u8], wanted: &[u8]) -> bool {
    found == wanted
}

#[derive(Drop)]
pub struct Log {
    /// The name of a case, or `list`; without it all are run.
    word: Option<String>,
    pub text: String,
    pub passed: usize,
    pub failed: usize,
}

impl Log {
    pub fn new(alloc: Global, word: Option<String>) -> Log {
        Log {
            word,
            text: String::new(alloc),
            passed: 0,
            failed: 0,
        }
    }

    /// Whether a case is to be run. Its name is told where names are asked for.
    pub fn is_asked(&mut self, name: &str) -> bool {
        match &self.word {
            None => true,
            Some(word) => {
                if word.as_str() == "list" {
                    let _ = write!(self.text, "{name}\n");
                }
                word.as_str() == name
            }
        }
    }

    /// A case has ended: all was as it is written, or not, or a call was refused.
    pub fn end(&mut self, name: &str, end: Result<bool, Fault>) {
        match end {
            Ok(true) => {
                self.passed = self.passed.saturating_add(1);
                return;
            }
            Ok(false) => {
                let _ = write!(self.text, "{name}: otherwise\n");
            }
            Err(fault) => {
                let _ = write!(self.text, "{name}: {fault}\n");
            }
        }
        self.failed = self.failed.saturating_add(1);
    }
}
