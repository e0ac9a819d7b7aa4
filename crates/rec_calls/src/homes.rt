//! Calls of `rec_tools`: a home in memory, of which a call fails, and the texts of its answers.
use crate::log::are;
use rec_text::{Bytes, Fault};
use rec_tools::{Change, DiffStyle, Home, Look, MemoryHome, Output, Request, Response, Which, run};
use std::alloc::Global;

/// A home with a file.
fn home_of(alloc: Global, file: &[u8]) -> Result<MemoryHome, Fault> {
    let file = Bytes::copy_of(alloc, file)?;
    let journal = Bytes::copy_of(alloc, b"")?;
    Ok(MemoryHome::new(alloc, file, journal))
}

/// Whether a home fails in call 0, and reads in call 1.
fn reads_again(alloc: Global, home: &mut MemoryHome) -> Result<bool, Fault> {
    if home.read(alloc, Which::Base).is_ok() || home.failures() != 1 {
        return Ok(false);
    }
    let file = home.read(alloc, Which::Base)?;
    Ok(are(file.as_slice(), b"A: 1\n"))
}

/// Whether a home takes new contents. Where it has no room for them, memory ran out.
fn puts(home: &mut MemoryHome) -> Result<bool, Fault> {
    match home.put(b"text", Some(b"A: 2\n")) {
        Ok(()) => Ok(are(home.journal(), b"text") && are(home.file(), b"A: 2\n")),
        Err(_) => {
            if are(home.file(), b"A: 1\n") {
                Err(Fault::OutOfMemory)
            } else {
                Ok(false)
            }
        }
    }
}

/// `MemoryHome`, of which call 0 fails.
pub fn a_call_of_a_home_fails(alloc: Global) -> Result<bool, Fault> {
    let mut home = home_of(alloc, b"A: 1\n")?;
    home.fail(0, 0)?;
    Ok(reads_again(alloc, &mut home)? && puts(&mut home)?)
}

/// A change that puts a 2 instead of the 1 of the file.
fn change(alloc: Global) -> Result<Change, Fault> {
    let text = Bytes::copy_of(alloc, b"Tool: recset\nNumber: 0\nFields: A\nSet: 2\n")?;
    Ok(Change::Batch { text, force: false })
}

/// The same, to be tried.
fn trial(alloc: Global) -> Result<Request, Fault> {
    let style = DiffStyle {
        name: Bytes::copy_of(alloc, b"db.rec")?,
        context: 3,
    };
    Ok(Request::Preview(change(alloc)?, style))
}

/// The answer to a request. Where it is refused, memory ran out.
fn answered(alloc: Global, home: &mut MemoryHome, request: &Request) -> Result<Response, Fault> {
    let mut out = Output {
        writer: Vec::new(alloc),
        failed: 0,
    };
    match run(alloc, home, &mut out, request) {
        Ok(response) => Ok(response),
        Err(_) => Err(Fault::OutOfMemory),
    }
}

/// Whether an answer has the file's text, and this one and a journal where something changes.
fn has_texts(response: &Response, after: Option<&[u8]>) -> bool {
    match response.texts() {
        Some(texts) => {
            are(texts.file.as_slice(), b"A: 1\n")
                && texts.journal.is_some() == after.is_some()
                && match (&texts.after, after) {
                    (Some(text), Some(wanted)) => are(text.as_slice(), wanted),
                    (None, None) => true,
                    _ => false,
                }
        }
        None => false,
    }
}

/// `Response`, of a check, a change that is tried, and the same that is made.
pub fn an_answer_has_its_texts(alloc: Global) -> Result<bool, Fault> {
    let mut home = home_of(alloc, b"A: 1\n")?;
    let checked = answered(alloc, &mut home, &Request::Look(Look::Check))?;
    let tried = answered(alloc, &mut home, &trial(alloc)?)?;
    let made = answered(alloc, &mut home, &Request::Change(change(alloc)?))?;
    Ok(
        has_texts(&checked, None)
            && has_texts(&tried, Some(b"A: 2\n"))
            && has_texts(&made, Some(b"A: 2\n")),
    )
}
