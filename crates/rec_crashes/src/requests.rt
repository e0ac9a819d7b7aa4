//! The requests, each made after those before it, and the texts to which undo of all edits leads.
use rec_tools::{Bytes, Change, Request};
use std::alloc::{AllocError, Global};

/// The text before the first request.
pub const TEXT: &str = "A: 1\n\nA: 2\n";

/// The text after the first request.
const FIRST: &str = "A: 5\n\nA: 2\n";

/// The request that forgets the first edit.
const FORGETTING: usize = 4;

/// The request that gives the file a whole text where it still has the one that was edited, and that text.
const WRITING: usize = 6;

const WRITTEN: &str = "A: 7\n\nA: 6\n";

/// The request that gives a file which doesn't read a whole text, and that text.
const MENDING: usize = 12;

const MENDED: &str = "A: 6\n\nA: 9\n";

/// What another program saves before the requests that adopt it.
const EDITED: &str = "A: 6\n";

const SORTED: &str = "A: 6\n\nA: 7\n";

const APPENDED: &str = "A: 6\n\nA: 7\n\nA: 8\n";

const CUT: &str = "A: 6\n\nA: 7\n\nA: 8";

const WITH_CR: &str = "A: 6\r\n\r\nA: 7\r\n\r\nA: 8\r\n";

const UNREADABLE: &str = "A: 6\n\nA 7\n";

const EMPTY: &str = "";

/// How many requests there are.
pub const REQUESTS: usize = 16;

/// The text that the next edit gives the file, whatever it holds. It is none of those above.
const NEXT: &str = "B: 3\n";

/// A change by another program.
#[derive(Clone, Copy)]
struct Outside {
    /// What it saved.
    saved: &'static str,
    /// The text of the history from which it is adopted; without one the file's own is looked for.
    old: Option<&'static str>,
}

/// What another program saves before the request of a number, which adopts it then.
fn outside_save(number: usize) -> Option<Outside> {
    let (saved, old) = match number {
        // a line is edited; the text is the one before the last edit
        5 => (EDITED, Some(FIRST)),
        // records are sorted; it is the one before the last edit again
        7 => (SORTED, Some(EDITED)),
        // a record is appended
        8 => (APPENDED, Some(SORTED)),
        // the last newline is gone
        9 => (CUT, Some(APPENDED)),
        // lines end in CR LF
        10 => (WITH_CR, Some(CUT)),
        // a file that doesn't read
        11 => (UNREADABLE, Some(WITH_CR)),
        // all is gone
        13 => (EMPTY, Some(MENDED)),
        // an older text is brought back
        14 => (WRITTEN, None),
        _ => return None,
    };
    Some(Outside { saved, old })
}

/// The request of a number.
pub fn request(alloc: Global, number: usize) -> Result<Request, AllocError> {
    Ok(Request::Change(change(alloc, number)?))
}

/// An edit that can follow each request, and is made whatever the file holds.
pub fn next_edit(alloc: Global) -> Result<Request, AllocError> {
    Ok(Request::Change(writing(alloc, NEXT, None)?))
}

fn change(alloc: Global, number: usize) -> Result<Change, AllocError> {
    match outside_save(number) {
        Some(Outside { old, .. }) => Ok(Change::Adopt(copy_any(alloc, old)?)),
        None => change_here(alloc, number),
    }
}

/// The change of a number that is none by another program.
fn change_here(alloc: Global, number: usize) -> Result<Change, AllocError> {
    let text = match number {
        0 => "Tool: recset\nNumber: 0\nFields: A\nSet: 5\n",
        1 => "Tool: recdel\nNumber: 1\n",
        2 => return Ok(Change::Undo(None)),
        3 => return Ok(Change::Redo(None)),
        FORGETTING => {
            return Ok(Change::Forget {
                newest: 1,
                dropped: false,
            });
        }
        WRITING => return writing(alloc, WRITTEN, Some(EDITED)),
        MENDING => return writing(alloc, MENDED, None),
        _ => "Tool: recins\nField: B\nValue: 3\n",
    };
    Ok(Change::Batch {
        text: Bytes::copy_of(alloc, text.as_bytes())?,
        force: false,
    })
}

/// A whole text, where a text is named only if the file still has that one.
fn writing(alloc: Global, text: &str, over: Option<&str>) -> Result<Change, AllocError> {
    let over = copy_any(alloc, over)?;
    Ok(Change::Write {
        text: Bytes::copy_of(alloc, text.as_bytes())?,
        over,
        force: false,
    })
}

fn copy_any(alloc: Global, text: Option<&str>) -> Result<Option<Bytes>, AllocError> {
    match text {
        Some(text) => Ok(Some(Bytes::copy_of(alloc, text.as_bytes())?)),
        None => Ok(None),
    }
}

/// What another program saves before the request of a number, which then stands there and not the last text.
pub fn saved_before(number: usize) -> Option<&'static str> {
    match outside_save(number) {
        Some(Outside { saved, .. }) => Some(saved),
        None => None,
    }
}

/// The text to which undo of all leads once this number of requests was made.
pub fn first_text(made: usize) -> &'static str {
    if made <= FORGETTING { TEXT } else { FIRST }
}
