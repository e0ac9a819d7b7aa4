//! What is said of edits that were undone or redone one after another.
ghost use Rattle.std.specs.Prelude.{All};
ghost use Rattle.rec_explain.specs.Lines.{AreLines, IsShown};

use crate::explanation::Explanation;
use crate::lines::shown::plain;
use crate::notes::{done, say};
use rec_tools::{Direction, Through};
use std::alloc::{AllocError, Global};

/// Says how far moves to the edit of a number went: on a terminal, and always where they didn't come to it.
pub fn explain_through(
    alloc: Global,
    file: &str,
    direction: Direction,
    number: usize,
    through: &Through,
    on_terminal: bool,
) -> Vec<u8>
    ensures shown { All IsShown result.items }
    ensures whole { AreLines result.items }
{
    let mut said = Explanation::new(alloc);
    if through.answer.is_ok() && through.last != Some(number) {
        say(turned(alloc, direction, through), &mut said);
        let name = plain(file.as_bytes()).unwrap_or("the file");
        said.add(&[name, ": edited by another program meanwhile"]);
    } else if on_terminal || through.answer.is_err() {
        say(moved(alloc, direction, through), &mut said);
    }
    said.into_lines()
}

/// The edits from the first to the last, or the only one; or nothing, where none was moved.
fn moved(alloc: Global, direction: Direction, through: &Through) -> Result<String, AllocError> {
    let (Some(first), Some(last)) = (through.first, through.last) else {
        return Ok(String::new(alloc));
    };
    let word = word(direction);
    match &through.answer {
        _ if first != last => format!(in alloc; "{word}: edits {first} to {last}"),
        Ok(reply) => done(alloc, reply),
        Err(_) => format!(in alloc; "{word}: edit {first}"),
    }
}

/// The first edit and the last, where another program came in between, and those between are not known.
fn turned(alloc: Global, direction: Direction, through: &Through) -> Result<String, AllocError> {
    let (Some(first), Some(last)) = (through.first, through.last) else {
        return Ok(String::new(alloc));
    };
    let word = word(direction);
    format!(in alloc; "{word}: edit {first} first, and edit {last} last")
}

fn word(direction: Direction) -> &'static str {
    match direction {
        Direction::Backward => "undone",
        Direction::Forward => "redone",
    }
}
