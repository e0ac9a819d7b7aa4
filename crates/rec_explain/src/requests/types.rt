//! The record types of a file, and their records.
use crate::explanation::Explanation;
use itoa::Buffer;
use rec_tools::{Bytes, EditRequest};
use std::alloc::{AllocError, Global};
use std::str;

/// Names the record types of a file.
pub fn explain_types(alloc: Global, file: &str, types: &[Bytes], said: &mut Explanation) {
    if let Ok(list) = list_of(alloc, types) {
        if list.is_empty() {
            said.add(&[file, ": there is no record type"]);
        } else {
            said.add(&[file, ": record types: ", list.as_str()]);
        }
    }
}

/// Record types in one line.
fn list_of(alloc: Global, types: &[Bytes]) -> Result<String, AllocError> {
    let mut list = String::new(alloc);
    for kind in types {
        if !list.is_empty() {
            list.push_str(", ")?;
        }
        list.push_str(str::from_utf8(kind.as_slice()).unwrap_or("?"))?;
    }
    Ok(list)
}

/// Says how many records an edit of all would take.
pub fn explain_deletion(file: &str, edit: &EditRequest, count: usize, said: &mut Explanation) {
    say_count(file, verb_of(edit), count, said);
}

fn say_count<'x>(file: &'x str, verb: &'x str, count: usize, said: &mut Explanation) {
    let mut digits = Buffer::new();
    said.add(&[
        file,
        ": --force would ",
        verb,
        digits.format(count),
        if count == 1 { " record" } else { " records" },
    ]);
}

/// What an edit does to records.
fn verb_of(edit: &EditRequest) -> &'static str {
    match edit {
        EditRequest::CommentOut(_) => "comment out ",
        _ => "delete ",
    }
}
