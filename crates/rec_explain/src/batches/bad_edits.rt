//! Records of a batch that are no edit, as `docs/editing.md` says what an edit has.
use crate::explanation::Explanation;
use crate::lines::bad_lines::{explain_bad_line, explain_open_line};
use crate::lines::shown::{show_line, without_cr};
use itoa::Buffer;
use rec_text::{BadEdit, Needed, Reason, Wanted, first_line, from_line};
use std::str;

/// Shows the line at which a batch is refused, and says why it can't be read there, or why the record is no edit.
pub fn explain_bad_batch(
    path: &str,
    batch: &[u8],
    line: usize,
    reason: Option<&Reason>,
    said: &mut Explanation,
) {
    let shown = first_line(from_line(batch, line));
    match reason {
        Some(Reason::BadLine(_)) => explain_bad_line(path, line, shown, said),
        Some(Reason::OpenLine(_)) => explain_open_line(path, line, shown, said),
        _ => show_line(path, line, without_cr(shown), said),
    }
    if let Some(Reason::Edit(wrong)) = reason {
        say(path, batch, wrong, said);
    }
}

/// Says what is wrong with an edit, and in which line.
fn say(path: &str, batch: &[u8], wrong: &BadEdit, said: &mut Explanation) {
    match wrong {
        BadEdit::Lacks(needed) => said.add(&[lack_of(*needed)]),
        BadEdit::Unpaired { names, values } => say_counts(*names, *values, said),
        BadEdit::Unknown { line, tool } => {
            let (tool, name) = (as_text(tool.as_slice()), name_in(batch, *line));
            say_unknown(path, *line, tool, name, capital_hint(name), said);
        }
        BadEdit::Repeated { line } => {
            let name = name_in(batch, *line);
            said.add_at(path, *line, &[name, " stands in this edit already"]);
        }
        BadEdit::Value {
            line,
            wanted,
            is_padded,
        } => {
            let (name, hint) = (name_in(batch, *line), blank_hint(*is_padded));
            say_value(path, *line, name, word_of(*wanted), hint, said);
        }
        BadEdit::Excluded { line, other } => {
            let (name, other) = (name_in(batch, *line), name_in(batch, *other));
            said.add_at(path, *line, &[name, " doesn't stand beside ", other]);
        }
    }
}

fn say_unknown<'x>(
    path: &str,
    line: usize,
    tool: &'x str,
    name: &'x str,
    hint: &'x str,
    said: &mut Explanation,
) {
    said.add_at(path, line, &[tool, " takes no ", name, hint]);
}

/// What is said of a name that no tool takes as it is written.
fn capital_hint(name: &str) -> &'static str {
    match name.as_bytes() {
        [b'a'..=b'z', ..] => ": the names of fields begin with a capital letter",
        _ => "",
    }
}

fn say_value<'x>(
    path: &str,
    line: usize,
    name: &'x str,
    wanted: &'x str,
    hint: &'x str,
    said: &mut Explanation,
) {
    said.add_at(path, line, &["the value of ", name, " is ", wanted, hint]);
}

/// What is said of a value that has blanks around it.
fn blank_hint(is_padded: bool) -> &'static str {
    if is_padded {
        ", without a blank around it"
    } else {
        ""
    }
}

fn say_counts(names: usize, values: usize, said: &mut Explanation) {
    let (mut of_names, mut of_values) = (Buffer::new(), Buffer::new());
    said.add(&[
        "each Field has its Value: this edit has ",
        of_names.format(names),
        " of the one and ",
        of_values.format(values),
        " of the other",
    ]);
}

fn lack_of(needed: Needed) -> &'static str {
    match needed {
        Needed::Tool => "an edit needs a Tool: recins, recdel, recset or recfix",
        Needed::Capital => {
            "an edit needs a Tool, with a capital: recins, recdel, recset or recfix"
        }
        Needed::Fields => "recset needs Fields",
        Needed::Action => "recset needs one of Set, Add, SetAdd, Rename, Delete and Comment",
    }
}

fn word_of(wanted: Wanted) -> &'static str {
    match wanted {
        Wanted::Tool => "recins, recdel, recset or recfix",
        Wanted::Yes => "yes",
        Wanted::No => "no",
    }
}

/// The name of the field that begins in a line of a batch.
fn name_in(batch: &[u8], line: usize) -> &str {
    let field = first_line(from_line(batch, line));
    as_text(
        field
            .splitn(2, |byte| *byte == b':')
            .next()
            .unwrap_or(field),
    )
}

/// A name as a text.
fn as_text(name: &[u8]) -> &str {
    str::from_utf8(name).unwrap_or("?")
}
