//! Lines that are no field, comment or blank line.
use crate::explanation::Explanation;
use crate::lines::shown::{show_ending, show_line, without_cr};
use rec_text::SHOWN;

/// Shows a line that is no field, comment or blank line, and says why it is none.
pub fn explain_bad_line(path: &str, number: usize, line: &[u8], said: &mut Explanation) {
    if line.starts_with(b"\xEF\xBB\xBF") {
        return said.add_at(path, number, &["a byte order mark, which no rec file has"]);
    }
    show_line(path, number, without_cr(line), said);
    if let Some(reason) = reason_of(without_cr(line)) {
        said.add(&[reason]);
    }
    show_ending(path, number, line, said);
}

/// Shows a line that ends in a backslash with no line after it, and says what to do.
pub fn explain_open_line(path: &str, number: usize, line: &[u8], said: &mut Explanation) {
    show_line(path, number, without_cr(line), said);
    said.add(&[
        "a backslash at the end joins a line with the next, and there is none: take it away, or put an empty line after it",
    ]);
}

/// Why a line is no field; an empty one may be one but for its end.
fn reason_of(line: &[u8]) -> Option<&'static str> {
    if is_conflict(line) {
        return Some("a mark of a merge conflict: choose what is to stand, and take the marks away");
    }
    match line.first()? {
        b'+' => Some(
            "a line that begins with + goes on with the field directly above it, and there is none",
        ),
        b' ' | b'\t' => Some("a field begins at the start of its line, with no blank before it"),
        _ => reason_of_name(line),
    }
}

/// Whether a line begins as version control marks the sides of a conflict.
fn is_conflict(line: &[u8]) -> bool {
    line.starts_with(b"<<<<<<<")
        || line.starts_with(b"=======")
        || line.starts_with(b">>>>>>>")
        || line.starts_with(b"|||||||")
}

/// Why what a line begins with is no name with a colon after it.
fn reason_of_name(line: &[u8]) -> Option<&'static str> {
    let Some(colon) = line.iter().position(|byte| *byte == b':') else {
        // a longer one is cut, and may have a colon
        return if line.len() > SHOWN {
            None
        } else {
            Some("a field needs a colon after its name, as in Name: value")
        };
    };
    let name = line.get(..colon)?;
    if has_blank(name.trim_ascii_end()) {
        Some("a name has no blanks; its words may be joined by _")
    } else if has_blank(name) {
        Some("the colon of a field stands directly after its name")
    } else {
        Some(
            "a name begins with a letter from a to z, small or capital, and goes on with these, digits and _",
        )
    }
}

fn has_blank(text: &[u8]) -> bool {
    text.contains(&b' ') || text.contains(&b'\t')
}
