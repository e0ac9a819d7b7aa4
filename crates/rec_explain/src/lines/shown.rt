//! Lines and texts of people, as far as they can be shown.
use crate::explanation::Explanation;
use rec_text::SHOWN;
use std::alloc::Global;
use std::str;

/// The text of bytes that can be shown in a line.
pub fn plain(bytes: &[u8]) -> Option<&str> {
    if bytes.len() > SHOWN {
        return None;
    }
    let text = str::from_utf8(bytes).ok()?;
    for character in text.chars() {
        if character.is_control() {
            return None;
        }
    }
    Some(text)
}

/// Shows a line of a file, and says of it what is seen badly.
pub fn explain_line(path: &str, number: usize, line: &[u8], said: &mut Explanation) {
    show_line(path, number, without_cr(line), said);
    show_ending(path, number, line, said);
}

/// Says of a line that it ends in CR LF, if it does.
pub fn show_ending(path: &str, number: usize, line: &[u8], said: &mut Explanation) {
    if without_cr(line).len() < line.len() {
        let ending = "this line ends in CR LF; those of a rec file end in LF alone";
        said.add_at(path, number, &[ending]);
    }
}

/// Shows a line of a file, if it can be shown.
pub fn show_line(path: &str, number: usize, line: &[u8], said: &mut Explanation) {
    match plain(line) {
        Some(line) if !line.is_empty() => said.add_at(path, number, &[line]),
        _ => {}
    }
}

/// A line without the CR at its end. One that is too long to be shown stays as it is, since it may be cut before its end.
pub fn without_cr(line: &[u8]) -> &[u8] {
    match line.strip_suffix(b"\r") {
        Some(start) if line.len() <= SHOWN => start,
        _ => line,
    }
}

/// Shows a text, with a caret under one of its bytes.
pub fn show_place(alloc: Global, text: &[u8], at: usize, said: &mut Explanation) {
    if let Some(shown) = plain(text)
        && let Ok(indent) = " ".repeat(alloc, width_before(text, at))
    {
        said.add(&[shown]);
        said.add(&[indent.as_str(), "^"]);
    }
}

/// How many characters stand before a byte of a text.
fn width_before(text: &[u8], at: usize) -> usize {
    text.iter().take(at).filter(|byte| **byte / 64 != 2).count()
}
