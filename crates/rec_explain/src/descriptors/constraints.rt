//! Constraints that are no expressions.
use crate::explanation::Explanation;
use crate::lines::shown::show_place;
use rec_text::{Breach, SHOWN};
use std::alloc::Global;

/// Shows where a constraint has its fault, and says what may be meant.
pub fn explain_constraint(alloc: Global, breach: &Breach, at: usize, said: &mut Explanation) {
    let Some(value) = &breach.word else {
        return;
    };
    if is_cut_before(value.as_slice(), at) {
        return;
    }
    let (line, place) = line_around(value.as_slice(), at);
    show_place(alloc, line, place, said);
    if let Some(hint) = meant_at(value.as_slice(), at) {
        said.add(&[hint]);
    }
}

/// The line of a text in which a place is, and the place in it.
fn line_around(text: &[u8], at: usize) -> (&[u8], usize) {
    let mut start: usize = 0;
    for line in text.split(|byte| *byte == b'\n') {
        let end = start.saturating_add(line.len());
        if at <= end {
            return (line, at.saturating_sub(start));
        }
        start = end.saturating_add(1);
    }
    (&[], 0)
}

/// Whether a text was cut, being too long to be shown, and a place lies past what is left.
fn is_cut_before(text: &[u8], at: usize) -> bool {
    text.len() > SHOWN && at >= text.len()
}

/// What may be meant where an expression has its fault, as far as it was kept.
pub fn meant_at(text: &[u8], at: usize) -> Option<&'static str> {
    let rest = text.get(at..).unwrap_or(&[]);
    if is_cut_before(text, at) {
        None
    } else if rest.is_empty() {
        Some("the expression isn't complete")
    } else if rest.starts_with(b"==") {
        Some("two values are compared by one =; there are no dates")
    } else if rest.starts_with(b"<<") || rest.starts_with(b">>") {
        Some("there are no dates, so neither << nor >>")
    } else if rest.starts_with(b".") && is_among_digits(text, at) {
        Some("numbers have no decimals")
    } else if rest.starts_with(b"0") && is_digit(rest, 1) {
        Some("a number that begins with 0 is octal, of the digits 0 to 7")
    } else {
        None
    }
}

/// Whether a digit stands before a place, or directly after the byte there.
fn is_among_digits(text: &[u8], at: usize) -> bool {
    (at > 0 && is_digit(text, at.saturating_sub(1))) || is_digit(text, at.saturating_add(1))
}

fn is_digit(text: &[u8], place: usize) -> bool {
    match text.get(place) {
        Some(byte) => byte.is_ascii_digit(),
        None => false,
    }
}
