//! Fields of descriptors that are refused.
use crate::descriptors::constraints::explain_constraint;
use crate::descriptors::rules::{rule_of, rule_of_word};
use crate::explanation::Explanation;
use crate::lines::shown::{explain_line, plain};
use itoa::Buffer;
use rec_sex::trimmed;
use rec_text::{BadField, Breach, Broken};
use std::alloc::Global;

/// Shows the line at which a field of a descriptor begins, and says which rule the field breaks.
pub fn explain_field(alloc: Global, path: &str, field: &BadField, said: &mut Explanation) {
    let line = field.line.as_slice();
    explain_line(path, field.number, line, said);
    match (field.breach.broken, field.other) {
        (Broken::Second, Some(other)) => say_second(name_in(line), other, said),
        (Broken::TypeTaken, Some(other)) => say_taken(&field.breach, other, said),
        (Broken::Expression { at }, _) => explain_constraint(alloc, &field.breach, at, said),
        (broken, _) => say_rule(broken, word_of(&field.breach), said),
    }
}

/// The name of the field that begins with a line.
fn name_in(line: &[u8]) -> &str {
    let name = line.split(|byte| *byte == b':').next();
    plain(name.unwrap_or(&[])).unwrap_or("field of this name")
}

fn say_second(name: &str, line: usize, said: &mut Explanation) {
    let mut digits = Buffer::new();
    said.add(&[
        "a descriptor has one ",
        name,
        ", and line ",
        digits.format(line),
        " has it",
    ]);
}

/// The word that breaks a rule, without blanks at its ends.
pub fn word_of(breach: &Breach) -> &[u8] {
    match &breach.word {
        Some(word) => trimmed(word.as_slice()),
        None => &[],
    }
}

/// Names the line of the descriptor that a type has.
fn say_taken(breach: &Breach, line: usize, said: &mut Explanation) {
    if let Some(kind) = plain(word_of(breach)) {
        let mut digits = Buffer::new();
        let line = digits.format(line);
        said.add(&["type ", kind, " has a descriptor in line ", line]);
    }
}

/// Says a rule, and the word that breaks it as far as that can be shown.
fn say_rule(broken: Broken, word: &[u8], said: &mut Explanation) {
    match (rule_of_word(broken, word), plain(word)) {
        (Some(rule), Some(word)) => say_word(word, rule, said),
        (Some(rule), None) => said.add(&[rule]),
        (None, _) => said.add(&[rule_of(broken)]),
    }
}

fn say_word<'x>(word: &'x str, rule: &'x str, said: &mut Explanation) {
    said.add(&[word, ": ", rule]);
}
