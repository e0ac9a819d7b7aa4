//! Values that don't come to their options.
use super::Hint;
use super::places::{asks_for_help, is_hyphenated, is_option, next_place, waiting};
use crate::options::{Argument, Takes};
use crate::tools::Tool;
use std::alloc::{AllocError, Global};
use std::convert::AsStr;

/// The first value that begins with a hyphen and stands in a word of its own. A word that is an option of the tool is no
/// value: the one before it has none.
pub fn hyphenated_value<S: AsStr>(tool: Tool, words: &[S]) -> Option<Hint<'_>> {
    let arguments = tool.usage().arguments;
    for pair in words.windows(2) {
        let word = pair[0].as_str();
        if word == "--" {
            return None;
        }
        let value = pair[1].as_str();
        if is_hyphenated(value) && !is_option(arguments, value) {
            if let Some(option) = waiting(arguments, word) {
                return Some(Hint::Hyphenated { option, value });
            }
        }
    }
    None
}

/// The first option that takes a value, and has the end of the options after it, or a word that asks for help.
pub fn option_without_value<S: AsStr>(tool: Tool, words: &[S]) -> Option<Hint<'_>> {
    let arguments = tool.usage().arguments;
    for pair in words.windows(2) {
        let (option, next) = (pair[0].as_str(), pair[1].as_str());
        if (next == "--" || asks_for_help(next)) && waiting(arguments, option).is_some() {
            return Some(Hint::WithoutValue { option, next });
        }
    }
    None
}

/// The value with blanks that wasn't quoted: it goes on in the words after it, up to the last, which is FILE. No other word
/// stands in a place of its own, and none of the value's looks like a path.
pub fn value_with_blanks<S: AsStr>(alloc: Global, tool: Tool, words: &[S]) -> Option<Hint<'_>> {
    let arguments = tool.usage().arguments;
    let place = next_place(arguments, words, 0)?;
    let option = words.get(place.checked_sub(2)?)?.as_str();
    if !takes_text(waiting(arguments, option)?) {
        return None;
    }
    let rest = words.get(place..)?;
    let next_option = rest.iter().position(|word| is_hyphenated(word.as_str()));
    let end = next_option.unwrap_or(rest.len());
    if next_place(arguments, rest, end).is_some() {
        return None;
    }
    let (_file, others) = rest.get(..end)?.split_last()?;
    if others.is_empty() || others.iter().any(|word| is_path(word.as_str())) {
        return None;
    }
    let first = words.get(place.checked_sub(1)?)?.as_str();
    let value = joined(alloc, first, others).ok()?;
    Some(Hint::WithBlanks { option, value })
}

/// Whether an option takes a value that may have blanks.
fn takes_text(option: &Argument) -> bool {
    match option.takes {
        Takes::Value(name) | Takes::Values(name) => {
            matches!(name, "VALUE" | "TEXT" | "EXPR" | "NAME=VALUE")
        }
        Takes::Nothing => false,
    }
}

/// Whether a word looks like the path of a file.
fn is_path(word: &str) -> bool {
    word.contains('/') || word.contains('.')
}

/// A word and these others, with a blank between them.
fn joined<S: AsStr>(alloc: Global, first: &str, others: &[S]) -> Result<String, AllocError> {
    let mut value = String::from_str(alloc, first)?;
    for word in others {
        value.push_str(" ")?;
        value.push_str(word.as_str())?;
    }
    Ok(value)
}
