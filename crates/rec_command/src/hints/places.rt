//! Which of the words of a tool are options, which are their values, and which stand in a place of their own.
use crate::options::{Argument, Takes, Written};
use std::convert::AsStr;

/// The place of the first word from this one on that is no option and no value of one. This one is no value.
pub fn next_place<S: AsStr>(
    arguments: &'static [Argument],
    words: &[S],
    from: usize,
) -> Option<usize> {
    let mut is_value = false;
    for (place, word) in words.iter().enumerate().skip(from) {
        let word = word.as_str();
        if is_value {
            is_value = false;
        } else if is_hyphenated(word) {
            is_value = waiting(arguments, word).is_some();
        } else {
            return Some(place);
        }
    }
    None
}

/// Whether a word begins with a hyphen, and is neither that alone nor the end of the options.
pub fn is_hyphenated(word: &str) -> bool {
    word.starts_with('-') && word != "-" && word != "--"
}

/// Whether a word is an option among these arguments: one letter or a name, with a value or without.
pub fn is_option(arguments: &'static [Argument], word: &str) -> bool {
    let option = match word.split_once('=') {
        Some((option, _)) => option,
        None => word,
    };
    asks_for_help(option)
        || match option.strip_prefix("--") {
            Some(name) => with_name(arguments, name).is_some(),
            None => match only_letter(option) {
                Some(letter) => with_letter(arguments, letter).is_some(),
                None => false,
            },
        }
}

/// Whether a word asks for help or for the version.
pub fn asks_for_help(word: &str) -> bool {
    matches!(word, "-h" | "--help" | "-V" | "--version")
}

/// The letter of a word that is a hyphen and a letter.
pub fn only_letter(word: &str) -> Option<char> {
    let mut letters = word.strip_prefix("-")?.chars();
    let letter = letters.next()?;
    match letters.next() {
        None => Some(letter),
        Some(_) => None,
    }
}

/// The option that a word gives without the value that it takes.
pub fn waiting(arguments: &'static [Argument], word: &str) -> Option<&'static Argument> {
    let option = match word.strip_prefix("--") {
        Some(name) => with_name(arguments, name)?,
        None => last_of(arguments, word.strip_prefix("-")?)?,
    };
    if is_flag(option) { None } else { Some(option) }
}

/// The option that letters give last, after flags.
fn last_of(arguments: &'static [Argument], letters: &str) -> Option<&'static Argument> {
    let (last, flags) = letters.as_bytes().split_last()?;
    for flag in flags {
        if !is_flag(with_letter(arguments, char::from(*flag))?) {
            return None;
        }
    }
    with_letter(arguments, char::from(*last))
}

fn is_flag(option: &Argument) -> bool {
    matches!(option.takes, Takes::Nothing)
}

fn with_name(arguments: &'static [Argument], name: &str) -> Option<&'static Argument> {
    arguments.iter().find(|argument| match argument.written {
        Written::Name | Written::Both(_) => argument.name == name,
        _ => false,
    })
}

fn with_letter(arguments: &'static [Argument], letter: char) -> Option<&'static Argument> {
    arguments.iter().find(|argument| match argument.written {
        Written::Letter(own) | Written::Both(own) => own == letter,
        _ => false,
    })
}
