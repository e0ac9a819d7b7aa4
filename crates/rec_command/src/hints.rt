//! What a user most likely meant by words that are refused.
mod edits;
mod missing;
mod places;
mod quoted;
mod values;

use crate::options::{Argument, Written};
use crate::tools::Tool;
use edits::{edits_given, number_given};
use missing::missing_option;
use quoted::Quoted;
use std::alloc::Global;
use std::convert::AsStr;
use std::fmt;
use values::{hyphenated_value, option_without_value, value_with_blanks};

/// What a user most likely meant. Words are those that were given.
#[derive(Drop)]
pub enum Hint<'w> {
    /// A value that begins with a hyphen and stands in a word of its own, and the option that it is meant for.
    Hyphenated {
        option: &'static Argument,
        value: &'w str,
    },
    /// An option that takes a value, and the word after it, which is none.
    WithoutValue {
        option: &'w str,
        next: &'w str,
    },
    /// A value with blanks that wasn't quoted, and its option.
    WithBlanks {
        option: &'w str,
        value: String,
    },
    /// The number of an edit that stands before FILE, where one was given.
    NumberFirst {
        tool: &'static str,
        number: Option<&'w str>,
        file: &'w str,
    },
    /// The number of an edit that `--through` takes.
    NumberThrough {
        tool: &'static str,
        number: &'w str,
        file: &'w str,
    },
    /// The path of a batch, where one was given.
    EditsGiven {
        path: Option<&'w str>,
        file: &'w str,
    },
    /// An option of GNU's tool that recu's lacks, by its letter, and its name.
    MissingLetter {
        letter: char,
        name: &'static str,
    },
    /// One by its name.
    MissingName(&'static str),
    OneFile,
}

impl fmt::Display for Hint<'_> {
    fn fmt<W: fmt::Write>(&self, f: &mut fmt::Formatter<W>) -> fmt::Result {
        match self {
            Hint::Hyphenated { option, value } => {
                f.write_str("a value that begins with a hyphen is given as ")?;
                match option.written {
                    Written::Letter(letter) => write!(f, "-{letter}={value}"),
                    _ => {
                        let name = option.name;
                        write!(f, "--{name}={value}")
                    }
                }
            }
            Hint::WithoutValue { option, next } => {
                write!(
                    f,
                    "{option} takes a value: {option}={next} for one that begins with a hyphen"
                )
            }
            Hint::WithBlanks { option, value } => {
                let value = Quoted::whole(value.as_str());
                write!(f, "quote a value with blanks: {option} {value}")
            }
            Hint::NumberFirst { tool, number, file } => {
                let number = number.unwrap_or("N");
                let file = Quoted::where_needed(file);
                write!(
                    f,
                    "give the number before FILE: recu {tool} {number} {file}"
                )
            }
            Hint::NumberThrough { tool, number, file } => {
                let file = Quoted::where_needed(file);
                write!(
                    f,
                    "give the number by --through: recu {tool} --through {number} {file}"
                )
            }
            Hint::EditsGiven { path, file } => {
                let path = Quoted::where_needed(path.unwrap_or("PATH"));
                let file = Quoted::where_needed(file);
                write!(f, "give the edits by -b: recu batch -b {path} {file}")
            }
            Hint::MissingLetter { letter, name } => {
                write!(
                    f,
                    "GNU's -{letter} ({name}) isn't in recu; see recu-from-gnu"
                )
            }
            Hint::MissingName(name) => {
                write!(f, "GNU's --{name} isn't in recu; see recu-from-gnu")
            }
            Hint::OneFile => f.write_str("a command takes one FILE"),
        }
    }
}

/// The hint for words that are refused by this text. There is none for words that don't begin with a tool, nor for some with a
/// control character.
pub fn hint_for<'w, S: AsStr>(alloc: Global, words: &'w [S], text: &str) -> Option<Hint<'w>> {
    let (first, given) = words.split_first()?;
    let tool = Tool::named(first.as_str())?;
    if have_control(given) {
        return None;
    }
    if text.starts_with("error: a value is required for '") {
        return match hyphenated_value(tool, given) {
            Some(hint) => Some(hint),
            None => option_without_value(tool, given),
        };
    }
    match refused_word(text) {
        Some(word) if word.starts_with('-') => match hyphenated_value(tool, given) {
            Some(hint) => Some(hint),
            None => missing_option(tool, word),
        },
        Some(_) => match hint_in_places(alloc, tool, given) {
            Some(hint) => Some(hint),
            None => Some(Hint::OneFile),
        },
        None => match hint_in_places(alloc, tool, given) {
            Some(hint) => Some(hint),
            None => hyphenated_value(tool, given),
        },
    }
}

/// The hint for words that stand where another one is looked for. There is none where the end of the options is marked.
fn hint_in_places<S: AsStr>(alloc: Global, tool: Tool, words: &[S]) -> Option<Hint<'_>> {
    if words.iter().any(|word| word.as_str() == "--") {
        return None;
    }
    if let Some(hint) = number_given(tool, words) {
        return Some(hint);
    }
    if let Some(hint) = edits_given(tool, words) {
        return Some(hint);
    }
    value_with_blanks(alloc, tool, words)
}

/// The word that clap's text says it didn't expect.
fn refused_word(text: &str) -> Option<&str> {
    let rest = text.strip_prefix("error: unexpected argument '")?;
    match rest.split_once('\'') {
        Some((word, _)) => Some(word),
        None => None,
    }
}

/// Whether one of the words has a control character.
pub fn have_control<S: AsStr>(words: &[S]) -> bool {
    words.iter().any(|word| has_control(word.as_str()))
}

fn has_control(word: &str) -> bool {
    word.chars().any(|letter| letter.is_control())
}
