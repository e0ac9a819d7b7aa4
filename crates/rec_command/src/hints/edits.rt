//! The number of an edit, and the edits of a batch, that stand where they are not looked for.
use super::Hint;
use super::places::next_place;
use crate::tools::Tool;
use std::convert::AsStr;

/// The number of an edit stands before FILE, or after `--through`.
pub fn number_given<S: AsStr>(tool: Tool, words: &[S]) -> Option<Hint<'_>> {
    let (number, file) = number_and_file(tool, words)?;
    let name = tool.usage().name;
    match (tool, number) {
        (Tool::Undo | Tool::Redo, Some(number)) => Some(Hint::NumberThrough {
            tool: name,
            number,
            file,
        }),
        (Tool::Revert | Tool::Show | Tool::Forget, _) => Some(Hint::NumberFirst {
            tool: name,
            number,
            file,
        }),
        _ => None,
    }
}

/// The number, where one is given, and FILE, where the tool doesn't take them as they stand.
fn number_and_file<S: AsStr>(tool: Tool, words: &[S]) -> Option<(Option<&str>, &str)> {
    match in_places(tool, words)? {
        (file, None, _) if needs_number(tool) && !is_number(file) => Some((None, file)),
        (file, Some(number), None) if is_number(number) && !is_number(file) => {
            Some((Some(number), file))
        }
        (number, Some(file), None)
            if takes_file_alone(tool) && is_number(number) && !is_number(file) => {
            Some((Some(number), file))
        }
        (number, Some(other), Some(file))
            if is_number(number) && is_number(other) && !is_number(file) => {
            Some((Some(number), file))
        }
        _ => None,
    }
}

fn needs_number(tool: Tool) -> bool {
    matches!(tool, Tool::Revert | Tool::Forget)
}

fn takes_file_alone(tool: Tool) -> bool {
    matches!(tool, Tool::Undo | Tool::Redo)
}

fn is_number(word: &str) -> bool {
    !word.is_empty() && word.bytes().all(|byte| byte.is_ascii_digit())
}

/// The path of a batch is given by `-b`.
pub fn edits_given<S: AsStr>(tool: Tool, words: &[S]) -> Option<Hint<'_>> {
    if !matches!(tool, Tool::Batch) || words.iter().any(|word| word.as_str().starts_with("-b")) {
        return None;
    }
    match in_places(tool, words)? {
        (file, None, _) => Some(Hint::EditsGiven { path: None, file }),
        (path, Some(file), None) => Some(Hint::EditsGiven {
            path: Some(path),
            file,
        }),
        _ => None,
    }
}

/// The words in places of their own, where they are one, two or three.
fn in_places<S: AsStr>(tool: Tool, words: &[S]) -> Option<(&str, Option<&str>, Option<&str>)> {
    let arguments = tool.usage().arguments;
    let first = next_place(arguments, words, 0)?;
    let one = words.get(first)?.as_str();
    let Some(second) = next_place(arguments, words, first.saturating_add(1)) else {
        return Some((one, None, None));
    };
    let two = words.get(second)?.as_str();
    let Some(third) = next_place(arguments, words, second.saturating_add(1)) else {
        return Some((one, Some(two), None));
    };
    match next_place(arguments, words, third.saturating_add(1)) {
        Some(_) => None,
        None => Some((one, Some(two), Some(words.get(third)?.as_str()))),
    }
}
