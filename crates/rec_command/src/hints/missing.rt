//! The options of GNU's tools that recu's lack.
use super::Hint;
use super::places::only_letter;
use crate::tools::Tool;

/// An option of GNU's tool that recu's lacks: its letter, if it has one, and its name.
struct Missing(Option<char>, &'static str);

static RECSEL: [Missing; 9] = [
    Missing(Some('d'), "include-descriptors"),
    Missing(Some('G'), "group-by"),
    Missing(Some('i'), "case-insensitive"),
    Missing(Some('j'), "join"),
    Missing(Some('m'), "random"),
    Missing(Some('s'), "password"),
    Missing(Some('S'), "sort"),
    Missing(Some('U'), "uniq"),
    Missing(None, "print-sexps"),
];

static RECINF: [Missing; 1] = [Missing(Some('S'), "print-sexps")];

static RECFIX: [Missing; 5] = [
    Missing(None, "decrypt"),
    Missing(None, "encrypt"),
    Missing(None, "no-external"),
    Missing(Some('s'), "password"),
    Missing(None, "sort"),
];

static RECINS: [Missing; 5] = [
    Missing(Some('i'), "case-insensitive"),
    Missing(Some('m'), "random"),
    Missing(None, "no-external"),
    Missing(Some('s'), "password"),
    Missing(None, "verbose"),
];

/// Those of recdel and of recset.
static OTHERS: [Missing; 4] = [
    Missing(Some('i'), "case-insensitive"),
    Missing(Some('m'), "random"),
    Missing(None, "no-external"),
    Missing(None, "verbose"),
];

/// The option of GNU's tool that a word gives, by its letter or its name, where recu's lacks it.
pub fn missing_option<'w>(tool: Tool, word: &str) -> Option<Hint<'w>> {
    let missing = missing_of(tool)?;
    if let Some(name) = word.strip_prefix("--") {
        let found = missing.iter().find(|option| option.1 == name)?;
        return Some(Hint::MissingName(found.1));
    }
    let letter = only_letter(word)?;
    let found = missing.iter().find(|option| option.0 == Some(letter))?;
    Some(Hint::MissingLetter {
        letter,
        name: found.1,
    })
}

fn missing_of(tool: Tool) -> Option<&'static [Missing]> {
    match tool {
        Tool::RecSel => Some(RECSEL.as_slice()),
        Tool::RecInf => Some(RECINF.as_slice()),
        Tool::RecFix => Some(RECFIX.as_slice()),
        Tool::RecIns => Some(RECINS.as_slice()),
        Tool::RecDel | Tool::RecSet => Some(OTHERS.as_slice()),
        _ => None,
    }
}
