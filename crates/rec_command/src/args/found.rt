//! What the words give of an option.
ghost use Rattle.std.specs.Prelude.{◌≡◌, map, string_bytes, IfOk, Some, option_map};
ghost use Rattle.clap.specs.Words.{first_of, found_of, rows_of};
ghost use Rattle.rec_command.specs.Refusals.{IsOrRefuses};
ghost use Rattle.rec_command.specs.Words.{before_file_given, file_given, has_flag, texts_given};

use super::refusal::Refusal;
use clap::ArgMatches;
use rec_tools::Bytes;
use std::alloc::{AllocError, Global};

/// The text of an option or of a word, as it stands there.
pub fn given<'m>(options: &'m ArgMatches, name: &str) -> Option<&'m str>
    ensures { option_map (λ text. text.now) result ≡ first_of name.now (rows_of (found_of options.now)) }
{
    options.get_str(name)
}

/// The word before FILE, where one stands there.
pub fn before_file<'m>(options: &'m ArgMatches) -> Option<&'m str>
    ensures { option_map (λ text. text.now) result ≡ before_file_given (rows_of (found_of options.now)) }
{
    match given(options, "second") {
        Some(_) => given(options, "file"),
        None => None,
    }
}

/// FILE, as it stands there.
pub fn file<'m>(options: &'m ArgMatches) -> Option<&'m str>
    ensures { option_map (λ text. text.now) result ≡ file_given (rows_of (found_of options.now)) }
{
    match given(options, "second") {
        Some(second) => Some(second),
        None => given(options, "file"),
    }
}

/// The name of FILE for what is printed: as it stands there.
pub fn file_name(alloc: Global, options: &ArgMatches) -> Result<Bytes, Refusal>
    ensures { IsOrRefuses (λ name. file_given (rows_of (found_of options.now)) ≡ Some name) result }
{
    match file(options) {
        Some(file) => Ok(Bytes::copy_of(alloc, file.as_bytes())?),
        None => Err(Refusal::Rule("FILE is needed")),
    }
}

/// A copy of a path.
pub fn copied(alloc: Global, path: Option<&str>) -> Result<Option<String>, AllocError>
    ensures { IfOk result (λ copy. option_map string_bytes copy ≡ option_map (λ path. path.now) path.entry) }
{
    match path {
        Some(path) => Ok(Some(String::from_str(alloc, path)?)),
        None => Ok(None),
    }
}

/// A copy of the text of an option.
pub fn text(alloc: Global, options: &ArgMatches, name: &str) -> Result<Option<Bytes>, AllocError>
    ensures { IfOk result (λ text. text ≡ first_of name.now (rows_of (found_of options.now))) }
{
    match given(options, name) {
        Some(text) => Ok(Some(Bytes::copy_of(alloc, text.as_bytes())?)),
        None => Ok(None),
    }
}

/// Copies of the texts of an option that can be given several times.
pub fn texts(alloc: Global, options: &ArgMatches, name: &str) -> Result<Vec<Bytes>, AllocError>
    ensures { IfOk result (λ texts. texts.items ≡ texts_given name.now (rows_of (found_of options.now))) }
{
    copies(alloc, options.get_strs(name).unwrap_or(&[]))
}

/// Copies of these texts.
fn copies(alloc: Global, texts: &[&str]) -> Result<Vec<Bytes>, AllocError>
    ensures { IfOk result (λ copies. copies.items ≡ map (λ text. text.now) texts.now) }
{
    let mut copies = Vec::with_capacity(alloc, texts.len())?;
    for text in texts {
        copies.push(Bytes::copy_of(alloc, text.as_bytes())?)?;
    }
    Ok(copies)
}

/// Whether a flag is given.
pub fn is_given(options: &ArgMatches, name: &str) -> bool
    ensures { result ≡ has_flag name.now (rows_of (found_of options.now)) }
{
    options.get_one(name).unwrap_or(false)
}
