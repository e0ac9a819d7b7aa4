//! The names of fields in the words of a request.
use crate::request::Ask;
use std::alloc::AllocError;

/// Adds the names of the fields by which records are selected.
pub(crate) fn add_names<'x>(by: &'x Ask, names: &mut Vec<&'x [u8]>) -> Result<(), AllocError> {
    match by {
        Ask::Expr(text) => add_words(text.as_slice(), names),
        Ask::Where(text) => Ok(names.push(start_of(text.as_slice(), b'='))?),
        Ask::All | Ask::Index(_) | Ask::Quick(_) => Ok(()),
    }
}

/// Adds the names in a list of fields.
pub(crate) fn add_listed<'x>(list: &'x [u8], names: &mut Vec<&'x [u8]>) -> Result<(), AllocError> {
    for item in list.split(|byte| *byte == b',') {
        names.push(start_of(item, b'['))?;
    }
    Ok(())
}

/// What stands before the first byte of this value, or all.
fn start_of(text: &[u8], end: u8) -> &[u8] {
    let at = text.iter().position(|byte| *byte == end);
    text.get(..at.unwrap_or(text.len())).unwrap_or(text)
}

/// Adds the names in an expression: its words that begin with a letter, without those in its texts.
fn add_words<'x>(expression: &'x [u8], names: &mut Vec<&'x [u8]>) -> Result<(), AllocError> {
    let mut quote = None;
    let mut start: usize = 0;
    let mut last = b' ';
    for (at, byte) in expression.iter().enumerate() {
        if quote.is_some() || !is_of_word(*byte) {
            add_name(expression.get(start..at), names)?;
            start = at.saturating_add(1);
        }
        quote = quote_after(quote, last, *byte);
        last = *byte;
    }
    add_name(expression.get(start..), names)
}

fn is_of_word(byte: u8) -> bool {
    byte.is_ascii_alphanumeric() || byte == b'_'
}

/// The quote of the text in which the byte after this one stands; within a text a backslash before a quote makes it a part of it.
fn quote_after(quote: Option<u8>, last: u8, byte: u8) -> Option<u8> {
    match quote {
        None if byte == b'\'' || byte == b'"' => Some(byte),
        Some(open) if byte == open && last != b'\\' => None,
        _ => quote,
    }
}

/// Adds a word, if it is a name.
fn add_name<'x>(word: Option<&'x [u8]>, names: &mut Vec<&'x [u8]>) -> Result<(), AllocError> {
    match word {
        Some(name) if name.first().is_some_and(|byte| byte.is_ascii_alphabetic()) => {
            Ok(names.push(name)?)
        }
        _ => Ok(()),
    }
}
