//! The heading of a hunk: the first field of the record in which it stands.
ghost use Rattle.std.specs.Prelude.{◌≡◌};
ghost use Rattle.std.specs.Option.{is_some};
ghost use Rattle.rec_text.specs.Bytes.{continues_name as may_continue, is_letter as letter};
ghost use Rattle.rec_text.specs.Elements.{colon_of, name_end};
ghost use Rattle.rec_diff.specs.Diff.{begins_blank as blank_begins, found_at as found_at_line};
ghost use Rattle.rec_diff.specs.proving.Headings.{IsFoundTo};

use rec_text::{Space, begins_name, split_line};

/// Whether the first line is blank, or there is none.
pub(crate) fn begins_blank(text: &[u8]) -> bool
    ensures { result ≡ blank_begins text.now }
{
    for byte in text {
        if *byte == b'\n' {
            return true;
        }
        if !Space::Blank.has(*byte) {
            return false;
        }
    }
    true
}

fn is_letter(byte: u8) -> bool
    ensures { result ≡ letter byte }
{
    (b'A' <= byte && byte <= b'Z') || (b'a' <= byte && byte <= b'z')
}

/// Whether a name may go on with this byte.
fn continues_name(byte: u8) -> bool
    ensures { result ≡ may_continue byte }
{
    is_letter(byte) || (b'0' <= byte && byte <= b'9') || byte == b'_'
}

/// Whether what goes on with a name comes first, and then a colon.
fn ends_name(text: &[u8]) -> bool
    ensures { result ≡ is_some (name_end text.now) }
{
    for byte in text {
        if *byte == b':' {
            return true;
        }
        if !continues_name(*byte) {
            return false;
        }
    }
    false
}

/// Whether a name and a colon come first.
fn begins_field(line: &[u8]) -> bool
    ensures { result ≡ is_some (colon_of line.now) }
{
    match line.split_first() {
        Some((first, rest)) => begins_name(*first) && ends_name(rest),
        None => false,
    }
}

/// What is found after a line more.
fn found_at<'t>(found: &'t [u8], line: &'t [u8]) -> &'t [u8]
    ensures { result.now ≡ found_at_line found.now line.now }
{
    if begins_blank(line) {
        return &[];
    }
    if found.is_empty() && begins_field(line) {
        return line;
    }
    found
}

/// The field that is found in a text, and where its last line begins, which no newline ends.
#[derive(Clone, Copy)]
pub(crate) struct Found<'t> {
    pub field: &'t [u8],
    pub last_line: usize,
}

/// What is found up to the end of a text more, which begins at the start of a line.
pub(crate) fn find<'t>(found: &'t [u8], text: &'t [u8]) -> Found<'t>
    ensures { IsFoundTo found.now text.now result.field.now result.last_line }
{
    let mut field = found;
    let mut rest = text;
    while let Some((line, following)) = split_line(rest) {
        field = found_at(field, line);
        rest = following;
    }
    Found {
        field,
        last_line: text.len() - rest.len(),
    }
}
