//! Lines at the start and the end of a text.
ghost use Rattle.std.specs.Prelude.{◌≡◌, ◌≤◌, ◌+◌, [], length, nat_lt, MatchOption};
ghost use Rattle.rec_diff.specs.Lines.{at_line as is_at_line, line_count as count_of_lines, lines};
ghost use Rattle.rec_diff.specs.Lines.{first_lines as lines_at_start, last_lines as lines_at_end};
ghost use Rattle.rec_diff.specs.Lines.{newlines as count_of_newlines};
ghost use Rattle.rec_diff.specs.WholeLines.{same_start as start_of_both, same_end as end_of_both, same_lines};
ghost use Rattle.rec_diff.specs.proving.Turns.{BeginAlike, EndAlike, IsFirstLine, IsLastLine, IsOpenFrom};

use memchr::{memchr_iter, memrchr};
use rec_text::{ends_newline, split_line};

pub(crate) fn newlines(bytes: &[u8]) -> usize
    ensures count { result ≡ count_of_newlines bytes.now }
    ensures bound { result ≤ length bytes.now }
{
    memchr_iter(b'\n', bytes).count()
}

/// Whether nothing is open of a line at the end.
pub(crate) fn at_line(bytes: &[u8]) -> bool
    ensures { result ≡ is_at_line bytes.now }
{
    match bytes.split_last() {
        Some((last, _)) => *last == b'\n',
        None => true,
    }
}

/// How many lines there are.
pub(crate) fn line_count(bytes: &[u8]) -> usize
    ensures { result ≡ count_of_lines bytes.now }
{
    if at_line(bytes) {
        newlines(bytes)
    } else {
        newlines(bytes) + 1
    }
}

/// Whether there are more lines than both numbers come to.
pub(crate) fn has_more_lines(bytes: &[u8], first: usize, last: usize) -> bool
    ensures { result ≡ nat_lt (first + last) (count_of_lines bytes.now) }
{
    line_count(bytes).saturating_sub(first) > last
}

/// Where the line begins that is open at the end.
pub(crate) fn open_start(text: &[u8]) -> usize
    ensures { IsOpenFrom text.now result }
{
    match memrchr(b'\n', text) {
        Some(at) => at + 1,
        None => 0,
    }
}

/// The first line, and what stands after it; none of an empty text.
pub(crate) fn first_line(text: &[u8]) -> Option<(&[u8], &[u8])>
    ensures { MatchOption result (text.now ≡ []) (λ cut. IsFirstLine text.now cut.0.now cut.1.now) }
{
    if let Some((line, _)) = split_line(text) {
        return Some(text.split_at(line.len() + 1));
    }
    if text.is_empty() {
        return None;
    }
    Some(text.split_at(text.len()))
}

/// What stands before the last line, and that line; none of an empty text.
fn last_line(text: &[u8]) -> Option<(&[u8], &[u8])>
    ensures { MatchOption result (text.now ≡ []) (λ cut. IsLastLine text.now cut.0.now cut.1.now) }
{
    let (_, inner) = text.split_last()?;
    Some(text.split_at(open_start(inner)))
}

/// How many bytes the first n lines have, or all where there are fewer.
pub(crate) fn first_lines(text: &[u8], count: usize) -> usize
    ensures { result ≡ length (lines_at_start count text.now) }
{
    let mut rest = text;
    for _ in 0..count {
        match first_line(rest) {
            Some((_, following)) => rest = following,
            None => return text.len(),
        }
    }
    text.len() - rest.len()
}

/// How many bytes the last n lines have, or all where there are fewer.
pub(crate) fn last_lines(text: &[u8], count: usize) -> usize
    ensures { result ≡ length (lines_at_end count text.now) }
{
    let mut rest = text;
    for _ in 0..count {
        match last_line(rest) {
            Some((before, _)) => rest = before,
            None => return text.len(),
        }
    }
    text.len() - rest.len()
}

/// Two texts without their first line, where that is the same.
fn same_first<'t>(old: &'t [u8], new: &'t [u8]) -> Option<(&'t [u8], &'t [u8])>
    ensures { MatchOption result (same_lines (lines old.now) (lines new.now) ≡ 0)
        (λ rest. BeginAlike old.now new.now rest.0.now rest.1.now) }
{
    let (line, old_rest) = first_line(old)?;
    let (other, new_rest) = first_line(new)?;
    if line == other {
        Some((old_rest, new_rest))
    } else {
        None
    }
}

/// How many bytes the first lines have that are the same in both.
pub(crate) fn same_start(old: &[u8], new: &[u8]) -> usize
    ensures count { result ≡ start_of_both old.now new.now }
    ensures fits_old { result ≤ length old.now }
    ensures fits_new { result ≤ length new.now }
{
    let mut old_rest = old;
    let mut new_rest = new;
    while let Some((o, n)) = same_first(old_rest, new_rest) {
        old_rest = o;
        new_rest = n;
    }
    old.len() - old_rest.len()
}

/// Two texts without their last line, where that is the same.
fn same_last<'t>(old: &'t [u8], new: &'t [u8]) -> Option<(&'t [u8], &'t [u8])>
    ensures { MatchOption result (end_of_both old.now new.now ≡ 0)
        (λ rest. EndAlike old.now new.now rest.0.now rest.1.now) }
{
    let (old_rest, line) = last_line(old)?;
    let (new_rest, other) = last_line(new)?;
    if line == other {
        Some((old_rest, new_rest))
    } else {
        None
    }
}

/// How many bytes the last lines have that are the same in both.
pub(crate) fn same_end(old: &[u8], new: &[u8]) -> usize
    ensures count { result ≡ end_of_both old.now new.now }
    ensures fits_old { result ≤ length old.now }
    ensures fits_new { result ≤ length new.now }
{
    let mut old_rest = old;
    let mut new_rest = new;
    while let Some((o, n)) = same_last(old_rest, new_rest) {
        old_rest = o;
        new_rest = n;
    }
    old.len() - old_rest.len()
}
