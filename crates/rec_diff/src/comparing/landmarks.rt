//! The landmarks of two texts: the lines that stand once in each.
ghost use Rattle.std.specs.Prelude.{◌≡◌, IfOk};
ghost use Rattle.rec_diff.specs.Comparing.{landmarks as landmarks_of, only};
ghost use Rattle.rec_diff.specs.proving.SortedLines.{begins_with, places_in, AreLinesOf, AreSorted, IsNoneBefore};

use crate::lines::{first_line, line_count};
use crate::turn::Place;
use std::alloc::{AllocError, Global};

/// A line of a text, and where it begins.
#[derive(Clone, Copy)]
pub struct Line<'t> {
    pub text: &'t [u8],
    pub at: usize,
}

fn lines_of<'t>(alloc: Global, text: &'t [u8]) -> Result<Vec<Line<'t>>, AllocError>
    ensures { IfOk result (λ lines. AreLinesOf text.now lines.items) }
{
    let mut lines = Vec::with_capacity(alloc, line_count(text))?;
    let mut rest = text;
    while let Some((line, following)) = first_line(rest) {
        let at = text.len() - rest.len();
        lines.push(Line { text: line, at })?;
        rest = following;
    }
    Ok(lines)
}

fn sorted_lines<'t>(alloc: Global, text: &'t [u8]) -> Result<Vec<Line<'t>>, AllocError>
    ensures lines { IfOk result (λ lines. AreLinesOf text.now lines.items) }
    ensures sorted { IfOk result (λ lines. AreSorted lines.items) }
{
    let mut lines = lines_of(alloc, text)?;
    lines.sort_by_key(|line| line.text)?;
    Ok(lines)
}

/// Whether this line comes first.
fn begins(lines: &[Line], text: &[u8]) -> bool
    ensures { result ≡ begins_with text.now lines.now }
{
    match lines.first() {
        Some(line) => line.text == text,
        None => false,
    }
}

/// The place of a line that stands once among these, of which none comes before it.
fn alone(lines: &[Line], text: &[u8]) -> Option<usize>
    requires sorted { AreSorted lines.now }
    requires first { IsNoneBefore text.now lines.now }
    ensures { result ≡ only (places_in text.now lines.now) }
{
    let (first, rest) = lines.split_first()?;
    if first.text == text && !begins(rest, text) {
        Some(first.at)
    } else {
        None
    }
}

/// The place of a line that stands once among these.
pub fn only_place(lines: &[Line], text: &[u8]) -> Option<usize>
    requires { AreSorted lines.now }
    ensures { result ≡ only (places_in text.now lines.now) }
{
    let at = lines.partition_point(|line| line.text < text);
    alone(&lines[at..], text)
}

/// The landmarks of two texts, in the order of the old one.
pub(crate) fn landmarks_between(
    alloc: Global,
    old: &[u8],
    new: &[u8],
) -> Result<Vec<Place>, AllocError>
    ensures { IfOk result (λ marks. marks.items ≡ landmarks_of old.now new.now) }
{
    let olds = sorted_lines(alloc, old)?;
    let news = sorted_lines(alloc, new)?;
    let mut marks = Vec::with_capacity(alloc, news.len())?;
    let mut rest = old;
    while let Some((line, following)) = first_line(rest) {
        if let Some(new) = only_place(&news, line)
            && let Some(old) = only_place(&olds, line)
        {
            marks.push(Place { old, new })?;
        }
        rest = following;
    }
    Ok(marks)
}
