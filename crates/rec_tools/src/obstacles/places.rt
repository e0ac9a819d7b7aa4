//! Where edits change a text.
use rec_journal::Hunk;
use std::alloc::{AllocError, Global};
use std::ops::Range;

/// The places of what hunks change, in order: those in the text before them, and those in the text after them.
#[derive(Drop)]
pub struct Places {
    pub old: Vec<Range<usize>>,
    pub new: Vec<Range<usize>>,
}

/// From which of the two texts to which.
#[derive(Clone, Copy)]
pub enum Toward {
    After,
    Before,
}

/// The places of those of these hunks that change something.
pub fn places_of(alloc: Global, hunks: &[Hunk]) -> Result<Places, AllocError> {
    let mut places = Places {
        old: Vec::new(alloc),
        new: Vec::new(alloc),
    };
    let mut old_end: usize = 0;
    let mut new_end: usize = 0;
    for hunk in hunks {
        let start = new_end.saturating_add(hunk.at.saturating_sub(old_end));
        old_end = hunk.at.saturating_add(hunk.old.as_slice().len());
        new_end = start.saturating_add(hunk.new.as_slice().len());
        if hunk.old.as_slice() != hunk.new.as_slice() {
            places.old.push(hunk.at..old_end)?;
            places.new.push(start..new_end)?;
        }
    }
    Ok(places)
}

/// These places in whole lines of a text.
pub fn lines_at(
    alloc: Global,
    text: &[u8],
    places: &[Range<usize>],
) -> Result<Vec<Range<usize>>, AllocError> {
    let mut lines = Vec::new(alloc);
    for place in places {
        lines.push(line_start(text, place.start)..line_end(text, place.end))?;
    }
    Ok(lines)
}

/// Where the line begins that is open at a place, or the place itself.
fn line_start(text: &[u8], place: usize) -> usize {
    let before = text.get(..place).unwrap_or(&[]);
    match before.iter().rposition(|byte| *byte == b'\n') {
        Some(at) => at.saturating_add(1),
        None => 0,
    }
}

/// Where the line ends that is open at a place, or the place itself.
fn line_end(text: &[u8], place: usize) -> usize {
    if line_start(text, place) == place {
        return place;
    }
    let rest = text.get(place..).unwrap_or(&[]);
    match rest.iter().position(|byte| *byte == b'\n') {
        Some(at) => place.saturating_add(at).saturating_add(1),
        None => text.len(),
    }
}

impl Places {
    /// What the changes touch in the text that one comes from, and what stands there in the other.
    fn sides(&self, toward: Toward) -> (&[Range<usize>], &[Range<usize>]) {
        match toward {
            Toward::After => (&self.old, &self.new),
            Toward::Before => (&self.new, &self.old),
        }
    }
}

/// Whether a change that ends or begins where a place does touches it: one that puts something in touches a place where nothing
/// is alone, one that takes something out both.
fn touches_end(change: &Range<usize>, place: &Range<usize>, toward: Toward) -> bool {
    match toward {
        Toward::After => place.is_empty(),
        Toward::Before => place.is_empty() || change.is_empty(),
    }
}

fn is_before(change: &Range<usize>, place: &Range<usize>, toward: Toward) -> bool {
    change.end < place.start || change.end == place.start && !touches_end(change, place, toward)
}

fn is_after(change: &Range<usize>, place: &Range<usize>, toward: Toward) -> bool {
    change.start > place.end || change.start == place.end && !touches_end(change, place, toward)
}

/// The first of the changes, which stand in order, that touches a place or stands after it, and the first one after it.
fn touching(place: &Range<usize>, changes: &[Range<usize>], toward: Toward) -> Range<usize> {
    let first = changes.partition_point(|change| is_before(change, place, toward));
    first..changes.partition_point(|change| !is_after(change, place, toward))
}

/// Whether changes touch a place of the text that `toward` comes from.
pub fn is_changed(place: &Range<usize>, changes: &Places, toward: Toward) -> bool {
    let (from, _) = changes.sides(toward);
    !touching(place, from, toward).is_empty()
}

/// Where these places are in the text after changes, or in the one before them, with all that came in their place.
pub fn moved(
    alloc: Global,
    places: &[Range<usize>],
    changes: &Places,
    toward: Toward,
) -> Result<Vec<Range<usize>>, AllocError> {
    let (from, to) = changes.sides(toward);
    let mut found = Vec::new(alloc);
    for place in places {
        let among = touching(place, from, toward);
        let start = match from.get(among.start) {
            Some(change) => change.start.min(place.start),
            None => place.start,
        };
        let moved_start = moved_by(start, from, to, among.start);
        found.push(moved_start..moved_by(place.end, from, to, among.end))?;
    }
    Ok(found)
}

/// Where a place is after the first ones of the changes, none of which ends after it, or right after the last of them.
fn moved_by(place: usize, from: &[Range<usize>], to: &[Range<usize>], count: usize) -> usize {
    let Some(last) = count.checked_sub(1) else {
        return place;
    };
    match (from.get(last), to.get(last)) {
        (Some(from), Some(to)) => to.end.saturating_add(place.saturating_sub(from.end)),
        _ => place,
    }
}

/// The paragraphs of a text in which these places are, which stand in order: all up to the next empty lines.
pub fn paragraphs_at(
    alloc: Global,
    text: &[u8],
    places: &[Range<usize>],
) -> Result<Vec<Range<usize>>, AllocError> {
    let mut paragraphs = Vec::new(alloc);
    let mut end: usize = 0;
    for place in places {
        if place.end >= end {
            end = paragraph_end(text, place.end).saturating_add(1);
            paragraphs.push(paragraph_start(text, place.start)..end.saturating_sub(1))?;
        }
    }
    Ok(paragraphs)
}

/// Where the paragraph begins that is open at a place: after the last empty line before it.
fn paragraph_start(text: &[u8], place: usize) -> usize {
    let before = text.get(..place).unwrap_or(&[]);
    match before.windows(2).rposition(are_newlines) {
        Some(at) => at.saturating_add(2),
        None => 0,
    }
}

/// Where it ends: with the line before the next empty one.
fn paragraph_end(text: &[u8], place: usize) -> usize {
    let rest = text.get(place..).unwrap_or(&[]);
    match rest.windows(2).position(are_newlines) {
        Some(at) => place.saturating_add(at).saturating_add(1),
        None => text.len(),
    }
}

fn are_newlines(bytes: &[u8]) -> bool {
    bytes.iter().all(|byte| *byte == b'\n')
}
