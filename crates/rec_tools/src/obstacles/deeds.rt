//! Which edits are in effect, and which of them made what stands at some places of a text.
ghost use Rattle.std.specs.Prelude.{◌^◌, ◌<◌, List, ℕ, length};
ghost use Rattle.rec_journal.specs.Revisions.{LeadsBy};
ghost use Rattle.rec_tools.specs.proving.Reverting.{AreInARow};

use crate::obstacles::places::{Places, Toward, is_changed, moved, places_of};
use rec_diff::compose;
use rec_journal::EditStep;
use std::alloc::{AllocError, Global};
use std::collections::HashSet;
use std::hash::{DefaultHasher, Hasher};
use std::ops::Range;

/// What an edit did, and what became of that.
#[derive(Drop)]
pub struct Deed {
    pub places: Places,
    /// What the hashes of the lines that it put in add up to, less those of the lines that it took out. The tools put in and take
    /// out whole lines.
    lines: u64,
    /// The earlier edit that it takes back, by its place among all.
    target: Option<usize>,
    /// The later edit by which it is taken back.
    pub taken_back_by: Option<usize>,
}

/// Which edits are looked for.
#[derive(Clone, Copy)]
enum Sought<'d> {
    /// Those in effect that take none of the others back.
    Standing,
    /// Those in effect that this one turns: it takes out what they put in, and puts in what they took out.
    TurnedBy(&'d Deed),
}

impl Deed {
    /// Whether it is in effect, and takes no other edit back.
    fn stands(&self) -> bool {
        self.taken_back_by.is_none() && self.target.is_none()
    }

    /// Whether it is in effect, and a later one takes out the lines that it put in, and puts in those that it took out.
    fn is_turned_by(&self, later: &Deed) -> bool {
        self.taken_back_by.is_none() && self.lines.wrapping_add(later.lines) == 0
    }

    /// Whether it changed something at one of these places of the text after it.
    fn changed_any(&self, places: &[Range<usize>]) -> bool {
        places
            .iter()
            .any(|place| is_changed(place, &self.places, Toward::Before))
    }

    fn is_sought(&self, sought: Sought<'_>) -> bool {
        match sought {
            Sought::Standing => self.stands(),
            Sought::TurnedBy(later) => self.is_turned_by(later),
        }
    }
}

fn hash_of(line: &[u8]) -> u64 {
    let mut hasher = DefaultHasher::new();
    hasher.write(line);
    hasher.finish()
}

/// What the hashes of the lines of a text add up to.
fn sum_of_lines(text: &[u8]) -> u64 {
    let mut sum: u64 = 0;
    for line in text.split_inclusive(|byte| *byte == b'\n') {
        sum = sum.wrapping_add(hash_of(line));
    }
    sum
}

/// What the steps of an edit do.
fn deed_of(alloc: Global, steps: &[EditStep]) -> Result<Deed, AllocError>
    requires { (before after : List ℕ) × (length before < 2 ^ 64) × LeadsBy steps.now before after }
{
    let hunks = compose(alloc, steps)?;
    let mut lines: u64 = 0;
    for hunk in &hunks {
        lines = lines.wrapping_add(sum_of_lines(hunk.new.as_slice()));
        lines = lines.wrapping_sub(sum_of_lines(hunk.old.as_slice()));
    }
    Ok(Deed {
        places: places_of(alloc, &hunks)?,
        lines,
        target: None,
        taken_back_by: None,
    })
}

/// What edits did, one after another, and which of them take others back.
pub fn deeds_of(alloc: Global, edits: &[&[EditStep]]) -> Result<Vec<Deed>, AllocError>
    requires { AreInARow edits.now }
{
    let mut deeds = Vec::new(alloc);
    let mut sums = HashSet::new(alloc);
    for edit in edits {
        add(alloc, &mut deeds, &mut sums, deed_of(alloc, edit)?)?;
    }
    Ok(deeds)
}

/// Adds what a later edit did. The sums are those of all before it.
fn add(
    alloc: Global,
    deeds: &mut Vec<Deed>,
    sums: &mut HashSet<u64>,
    deed: Deed,
) -> Result<(), AllocError> {
    let target = if sums.contains(&deed.lines.wrapping_neg()) {
        target_of(alloc, deeds, &deed)?
    } else {
        None
    };
    let place = deeds.len();
    sums.insert(deed.lines)?;
    deeds.push(deed)?;
    if let Some(target) = target {
        take_back(deeds, target, place);
    }
    Ok(())
}

/// The place of the edit that a later one takes back: it wrote what that one takes out, at its places.
fn target_of(alloc: Global, deeds: &[Deed], later: &Deed) -> Result<Option<usize>, AllocError> {
    let found = newest_of(alloc, deeds, &later.places.old, Sought::TurnedBy(later))?;
    Ok(found.map(|place| first_made(deeds, place)))
}

fn target_at(deeds: &[Deed], place: usize) -> Option<usize> {
    deeds.get(place)?.target
}

/// The place of the edit that one made again, if it took back what had taken that back; else its own.
fn first_made(deeds: &[Deed], place: usize) -> usize {
    match target_at(deeds, place).and_then(|back| target_at(deeds, back)) {
        Some(first) => first,
        None => place,
    }
}

/// Notes that one edit takes another one back. What that one took back is in effect again.
fn take_back(deeds: &mut Vec<Deed>, target: usize, by: usize) {
    if let Some(deed) = deeds.get_mut(by) {
        deed.target = Some(target);
    }
    if let Some(deed) = deeds.get_mut(target) {
        deed.taken_back_by = Some(by);
    }
    if let Some(again) = target_at(deeds, target)
        && let Some(deed) = deeds.get_mut(again)
    {
        deed.taken_back_by = None;
    }
}

/// The place of the newest of these edits that stands, and changed something at these places of the text after them all.
pub fn newest_at(
    alloc: Global,
    deeds: &[Deed],
    places: &[Range<usize>],
) -> Result<Option<usize>, AllocError> {
    newest_of(alloc, deeds, places, Sought::Standing)
}

/// Where some places are after edits, with all that came in their place.
pub fn places_after(
    alloc: Global,
    deeds: &[Deed],
    places: Vec<Range<usize>>,
) -> Result<Vec<Range<usize>>, AllocError> {
    let mut here = places;
    for deed in deeds {
        here = moved(alloc, &here, &deed.places, Toward::After)?;
    }
    Ok(here)
}

/// The place of the newest of these edits that stands.
pub fn newest_standing(deeds: &[Deed]) -> Option<usize> {
    deeds.iter().rposition(|deed| deed.stands())
}

/// The place of the newest of these edits that is sought, and changed something at these places of the text after them all.
fn newest_of(
    alloc: Global,
    deeds: &[Deed],
    places: &[Range<usize>],
    sought: Sought<'_>,
) -> Result<Option<usize>, AllocError> {
    let mut here = copy_of(alloc, places)?;
    let mut count = deeds.len();
    for deed in deeds.iter().rev() {
        count = count.saturating_sub(1);
        if deed.is_sought(sought) && deed.changed_any(&here) {
            return Ok(Some(count));
        }
        here = moved(alloc, &here, &deed.places, Toward::Before)?;
    }
    Ok(None)
}

fn copy_of(alloc: Global, places: &[Range<usize>]) -> Result<Vec<Range<usize>>, AllocError> {
    let mut copy = Vec::new(alloc);
    for place in places {
        copy.push(place.start..place.end)?;
    }
    Ok(copy)
}
