//! Which elements of one text are elements of another.
ghost use Rattle.std.specs.Prelude.{◌≡◌, ◌≤◌, ◌+◌, ℕ, length, drop, IfOk};
ghost use Rattle.std.specs.List.{AllByRecursion};
ghost use Rattle.rec_text.specs.Places.{AreFrom};
ghost use Rattle.rec_diff.specs.proving.Numbering.{place_there, places_there, number_in, number_there, numbers_there};
ghost use Rattle.rec_diff.specs.proving.Numbering.{AreInOrder, IsNotBefore, IsReached, all_known, is_touched_before};
ghost use Rattle.rec_diff.specs.proving.Weaving.{AreInStep, at_start};

use crate::turn::{Place, Turn};
use rec_text::Element;
use std::alloc::{AllocError, Global};

/// The turns that are left, and where the last one ends that was passed.
#[derive(Clone, Copy)]
struct Walk<'w> {
    turns: &'w [Turn],
    place: Place,
}

/// Passes the turns that end before a place of the one text, or there.
fn pass<'w>(walk: Walk<'w>, at: usize, last: Place) -> Walk<'w>
    requires in_step { AreInStep last walk.place walk.turns.now }
    requires reached { walk.place.old ≤ at }
    ensures past { (later size : ℕ) → at ≤ later → place_there walk.entry.place walk.entry.turns.now later size
        ≡ place_there result.place result.turns.now later size }
    ensures in_step { AreInStep last result.place result.turns.now }
    ensures reached { result.place.old ≤ at }
    ensures first { IsReached result.turns.now at }
{
    let mut next = walk;
    while let Some((turn, rest)) = next.turns.split_first() {
        if turn.end.old > at {
            return next;
        }
        next = Walk {
            turns: rest,
            place: turn.end,
        };
    }
    next
}

/// Whether the next turn begins before a place.
fn is_touched(walk: Walk<'_>, end: usize) -> bool
    ensures { result ≡ is_touched_before walk.entry.turns.now end }
{
    match walk.turns.split_first() {
        Some((turn, _rest)) => turn.start.old < end,
        None => false,
    }
}

/// Where an element stands in the other text; none where the next turn touches it.
fn place_of(walk: Walk<'_>, element: &Element<'_>, last: Place) -> Option<usize>
    requires in_step { AreInStep last walk.place walk.turns.now }
    requires reached { walk.place.old ≤ element.now.at }
    requires first { IsReached walk.turns.now element.now.at }
    requires within { element.now.at + length element.now.raw.now ≤ last.old }
    ensures { result ≡ place_there walk.entry.place walk.entry.turns.now element.now.at (length element.now.raw.now) }
{
    if is_touched(walk, element.at + element.raw.len()) {
        return None;
    }
    Some(walk.place.new + (element.at - walk.place.old))
}

/// Where elements stand in the other text, to which turns lead; none of one that a turn touches.
fn places(
    alloc: Global,
    turns: &[Turn],
    last: Place,
    elements: &[Element<'_>],
) -> Result<Vec<Option<usize>>, AllocError>
    requires in_step { AreInStep last at_start turns.now }
    requires elements { AreFrom 0 elements.now }
    requires within { AllByRecursion (λ e. e.at + length e.raw.now ≤ last.old) elements.now }
    ensures { IfOk result (λ found. found.items ≡ places_there at_start turns.now elements.now) }
{
    let mut walk = Walk {
        turns,
        place: Place { old: 0, new: 0 },
    };
    let mut found = Vec::with_capacity(alloc, elements.len())?;
    for element in elements {
        walk = pass(walk, element.at, last);
        found.push(place_of(walk, element, last))?;
    }
    Ok(found)
}

/// The index of the first element, from an index on, that doesn't begin before a place.
fn pass_elements(elements: &[Element<'_>], index: usize, at: usize) -> usize
    ensures past { (later size : ℕ) → at ≤ later → number_in index (drop index elements.now) later size
        ≡ number_in result (drop result elements.now) later size }
    ensures first { IsNotBefore (drop result elements.now) at }
{
    let mut next = index;
    while let Some(element) = elements.get(next) {
        if element.at >= at {
            return next;
        }
        next += 1;
    }
    next
}

/// The index of an element, if it begins at a place and is of this length.
fn number_at(elements: &[Element<'_>], index: usize, at: usize, size: usize) -> Option<usize>
    requires { IsNotBefore (drop index elements.now) at }
    ensures { result ≡ number_in index (drop index elements.now) at size }
{
    let element = elements.get(index)?;
    if element.at == at && element.raw.len() == size {
        Some(index)
    } else {
        None
    }
}

/// The numbers of elements among those of another text, in which they stand at these places.
fn numbers_at(
    alloc: Global,
    elements: &[Element<'_>],
    places: &[Option<usize>],
    others: &[Element<'_>],
) -> Result<Vec<Option<usize>>, AllocError>
    requires in_order { AreInOrder 0 places.now }
    requires lengths { length places.now ≡ length elements.now }
    ensures { IfOk result (λ found. found.items ≡ numbers_there others.now elements.now places.now) }
{
    let mut index = 0;
    let mut found = Vec::with_capacity(alloc, elements.len())?;
    for (element, place) in elements.iter().zip(places.iter()) {
        match place {
            Some(at) => {
                index = pass_elements(others, index, *at);
                found.push(number_at(others, index, *at, element.raw.len()))?;
            }
            None => found.push(None)?,
        }
    }
    Ok(found)
}

/// Of each element of one text the number of the element of another that it is, where turns lead from the one text to the
/// other; these are the ends of both.
pub(crate) fn numbers(
    alloc: Global,
    turns: &[Turn],
    last: Place,
    elements: &[Element<'_>],
    others: &[Element<'_>],
) -> Result<Vec<Option<usize>>, AllocError>
    requires in_step { AreInStep last at_start turns.now }
    requires elements { AreFrom 0 elements.now }
    requires within { AllByRecursion (λ e. e.at + length e.raw.now ≤ last.old) elements.now }
    ensures { IfOk result (λ found. found.items
        ≡ numbers_there others.now elements.now (places_there at_start turns.now elements.now)) }
{
    let places = places(alloc, turns, last, elements)?;
    numbers_at(alloc, elements, &places, others)
}

/// Whether each element has a number in one of two texts.
pub(crate) fn are_known(one: &[Option<usize>], other: &[Option<usize>]) -> bool
    ensures { result ≡ all_known one.now other.now }
{
    for (number, another) in one.iter().zip(other.iter()) {
        if number.is_none() && another.is_none() {
            return false;
        }
    }
    true
}
