//! What keeps an edit from being taken back alone.
ghost use Rattle.std.specs.Prelude.{◌≡◌, ◌∷◌, ◌&&◌, IfOk, filter, nat_lt, slice_get};
ghost use Rattle.rec_journal.specs.Revisions.{step_lists};
ghost use Rattle.rec_tools.specs.proving.Reverting.{StandsBefore};

mod deeds;
mod places;

use deeds::{Deed, deeds_of, newest_at, newest_standing, places_after};
use places::{lines_at, paragraphs_at};
use rec_journal::{EditStep, History, StandingEdit, Step, Steps};
use rec_text::{Bytes, Obstacle};
use std::alloc::{AllocError, Global};
use std::ops::Range;

/// Where the obstacle is, as far as edits are concerned.
#[derive(Clone, Copy)]
enum Place {
    /// At an edit among the later ones.
    Later(usize),
    /// The later ones took the edit back: one alone, if one did.
    TakenBack(Option<usize>),
    /// At none of them.
    Nowhere,
}

/// What keeps the edit of a number from being taken back alone, if there is memory to tell it.
pub fn obstacle_of(
    alloc: Global,
    history: &History,
    number: usize,
    standing: &StandingEdit<'_>,
    file: &[u8],
) -> Option<Obstacle>
    requires { StandsBefore file.now standing.now }
{
    match place_of(alloc, standing, file).ok()? {
        Place::Later(place) => edit_at(alloc, history, number, place),
        Place::TakenBack(None) => Some(Obstacle::TakenBack(None)),
        Place::TakenBack(Some(place)) => {
            let by = later_at(history.steps(), number, place);
            Some(Obstacle::TakenBack(by.map(|step| step.number)))
        }
        Place::Nowhere => Some(Obstacle::Inseparable),
    }
}

/// The steps of an edit, and those of the later ones.
fn edit_and_later<'s>(
    alloc: Global,
    steps: &'s [EditStep],
    later: &[&'s [EditStep]],
) -> Result<Vec<&'s [EditStep]>, AllocError>
    ensures { IfOk result (λ all. step_lists all.items ≡ steps.now ∷ step_lists later.now) }
{
    let mut all = Vec::new(alloc);
    all.push(steps)?;
    all.extend_from_slice(later)?;
    Ok(all)
}

/// Where the obstacle to the revert of an edit is.
fn place_of(alloc: Global, standing: &StandingEdit<'_>, here: &[u8]) -> Result<Place, AllocError>
    requires { StandsBefore here.now standing.now }
{
    let texts = standing.texts();
    let before = texts.before();
    let after = texts.after();
    let later = standing.later(alloc)?;
    let all = edit_and_later(alloc, texts.steps(), &later)?;
    let deeds = deeds_of(alloc, &all)?;
    let Some((own, others)) = deeds.split_first() else {
        return Ok(Place::Nowhere);
    };
    if let Some(by) = own.taken_back_by {
        return Ok(Place::TakenBack(by.checked_sub(1)));
    }
    let old = lines_at(alloc, before, &own.places.old)?;
    let new = lines_at(alloc, after, &own.places.new)?;
    let left = places_after(alloc, others, new)?;
    if have_texts_of(before, &old, here, &left) {
        return Ok(Place::TakenBack(None));
    }
    match newest_in_the_way(alloc, here, others, &left)? {
        Some(place) => Ok(Place::Later(place)),
        None => Ok(Place::Nowhere),
    }
}

/// Whether some places of a text have the bytes of as many places of another.
fn have_texts_of(
    text: &[u8],
    places: &[Range<usize>],
    other: &[u8],
    others: &[Range<usize>],
) -> bool {
    places.len() == others.len()
        && places.iter().zip(others).all(|(one, two)| text.get(one.start..one.end)
            == other.get(two.start..two.end))
}

/// The place of the newest of some edits that stands, and changed something at these places of the text after them all; or else
/// in the paragraphs around; or else anywhere.
fn newest_in_the_way(
    alloc: Global,
    here: &[u8],
    edits: &[Deed],
    places: &[Range<usize>],
) -> Result<Option<usize>, AllocError> {
    if let Some(place) = newest_at(alloc, edits, places)? {
        return Ok(Some(place));
    }
    let paragraphs = paragraphs_at(alloc, here, places)?;
    if let Some(place) = newest_at(alloc, edits, &paragraphs)? {
        return Ok(Some(place));
    }
    Ok(newest_standing(edits))
}

/// That the edit at a place among those that stand after the edit of a number is in the way.
fn edit_at(alloc: Global, history: &History, number: usize, place: usize) -> Option<Obstacle> {
    let step = later_at(history.steps(), number, place)?;
    let tool = Bytes::copy_of(alloc, step.tool.name()).ok()?;
    Some(Obstacle::Edit {
        number: step.number,
        tool,
    })
}

/// The edit at a place among the steps of a history that stand after the edit of a number.
fn later_at(steps: Steps<'_>, number: usize, place: usize) -> Option<Step>
    ensures { result ≡ slice_get (filter (λ step. step.done && nat_lt number step.number) steps.entry) place }
{
    let mut left = place;
    for step in steps {
        if step.done && number < step.number {
            if left == 0 {
                return Some(step);
            }
            left -= 1;
        }
    }
    None
}
