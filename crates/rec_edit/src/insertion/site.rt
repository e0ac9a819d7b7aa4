//! Where a new record is put.
ghost use Rattle.std.specs.Prelude.{◌≡◌, ◌≤◌, ◌++◌, List, None, Some, length, reverse};
ghost use Rattle.std.specs.List.{prefix_len};
ghost use Rattle.std.specs.Option.{option_map_or};
ghost use Rattle.rec_text.specs.Elements.{Piece};
ghost use Rattle.rec_text.specs.Places.{pieces_of};
ghost use Rattle.rec_check.specs.Stored.{described};
ghost use Rattle.rec_edit.specs.proving.Drafts.{AreRanges};
ghost use Rattle.rec_edit.specs.Insertions.{is_full, after_paragraph, before_paragraph, at_end as end_insertion, last_of as last_record_of, last_at, descriptor_at, Insertion as InsertionOf, untyped_insertion, typed_insertion, insertion_for};
ghost use Rattle.rec_edit.specs.proving.Sites.{placed, placed_or, heading};

use rec_check::{Schema, Set_};
use rec_text::{Bytes, Element};
use std::ops::Range;

/// On which side of a new record an empty line stands.
#[derive(Clone, Copy)]
pub(crate) enum Gap {
    Absent,
    Before,
    After,
}

/// Where a new record is put: before the element of an index; at the number of elements, after them all.
#[derive(Clone, Copy)]
pub(crate) struct Site {
    pub place: usize,
    pub gap: Gap,
}

/// How many elements that aren't blank come first.
fn full_count(elements: &[Element]) -> usize
    ensures { result ≡ prefix_len is_full (pieces_of elements.now) }
{
    elements
        .iter()
        .take_while(|element| !element.is_blank())
        .count()
}

/// How many elements that aren't blank come last.
fn full_count_back(elements: &[Element]) -> usize
    ensures { result ≡ prefix_len is_full (reverse (pieces_of elements.now)) }
{
    elements
        .iter()
        .rev()
        .take_while(|element| !element.is_blank())
        .count()
}

/// At the end of a record's paragraph.
fn site_after(elements: &[Element], range: &Range<usize>) -> Site
    requires { range.now.end ≤ length (pieces_of elements.now) }
    ensures { (fields : List Piece)
        → after_paragraph (pieces_of elements.now) fields range.now ≡ placed result fields }
{
    Site {
        place: range.end + full_count(&elements[range.end..]),
        gap: Gap::Before,
    }
}

/// Before a record's paragraph.
fn before(elements: &[Element], range: &Range<usize>) -> Site
    requires { range.now.start ≤ length (pieces_of elements.now) }
    ensures { (fields : List Piece)
        → before_paragraph (pieces_of elements.now) fields range.now ≡ placed result fields }
{
    Site {
        place: range.start - full_count_back(&elements[..range.start]),
        gap: Gap::After,
    }
}

/// After all elements.
pub(crate) fn at_end(elements: &[Element]) -> Site
    ensures { (new : List Piece) → end_insertion (pieces_of elements.now) new ≡ placed result new }
{
    let place = elements.len();
    match elements.last() {
        Some(last) if !last.is_blank() => Site {
            place,
            gap: Gap::Before,
        },
        _ => Site {
            place,
            gap: Gap::Absent,
        },
    }
}

/// The record after which one more of a set is put.
fn last_of(set: &Set_) -> Option<usize>
    ensures { result ≡ last_record_of set.now }
{
    if set.members.start < set.members.end {
        Some(set.members.end - 1)
    } else {
        set.head
    }
}

/// After the last record of the set at a place, or else after its descriptor.
fn site_after_last(
    elements: &[Element],
    records: &[Range<usize>],
    sets: &[Set_],
    place: usize,
) -> Option<Site>
    requires { AreRanges (length (pieces_of elements.now)) records.now }
    ensures { (fields : List Piece) (other : InsertionOf)
        → option_map_or (after_paragraph (pieces_of elements.now) fields) (last_at records.now sets.now place) other
        ≡ placed_or result fields other }
{
    let index = last_of(sets.get(place)?)?;
    let last = records.get(index)?;
    Some(site_after(elements, last))
}

/// Before the descriptor of the set at a place.
fn before_descriptor(
    elements: &[Element],
    records: &[Range<usize>],
    sets: &[Set_],
    place: usize,
) -> Option<Site>
    requires { AreRanges (length (pieces_of elements.now)) records.now }
    ensures { (fields : List Piece) (other : InsertionOf)
        → option_map_or (before_paragraph (pieces_of elements.now) fields)
        (descriptor_at records.now sets.now place) other
        ≡ placed_or result fields other }
{
    let index = sets.get(place)?.head?;
    let descriptor = records.get(index)?;
    Some(before(elements, descriptor))
}

/// Where an untyped record is put: after the last one, or else before the first descriptor. There may be neither.
fn untyped_site(elements: &[Element], records: &[Range<usize>], sets: &[Set_]) -> Option<Site>
    requires { AreRanges (length (pieces_of elements.now)) records.now }
    ensures { (fields : List Piece) → untyped_insertion (pieces_of elements.now) records.now sets.now fields
        ≡ placed_or result fields (end_insertion (pieces_of elements.now) fields) }
{
    match site_after_last(elements, records, sets, 0) {
        Some(site) => Some(site),
        None => before_descriptor(elements, records, sets, 1),
    }
}

/// Where a record of a type is put: after the last one of its set, if there is the set.
fn typed_site(
    elements: &[Element],
    records: &[Range<usize>],
    schema: &Schema,
    record_type: &[u8],
) -> Option<Site>
    requires { AreRanges (length (pieces_of elements.now)) records.now }
    ensures { (fields : List Piece)
        → typed_insertion (pieces_of elements.now) records.now (described schema.now).sets fields record_type.now
        ≡ placed_or result fields (end_insertion (pieces_of elements.now) (heading (Some record_type.now) ++ fields)) }
{
    match schema.set_of_type(record_type) {
        Some(place) => site_after_last(elements, records, schema.sets(), place),
        None => None,
    }
}

/// Where a new record is put beside others. Where there are none it is put at the end, after the descriptor of its type.
pub(crate) fn site_beside(
    elements: &[Element],
    records: &[Range<usize>],
    schema: &Schema,
    record_type: &Option<Bytes>,
) -> Option<Site>
    requires { AreRanges (length (pieces_of elements.now)) records.now }
    ensures { (fields : List Piece)
        → insertion_for (pieces_of elements.now) records.now (described schema.now).sets record_type.now fields
        ≡ placed_or result fields (end_insertion (pieces_of elements.now) (heading record_type.now ++ fields)) }
{
    match record_type {
        Some(record_type) => typed_site(elements, records, schema, record_type.as_slice()),
        None => untyped_site(elements, records, schema.sets()),
    }
}
