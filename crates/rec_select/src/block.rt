//! What is printed of one record.
ghost use Rattle.std.specs.Prelude.{◌≡◌, flat_map, map, IfOk, IsOkUnless};
ghost use Rattle.std.specs.List.{list_any};
ghost use Rattle.rec_text.specs.Bytes.{closed_text};
ghost use Rattle.rec_text.specs.Places.{piece_of, pieces_of};
ghost use Rattle.rec_text.specs.Records.{is_field_piece};
ghost use Rattle.rec_text.specs.Values.{value_of};
ghost use Rattle.rec_select.specs.proving.Blocks.{spaced_value, in_form};
ghost use Rattle.rec_select.specs.Printing.{picked as picked_of, row_of, value_line};
ghost use Rattle.rec_select.specs.Taken.{Prints};

use crate::excerpt::Excerpt;
use crate::records::Shape;
use rec_sex::FieldList;
use rec_text::{Element, Fault, Kind, Sink, ends_newline, put_all};
use std::alloc::Global;

/// Prints a text, with a newline at its end.
pub(crate) fn write_closed<S: Sink>(text: &[u8], out: &mut S) -> Result<(), Fault>
    ensures printed { Prints S.contents S.failure_count out.old out.new (closed_text text.now) result }
    ensures refusals { IsOkUnless result Fault.StoreFailed }
{
    put_all(out, text)?;
    if ends_newline(text) {
        return Ok(());
    }
    put_all(out, b"\n")
}

/// Prints the value of an element.
fn write_value<S: Sink>(alloc: Global, element: &Element, out: &mut S) -> Result<(), Fault>
    ensures { Prints S.contents S.failure_count out.old out.new (value_of (piece_of element.now)) result }
{
    let value = element.value(alloc)?;
    put_all(out, value.bytes())
}

/// Prints the value of an element, and a newline.
fn write_value_line<S: Sink>(alloc: Global, element: &Element, out: &mut S) -> Result<(), Fault>
    ensures { Prints S.contents S.failure_count out.old out.new (value_line (piece_of element.now)) result }
{
    write_value(alloc, element, out)?;
    put_all(out, b"\n")
}

/// Prints a space, and the value of an element.
fn write_spaced_value<S: Sink>(alloc: Global, element: &Element, out: &mut S) -> Result<(), Fault>
    ensures { Prints S.contents S.failure_count out.old out.new (spaced_value (piece_of element.now)) result }
{
    put_all(out, b" ")?;
    write_value(alloc, element, out)
}

/// How an element is printed.
#[derive(Clone, Copy)]
enum ElementForm {
    /// As it stands in the file, with a newline at its end.
    Closed,
    /// Its value, and a newline.
    ValueLine,
    /// A space, and its value.
    SpacedValue,
}

fn write_element<S: Sink>(
    alloc: Global,
    element: &Element,
    form: ElementForm,
    out: &mut S,
) -> Result<(), Fault>
    ensures { Prints S.contents S.failure_count out.old out.new (in_form form (piece_of element.now)) result }
{
    match form {
        ElementForm::Closed => write_closed(element.raw, out),
        ElementForm::ValueLine => write_value_line(alloc, element, out),
        ElementForm::SpacedValue => write_spaced_value(alloc, element, out),
    }
}

fn write_elements<S: Sink>(
    alloc: Global,
    elements: &[Element],
    form: ElementForm,
    out: &mut S,
) -> Result<(), Fault>
    ensures { Prints S.contents S.failure_count out.old out.new
        (flat_map (in_form form) (pieces_of elements.now)) result }
{
    for element in elements {
        write_element(alloc, element, form, out)?;
    }
    Ok(())
}

/// Prints the values of elements with a space between each two, and a newline.
fn write_row<S: Sink>(alloc: Global, elements: &[Element], out: &mut S) -> Result<(), Fault>
    ensures { Prints S.contents S.failure_count out.old out.new
        (row_of (map value_of (pieces_of elements.now))) result }
{
    let Some((first, others)) = elements.split_first() else {
        return Ok(());
    };
    write_value(alloc, first, out)?;
    write_elements(alloc, others, ElementForm::SpacedValue, out)?;
    put_all(out, b"\n")
}

/// Whether a field is among elements.
fn has_field(elements: &[Element]) -> bool
    ensures { result ≡ list_any is_field_piece (pieces_of elements.now) }
{
    for element in elements {
        if let Kind::Field = element.kind {
            return true;
        }
    }
    false
}

/// The elements of a record that a list picks, in the list's order.
fn picked<'t>(
    alloc: Global,
    list: &FieldList,
    fields: &[Element<'t>],
) -> Result<Vec<Element<'t>>, Fault>
    ensures picked { IfOk result (λ elements. pieces_of elements.items ≡ picked_of list.now (pieces_of fields.now)) }
    ensures refusals { IsOkUnless result Fault.OutOfMemory }
{
    let places = list.picks(alloc, fields)?;
    let mut elements = Vec::with_capacity(alloc, places.len())?;
    for place in &places {
        if let Some(field) = fields.get(*place) {
            elements.push(*field)?;
        }
    }
    Ok(elements)
}

/// What is printed of a record.
#[derive(Drop)]
pub(crate) enum Block<'f, 't> {
    /// The fields among these, as they stand in the file.
    Fields(Excerpt<'f, 't>),
    /// These, as they stand in the file.
    Elements(Vec<Element<'t>>),
    /// The values of these, one in a line.
    Values(Vec<Element<'t>>),
    /// The values of these in one line.
    Row(Vec<Element<'t>>),
}

impl<'f, 't> Block<'f, 't> {
    ghost use Rattle.std.specs.Prelude.{◌≡◌, IfOk, IsOkUnless};
    ghost use Rattle.rec_text.specs.Bytes.{is_nil};
    ghost use Rattle.rec_text.specs.Places.{pieces_of};
    ghost use Rattle.rec_select.specs.proving.Blocks.{block_text};
    ghost use Rattle.rec_select.specs.Printing.{block_of};
    ghost use Rattle.rec_select.specs.Taken.{Prints};

    /// What is printed of the record with these elements.
    pub(crate) fn of(
        alloc: Global,
        fields: Excerpt<'f, 't>,
        shape: &Shape,
    ) -> Result<Block<'f, 't>, Fault>
        ensures text { IfOk result (λ block. block_text block ≡ block_of shape.now fields.entry) }
        ensures refusals { IsOkUnless result Fault.OutOfMemory }
    {
        match shape {
            Shape::Blocks => Ok(Block::Fields(fields)),
            Shape::Print(list) => Ok(Block::Elements(picked(alloc, list, fields.elements())?)),
            Shape::Values(list) => Ok(Block::Values(picked(alloc, list, fields.elements())?)),
            Shape::Row(list) => Ok(Block::Row(picked(alloc, list, fields.elements())?)),
            Shape::Count => Ok(Block::Elements(Vec::new(alloc))),
        }
    }

    /// Whether nothing is printed.
    pub(crate) fn is_empty(&self) -> bool
        ensures { result ≡ is_nil (block_text self.now) }
    {
        match self {
            Block::Fields(fields) => !has_field(fields.elements()),
            Block::Elements(elements) => elements.is_empty(),
            Block::Values(elements) => elements.is_empty(),
            Block::Row(elements) => elements.is_empty(),
        }
    }

    pub(crate) fn write<S: Sink>(&self, alloc: Global, out: &mut S) -> Result<(), Fault>
        ensures { Prints S.contents S.failure_count out.old out.new (block_text self.now) result }
    {
        match self {
            Block::Fields(fields) => fields.write_fields(out),
            Block::Elements(elements) => {
                write_elements(alloc, elements, ElementForm::Closed, out)
            }
            Block::Values(elements) => {
                write_elements(alloc, elements, ElementForm::ValueLine, out)
            }
            Block::Row(elements) => write_row(alloc, elements, out),
        }
    }
}
