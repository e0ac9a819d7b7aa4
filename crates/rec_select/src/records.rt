//! Prints records.
ghost use Rattle.std.specs.Prelude.{◌≡◌, ◌<◌, not, length, IfOk, IsOkUnless};
ghost use Rattle.std.specs.List.{AllByRecursion};
ghost use Rattle.rec_text.specs.Bytes.{is_nil};
ghost use Rattle.rec_text.specs.Faults.{IsOkUnlessEither};
ghost use Rattle.rec_text.specs.proving.Scanned.{IsWithin};
ghost use Rattle.rec_select.specs.Selection.{record_at};
ghost use Rattle.rec_select.specs.proving.Blocks.{blocks_of, led_by, separated};
ghost use Rattle.rec_select.specs.Printing.{AreIndexes, IsPrinted, block_of, number_line};
ghost use Rattle.rec_select.specs.declared.records.Shape.TheVariants.{Count};
ghost use Rattle.rec_select.specs.Taken.{Prints, PrintsAndCounts, Puts};

use crate::block::Block;
use crate::excerpt::Excerpt;
use itoa::Buffer;
use rec_check::RecFile;
use rec_sex::FieldList;
use rec_text::{Fault, Sink, put_all};
use std::alloc::Global;
use std::ops::Range;

/// What is printed of each record.
#[derive(Drop)]
pub enum Shape {
    /// All its fields, as they stand in the file.
    Blocks,
    /// The fields that a list picks, as they stand in the file.
    Print(FieldList),
    /// The values of these, one in a line.
    Values(FieldList),
    /// The values of these in one line.
    Row(FieldList),
    /// Nothing: the number of the records is printed instead.
    Count,
}

/// Prints a number, and a newline.
fn write_number<S: Sink>(number: usize, out: &mut S) -> Result<(), Fault>
    ensures refusals { IsOkUnless result Fault.StoreFailed }
    ensures printed { Prints S.contents S.failure_count out.old out.new (number_line number) result }
{
    let mut buffer = Buffer::new();
    put_all(out, buffer.format(number).as_bytes())?;
    put_all(out, b"\n")
}

/// Prints `before` and a record's block, where that holds anything, and tells whether it does.
fn write_block<S: Sink>(
    alloc: Global,
    before: &[u8],
    fields: Excerpt,
    shape: &Shape,
    out: &mut S,
) -> Result<bool, Fault>
    ensures printed { Prints S.contents S.failure_count out.old out.new
        (led_by before.now (block_of shape.now fields.entry)) result }
    ensures holds { IfOk result (λ holds. holds ≡ not (is_nil (block_of shape.now fields.entry))) }
{
    let block = Block::of(alloc, fields, shape)?;
    if block.is_empty() {
        return Ok(false);
    }
    put_all(out, before)?;
    block.write(alloc, out)?;
    Ok(true)
}

/// The record of an index.
fn record_of<'d, 't>(
    text: &Excerpt<'d, 't>,
    records: &[Range<usize>],
    index: usize,
) -> Excerpt<'d, 't>
    requires within { AllByRecursion (IsWithin (length text.now)) records.now }
    requires some { index < length records.now }
    ensures { result ≡ record_at text.now records.now index }
{
    let record = &records[index];
    text.part(record.start..record.end)
}

/// Prints the blocks that hold anything, with a separator between each two.
fn write_blocks<S: Sink>(
    alloc: Global,
    text: &Excerpt,
    records: &[Range<usize>],
    selected: &[usize],
    shape: &Shape,
    separator: &[u8],
    out: &mut S,
) -> Result<(), Fault>
    requires within { AllByRecursion (IsWithin (length text.now)) records.now }
    requires indexes { AllByRecursion (λ i. i < length records.now) selected.now }
    ensures { Prints S.contents S.failure_count out.old out.new
        (separated separator.now (blocks_of shape.now text.now records.now selected.now)) result }
{
    let mut before: &[u8] = b"";
    for index in selected {
        let record = record_of(text, records, *index);
        if write_block(alloc, before, record, shape, out)? {
            before = separator;
        }
    }
    Ok(())
}

/// Prints the records of these indexes into the list of records. With `collapse` no empty line stands between them.
pub fn write_records<S: Sink>(
    alloc: Global,
    file: &RecFile,
    selected: &[usize],
    shape: &Shape,
    collapse: bool,
    out: &mut S,
) -> Result<(), Fault>
    requires { AreIndexes file.now.pieces selected.now }
    ensures written { PrintsAndCounts S.contents S.failure_count out.old out.new
        (Puts (IsPrinted file.now.pieces selected.now shape.now collapse)) result }
    ensures refusals { IsOkUnlessEither result Fault.OutOfMemory Fault.StoreFailed }
    // Their number is printed without any memory.
    ensures number { shape.now ≡ Count → IsOkUnless result Fault.StoreFailed }
{
    if let Shape::Count = shape {
        return write_number(selected.len(), out);
    }
    let database = file.database();
    let records = database.records().as_slice();
    let separator: &[u8] = if collapse { b"" } else { b"\n" };
    write_blocks(
        alloc,
        &Excerpt::of(database),
        records,
        selected,
        shape,
        separator,
        out,
    )
}
