//! The requests that print.
ghost use Rattle.std.specs.Prelude.{◌≡◌, option_map, IfErr};
ghost use Rattle.rec_check.specs.DescribedTexts.{described_text};
ghost use Rattle.rec_check.specs.Violations.{AreViolationsOf};
ghost use Rattle.rec_select.specs.Selection.{filter_of};
ghost use Rattle.rec_select.specs.Taken.{PrintsAndCounts};
ghost use Rattle.rec_tools.specs.Steps.{IsRefusal};
ghost use Rattle.rec_tools.specs.Printouts.{IsShowOf, IsShow, IsInfoOf, IsShownText, IsReportText, PutsPrintout, verdict};

use crate::request::{Form, Pick, Reply};
use crate::selecting::{Wanted, wanted_of};
use rec_check::RecFile;
use rec_select::{InfoForm, choose, write_info, write_records, write_report};
use rec_text::{Bytes, Refusal, Sink, Violation};
use std::alloc::Global;

/// Prints the records of a file that are asked for.
fn print_wanted<S: Sink>(
    alloc: Global,
    file: &RecFile,
    wanted: &Wanted,
    collapse: bool,
    out: &mut S,
) -> Result<Reply, Refusal>
    ensures written { PrintsAndCounts S.contents S.failure_count out.old out.new
        (PutsPrintout (IsShownText (IsShowOf (described_text file.now) wanted.now.selection.kind
        (filter_of wanted.now.selection.by) wanted.now.shape collapse))) result }
    ensures refusals { IfErr result IsRefusal }
{
    let selected = choose(alloc, file, &wanted.selection)?;
    write_records(alloc, file, &selected, &wanted.shape, collapse, out)?;
    Ok(Reply::Shown)
}

/// Prints the records of a file that a pick selects.
pub fn show<S: Sink>(
    alloc: Global,
    file: &[u8],
    pick: &Pick,
    form: &Form,
    collapse: bool,
    out: &mut S,
) -> Result<Reply, Refusal>
    ensures written { PrintsAndCounts S.contents S.failure_count out.old out.new
        (PutsPrintout (IsShownText (IsShow file.now pick.now form.now collapse))) result }
    ensures refusals { IfErr result IsRefusal }
{
    let read = RecFile::read(alloc, file)?;
    let wanted = wanted_of(alloc, pick, form)?;
    print_wanted(alloc, &read, &wanted, collapse, out)
}

/// The bytes of a type, where one is given.
fn slice_of(record_type: &Option<Bytes>) -> Option<&[u8]>
    ensures { option_map (λ bytes. bytes.now) result ≡ record_type.now }
{
    match record_type {
        None => None,
        Some(record_type) => Some(record_type.as_slice()),
    }
}

/// Prints what record sets a file has.
pub fn inform<S: Sink>(
    alloc: Global,
    file: &[u8],
    record_type: &Option<Bytes>,
    form: InfoForm,
    out: &mut S,
) -> Result<Reply, Refusal>
    ensures written { PrintsAndCounts S.contents S.failure_count out.old out.new
        (PutsPrintout (IsShownText (IsInfoOf file.now record_type.now form))) result }
    ensures refusals { IfErr result IsRefusal }
{
    let read = RecFile::read(alloc, file)?;
    write_info(alloc, &read, slice_of(record_type), form, out)?;
    Ok(Reply::Shown)
}

/// What a check answers that found these.
fn verdict_on(found: &[Violation]) -> Reply
    ensures { result ≡ verdict found.now }
{
    match found {
        [] => Reply::Shown,
        _ => Reply::Violated(found.len()),
    }
}

/// Prints where a file breaks the rules of its record sets.
pub fn check<S: Sink>(alloc: Global, file: &[u8], out: &mut S) -> Result<Reply, Refusal>
    ensures written { PrintsAndCounts S.contents S.failure_count out.old out.new
        (PutsPrintout (IsReportText (AreViolationsOf file.now))) result }
    ensures refusals { IfErr result IsRefusal }
{
    let read = RecFile::read(alloc, file)?;
    let found = read.schema().violations(alloc, read.database())?;
    write_report(&found, out)?;
    Ok(verdict_on(&found))
}
