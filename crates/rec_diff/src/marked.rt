//! Prints lines after a mark.
ghost use Rattle.std.specs.Prelude.{◌++◌, flat_map, IsOkUnless};
ghost use Rattle.rec_diff.specs.Diff.{ending, marked};
ghost use Rattle.rec_diff.specs.Lines.{lines};
ghost use Rattle.rec_select.specs.Taken.{Prints};

use crate::lines::{at_line, first_line};
use rec_select::put_parts;
use rec_text::{Fault, Sink, put_all};

fn write_line<'p, S: Sink>(mark: &'p [u8], line: &'p [u8], out: &mut S) -> Result<(), Fault>
    ensures printed { Prints S.contents S.failure_count out.old out.new (mark.now ++ line.now) result }
    ensures refusals { IsOkUnless result Fault.StoreFailed }
{
    put_parts(out, &[mark, line])
}

fn write_lines<'p, S: Sink>(mark: &'p [u8], text: &'p [u8], out: &mut S) -> Result<(), Fault>
    ensures printed { Prints S.contents S.failure_count out.old out.new
        (flat_map (λ line. mark.now ++ line) (lines text.now)) result }
    ensures refusals { IsOkUnless result Fault.StoreFailed }
{
    let mut rest = text;
    while let Some((line, following)) = first_line(rest) {
        write_line(mark, line, out)?;
        rest = following;
    }
    Ok(())
}

/// Prints that a text ends in no newline, where it doesn't.
fn write_ending<S: Sink>(text: &[u8], out: &mut S) -> Result<(), Fault>
    ensures printed { Prints S.contents S.failure_count out.old out.new (ending text.now) result }
    ensures refusals { IsOkUnless result Fault.StoreFailed }
{
    if at_line(text) {
        return Ok(());
    }
    put_all(out, b"\n\\ No newline at end of file\n")
}

/// Prints the lines of a text, each after a mark.
pub(crate) fn write_marked<'p, S: Sink>(
    mark: &'p [u8],
    text: &'p [u8],
    out: &mut S,
) -> Result<(), Fault>
    ensures printed { Prints S.contents S.failure_count out.old out.new (marked mark.now text.now) result }
    ensures refusals { IsOkUnless result Fault.StoreFailed }
{
    write_lines(mark, text, out)?;
    write_ending(text, out)
}
