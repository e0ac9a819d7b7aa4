//! Prints where a text breaks the rules of its record sets.
ghost use Rattle.std.specs.Prelude.{IsOkUnless};
ghost use Rattle.rec_select.specs.Report.{IsReport, line_with, report, report_line};
ghost use Rattle.rec_select.specs.Taken.{Prints, PrintsAndCounts, Puts};

use crate::parts::put_parts;
use itoa::Buffer;
use rec_text::{Fault, Sink, Violation};

/// Prints a line of the report, of which these are the number, the rule and the name.
fn write_line<'p, S: Sink>(
    line: &'p [u8],
    rule: &'p [u8],
    name: &'p [u8],
    out: &mut S,
) -> Result<(), Fault>
    ensures printed { Prints S.contents S.failure_count out.old out.new (line_with line.now rule.now name.now) result }
    ensures refusals { IsOkUnless result Fault.StoreFailed }
{
    put_parts(out, &[line, b": ", rule, b" ", name, b"\n"])
}

fn write_violation<S: Sink>(violation: &Violation, out: &mut S) -> Result<(), Fault>
    ensures printed { Prints S.contents S.failure_count out.old out.new (report_line violation.now) result }
    ensures refusals { IsOkUnless result Fault.StoreFailed }
{
    let mut buffer = Buffer::new();
    let line = buffer.format(violation.line).as_bytes();
    let rule = violation.rule.word().as_bytes();
    write_line(line, rule, violation.name.as_slice(), out)
}

fn write_violations<S: Sink>(violations: &[Violation], out: &mut S) -> Result<(), Fault>
    ensures printed { Prints S.contents S.failure_count out.old out.new (report violations.now) result }
    ensures refusals { IsOkUnless result Fault.StoreFailed }
{
    for violation in violations {
        write_violation(violation, out)?;
    }
    Ok(())
}

/// Prints violations, one in a line.
pub fn write_report<S: Sink>(violations: &[Violation], out: &mut S) -> Result<(), Fault>
    ensures written { PrintsAndCounts S.contents S.failure_count out.old out.new
        (Puts (IsReport violations.now)) result }
    ensures refusals { IsOkUnless result Fault.StoreFailed }
{
    write_violations(violations, out)
}
