//! The records that a report is about, and what breaks the rules there.
ghost use Rattle.std.specs.Prelude.{All};
ghost use Rattle.rec_explain.specs.Lines.{AreLines, IsShown};

use crate::about::About;
use crate::explanation::Explanation;
use crate::lines::shown::{plain, without_cr};
use crate::notes::records;
use itoa::Buffer;
use rec_check::report_in;
use rec_text::{Bytes, Finding, Offence, Reason, Report};
use rec_tools::{Change, Violation};
use std::alloc::Global;

/// The records in which the first violations of a text stand, and what these break: lines, each with its newline.
pub fn explain_report(alloc: Global, text: &[u8]) -> Vec<u8>
    ensures shown { All IsShown result.items }
    ensures whole { AreLines result.items }
{
    let mut said = Explanation::new(alloc);
    if let Some((violations, report)) = report_in(alloc, text) {
        show_report(alloc, &violations, &report, &mut said);
    }
    said.into_lines()
}

/// Shows the records for which an edit was refused, as it would have left them, and which of the violations stood before it,
/// and says what forces it.
pub fn explain_violations(
    alloc: Global,
    about: &About<'_>,
    change: Option<&Change>,
    violations: &[Violation],
    reason: Option<&Reason>,
    said: &mut Explanation,
) {
    let is_revert = matches!(change, Some(Change::Revert { .. }));
    if let Some(Reason::Report(report)) = reason {
        show_report(alloc, violations, report, said);
        say_what_stood(report.stood, violations.len(), is_revert, said);
    }
    said.add(&[
        about.file,
        if is_revert {
            ": --force reverts the edit all the same"
        } else {
            ": --force makes the edit all the same"
        },
    ]);
}

/// Says how many of the violations stood before the edit, if some did.
fn say_what_stood(stood: usize, count: usize, is_revert: bool, said: &mut Explanation) {
    if stood == count {
        let mend = ": mend them first, by a batch, by hand, or by edits with --force";
        said.add(&["all of these stood before ", named(is_revert), mend]);
    } else if stood > 0 {
        let mut digits = Buffer::new();
        let count = digits.format(stood);
        said.add(&[count, " of these stood before ", named(is_revert)]);
    }
}

fn named(is_revert: bool) -> &'static str {
    if is_revert { "the revert" } else { "the edit" }
}

/// Shows what the violations are about that a report tells, and which of them stood before the edit, unless all did.
fn show_report(alloc: Global, violations: &[Violation], report: &Report, said: &mut Explanation) {
    let have_all_stood = report.stood == violations.len();
    for (violation, offence) in violations.iter().zip(report.offences.iter()) {
        let is_old = offence.stood && !have_all_stood;
        show_offence(alloc, violation, offence, is_old, said);
    }
}

fn show_offence(
    alloc: Global,
    violation: &Violation,
    offence: &Offence,
    is_old: bool,
    said: &mut Explanation,
) {
    let Some(record) = plain(without_cr(offence.record.as_slice())) else {
        return;
    };
    let [comma, field] = beside(record, &offence.field);
    let found = words_of(alloc, violation, &offence.finding).unwrap_or(String::new(alloc));
    let before = if is_old { ", as before the edit" } else { "" };
    let mut digits = Buffer::new();
    let line = digits.format(violation.line);
    said.add(&[
        "line ",
        line,
        ": ",
        record,
        comma,
        field,
        found.as_str(),
        before,
    ]);
}

/// The line of the field that breaks a rule, after a comma, where it can be shown and isn't the line of the record.
fn beside<'f>(record: &str, field: &'f Option<Bytes>) -> [&'f str; 2] {
    match field {
        Some(field) => match plain(without_cr(field.as_slice())) {
            Some(line) if line != record => [", ", line],
            _ => ["", ""],
        },
        None => ["", ""],
    }
}

/// What a violation finds, between parentheses after a blank, where it can be shown.
fn words_of(alloc: Global, violation: &Violation, finding: &Finding) -> Option<String> {
    let name = plain(violation.name.as_slice())?;
    let words = match finding {
        Finding::Type(rule) | Finding::Constraint(rule) => {
            let rule = plain(rule.as_slice())?;
            format!(in alloc; " ({rule})")
        }
        Finding::Size { count, wanted } => {
            let wanted = plain(wanted.as_slice())?;
            format!(in alloc; " ({count} {}, %size: {wanted})", records(*count))
        }
        Finding::Undefined => format!(in alloc; " (nothing defines {name})"),
        Finding::Kindless => format!(in alloc; " (the definition of {name} comes to no kind)"),
        Finding::Prohibited => String::from_str(alloc, " (prohibited)"),
        Finding::NotAllowed => String::from_str(alloc, " (not allowed)"),
        Finding::Missing => format!(in alloc; " (no {name})"),
        Finding::Several => format!(in alloc; " (more than one {name})"),
        Finding::Taken(line) => format!(in alloc; " (also in line {line})"),
    };
    words.ok()
}
