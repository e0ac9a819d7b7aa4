//! What the violations of a text are about.
mod findings;
mod places;
mod record_numbers;
mod shared_values;
mod standing;
mod written;

use crate::rec_file::RecFile;
use crate::reports::findings::finding_of;
use crate::reports::places::{Place, field_of, known_by, place_of};
use crate::reports::shared_values::{Shared, first_shared};
use crate::reports::standing::stood_before;
pub use crate::reports::standing::{Before, added_by};
use rec_text::{Element, Offence, Report, Rule, Violation, shown_line};
use std::alloc::Global;

/// Of how many violations it is told what they are about.
const TOLD: usize = 20;

/// The violations of a text, and what they are about. They are told whole, or not at all.
pub fn report_in(alloc: Global, text: &[u8]) -> Option<(Vec<Violation>, Report)> {
    let file = RecFile::read(alloc, text).ok()?;
    let violations = file.schema().violations(alloc, file.database()).ok()?;
    let report = report_of(alloc, None, &file, &violations)?;
    Some((violations, report))
}

/// What the violations of a file are about, and which of them stood in the text before an edit, if there was one. It is told
/// whole, or not at all.
pub fn report_of(
    alloc: Global,
    before: Option<Before<'_>>,
    file: &RecFile<'_>,
    violations: &[Violation],
) -> Option<Report> {
    let stood = match before {
        Some(before) => stood_before(alloc, before, file, violations)?,
        None => Vec::new(alloc),
    };
    let mut offences = Vec::new(alloc);
    for (index, violation) in violations.iter().take(TOLD).enumerate() {
        let stood = stood.get(index) == Some(&true);
        offences
            .push(offence_of(alloc, file, violation, stood)?)
            .ok()?;
    }
    let stood = stood.iter().filter(|stood| **stood).count();
    Some(Report { offences, stood })
}

fn offence_of(
    alloc: Global,
    file: &RecFile<'_>,
    violation: &Violation,
    stood: bool,
) -> Option<Offence> {
    let place = place_of(file, violation.line)?;
    let shared = first_shared(alloc, &place, violation).ok()?;
    let field = match broken_field(&place, violation, shared) {
        Some(field) => Some(shown_line(alloc, field.raw)?),
        None => None,
    };
    Some(Offence {
        record: shown_line(alloc, known_by(place.rules, place.record))?,
        field,
        finding: finding_of(alloc, file.database(), &place, violation, shared)?,
        stood,
    })
}

/// The field that breaks a rule.
fn broken_field<'d, 't>(
    place: &Place<'d, 't>,
    violation: &Violation,
    shared: Option<Shared<'d, 't>>,
) -> Option<&'d Element<'t>> {
    match (violation.rule, shared) {
        (Rule::Fit | Rule::Typedef, _) => Some(place.field),
        (Rule::Size | Rule::Constraint, _) => None,
        (_, Some(shared)) => Some(shared.field),
        (_, None) => field_of(place.record, violation.name.as_slice()),
    }
}
