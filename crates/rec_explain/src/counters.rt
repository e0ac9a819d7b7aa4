//! Automatic fields that get no number.
use crate::about::About;
use crate::explanation::Explanation;
use crate::lines::line_endings::called;
use crate::lines::shown::plain;
use rec_text::Uncounted;
use rec_tools::EditRequest;

/// Names the automatic field that gets no number, says why, and how it can be done without.
pub fn explain_counter(
    about: &About<'_>,
    edit: &EditRequest,
    name: &[u8],
    why: &Uncounted,
    said: &mut Explanation,
) {
    if let Some(name) = plain(name) {
        explain_field(called(about.file), name, why, said);
        explain_ways(name, edit, about.text.is_some(), said);
    }
}

/// Says why a field gets no number.
fn explain_field<'x>(file: &'x str, name: &'x str, why: &'x Uncounted, said: &mut Explanation) {
    match why {
        Uncounted::Special => {
            let rule = ": %auto gives no fields whose names begin with %";
            said.add(&[file, ": ", name, rule]);
        }
        Uncounted::Kind(kind) => {
            let kind = plain(kind.as_slice()).unwrap_or("another");
            let rule = ": %auto counts, so its type has to be int or range, and %type says ";
            said.add(&[file, ": ", name, rule, kind]);
        }
        Uncounted::Undefined(_) => {
            let rule = ": %auto counts, and the type of ";
            said.add(&[file, ": ", name, rule, name, " is not defined"]);
        }
        Uncounted::End => {
            let rule = ": there is no number after 9223372036854775807";
            said.add(&[file, ": ", name, rule]);
        }
    }
}

/// Says how a field can be given, or left out.
fn explain_ways(name: &str, edit: &EditRequest, in_batch: bool, said: &mut Explanation) {
    let no_auto = if in_batch { "Auto: no" } else { "--no-auto" };
    match (edit, name.starts_with('%')) {
        (EditRequest::Insert { .. }, true) => said.add(&[no_auto, " leaves it out"]),
        (EditRequest::Insert { .. }, false) => {
            said.add(&["give it a value, or ", no_auto, " leaves it out"]);
        }
        (_, true) => said.add(&["mend %auto"]),
        (_, false) => {
            let mend = " -a VALUE gives it to a record; or mend %auto or %type";
            said.add(&["recset -f ", name, mend]);
        }
    }
}
