//! Why an edit changes nothing.
use crate::about::About;
use crate::explanation::Explanation;
use crate::lines::shown::plain;
use rec_tools::{Action, Change, EditRequest, Missing, Texts, missing_fields};
use std::alloc::Global;

/// Says that an edit changes nothing, and of one that selects records, which of the fields that it names aren't there.
pub fn explain_unchanged(
    alloc: Global,
    about: &About<'_>,
    change: &Change,
    texts: Option<&Texts>,
    chosen: Option<usize>,
    is_tried: bool,
    said: &mut Explanation,
) {
    if matches!(change, Change::Adopt(_)) {
        return said.add(&["nothing to adopt"]);
    }
    let nothing = match chosen {
        Some(0) => ": no record is selected",
        _ if is_tried => ": nothing would change",
        _ => ": nothing changed",
    };
    said.add(&[plain(about.file.as_bytes()).unwrap_or("the file"), nothing]);
    if let Change::Edit { edit, .. } = change
        && let Some(texts) = texts
        && let Some(missing) = missing_fields(alloc, edit, texts.file.as_slice(), chosen)
    {
        say_missing(about.file, edit, &missing, said);
    }
}

/// Says which fields aren't there.
fn say_missing(path: &str, edit: &EditRequest, missing: &Missing<'_>, said: &mut Explanation) {
    match missing {
        Missing::InSet(names) => {
            for name in names {
                say_name(path, name, said);
            }
        }
        Missing::InSelected(list) => {
            let way = if is_set(edit) { "; -S adds it" } else { "" };
            if let Some(list) = plain(list) {
                said.add(&[path, ": no record that is selected has a field ", list, way]);
            }
        }
    }
}

fn say_name(path: &str, name: &[u8], said: &mut Explanation) {
    if let Some(name) = plain(name) {
        said.add(&[path, ": no record of the set has a field ", name]);
    }
}

fn is_set(edit: &EditRequest) -> bool {
    matches!(
        edit,
        EditRequest::Set {
            action: Action::Set(_),
            ..
        }
    )
}
