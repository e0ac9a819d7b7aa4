//! Where a field of a descriptor stands, to tell what it is refused for.
use crate::descriptors::words::split_word;
use rec_text::{BadField, Breach, Broken, Database, Element, Reason, shown_line};
use std::alloc::Global;

/// A field of a descriptor, among the fields of that, in a text.
#[derive(Clone, Copy)]
pub(crate) struct FieldPlace<'d, 't> {
    pub database: &'d Database<'t>,
    pub own: &'d [Element<'t>],
    pub field: &'d Element<'t>,
}

impl FieldPlace<'_, '_> {
    /// That the field breaks a rule, with its line, which has this number.
    pub(crate) fn reason(
        &self,
        alloc: Global,
        breach: Option<Breach>,
        number: usize,
    ) -> Option<Reason> {
        let breach = breach?;
        let other = self.other(alloc, &breach);
        let line = shown_line(alloc, self.field.raw)?;
        Some(Reason::Field(BadField {
            number,
            line,
            breach,
            other,
        }))
    }

    /// The line of the field that says before this one what may be said once.
    fn other(&self, alloc: Global, breach: &Breach) -> Option<usize> {
        let at = match (breach.broken, &breach.word) {
            (Broken::Second, _) => first_named(self.own, self.field.name()),
            (Broken::TypeTaken, Some(record_type)) => {
                first_of_type(alloc, self.database.elements(), record_type.as_slice())
            }
            _ => None,
        };
        Some(self.database.line_of(at?))
    }
}

/// The place of the first field of a name.
fn first_named(own: &[Element], name: &[u8]) -> Option<usize> {
    Some(own.iter().find(|element| element.has_name(name))?.at)
}

/// The place of the first `%rec` that names a type, as far as there is memory to tell.
fn first_of_type(alloc: Global, elements: &[Element], record_type: &[u8]) -> Option<usize> {
    for element in elements {
        if element.has_name(b"%rec") && names(alloc, element, record_type) {
            return Some(element.at);
        }
    }
    None
}

/// Whether the first word of a field is this one.
fn names(alloc: Global, field: &Element, word: &[u8]) -> bool {
    let Ok(value) = field.value(alloc) else {
        return false;
    };
    match split_word(value.bytes()) {
        Some((first, _)) => first == word,
        None => false,
    }
}
