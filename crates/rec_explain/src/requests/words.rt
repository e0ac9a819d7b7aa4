//! The texts of a request that can't be read.
use crate::descriptors::constraints::meant_at;
use crate::descriptors::rules::rule_of;
use crate::explanation::Explanation;
use crate::lines::shown::{plain, show_place};
use rec_text::{Asked, BadText, Broken};
use std::alloc::Global;

/// Shows a text in which a fault may have a place, and says what the text is to be.
pub fn explain_text(alloc: Global, bad: &BadText, said: &mut Explanation) {
    let text = bad.text.as_slice();
    match bad.at {
        Some(at) => {
            show_place(alloc, text, at, said);
            if let Some(rule) = rule_at(bad.asked, text, at) {
                said.add(&[rule]);
            }
        }
        None => {
            if let Some(shown) = plain(text) {
                said.add(&[shown]);
            }
            said.add(&[rule_of(Broken::Pattern)]);
        }
    }
}

/// What a text is to be that has its fault at a place, or what may be meant there.
fn rule_at(asked: Asked, text: &[u8], at: usize) -> Option<&'static str> {
    match asked {
        Asked::Expression => meant_at(text, at),
        Asked::Indexes => Some("an index list is such as 0,4-7"),
        Asked::AddedFields if text.contains(&b'[') => {
            Some("fields are added by their names alone, such as Name,Email")
        }
        Asked::Fields | Asked::AddedFields => {
            Some("a field list is such as Name,Email[0],Phone[1-2]")
        }
        Asked::Value => Some(
            "a value is asked for by the name of its field, without an index, such as Name=Ann",
        ),
    }
}
