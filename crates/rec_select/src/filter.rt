//! Filters, ready to be tried on many records.
ghost use Rattle.std.specs.Prelude.{◌≡◌, ◌↔◌, Any, IsTrue, IfOk, IsOkUnless};
ghost use Rattle.rec_text.specs.Places.{piece_of};
ghost use Rattle.rec_select.specs.Selection.{HasValue};
ghost use Rattle.rec_select.specs.proving.Filters.{HasText, is_one_line};

use crate::excerpt::Excerpt;
use crate::field_value::FieldValue;
use crate::selection::By;
use memchr::memchr;
use memchr::memmem::Finder;
use rec_sex::{IndexList, Search};
use rec_text::{Element, Fault, Kind};
use std::alloc::Global;

/// Which members of a set are selected. What an expression or a text is searched with is made once.
#[derive(Drop)]
pub(crate) enum Filter<'s> {
    All,
    Expr(Search<'s>),
    Index(&'s IndexList),
    Quick(Finder<'s>),
    Where(&'s FieldValue),
}

/// Whether an element is a field whose value contains a text.
fn has_text(alloc: Global, element: &Element, text: &Finder) -> Result<bool, Fault>
    ensures has { IfOk result (λ answer. IsTrue answer ↔ HasText text.now (piece_of element.now)) }
    ensures refusals { IsOkUnless result Fault.OutOfMemory }
{
    let Kind::Field = element.kind else {
        return Ok(false);
    };
    let value = element.value(alloc)?;
    Ok(text.find(value.bytes()).is_some())
}

/// Whether no newline stands in a text but at its end.
fn is_line(text: &[u8]) -> bool
    ensures { result ≡ is_one_line text.now }
{
    match memchr(b'\n', text) {
        Some(at) => at + 1 == text.len(),
        None => true,
    }
}

/// Whether some element is a field whose value contains a text.
fn any_has_text(alloc: Global, fields: &Excerpt, text: &Finder) -> Result<bool, Fault>
    ensures has { IfOk result (λ answer. IsTrue answer ↔ Any (HasText text.now) fields.now) }
    ensures refusals { IsOkUnless result Fault.OutOfMemory }
{
    let occurs = text.find(fields.raw()).is_some();
    for element in fields.elements() {
        // A value in one line is a part of that line.
        if !occurs && is_line(element.raw) {
            continue;
        }
        if has_text(alloc, element, text)? {
            return Ok(true);
        }
    }
    Ok(false)
}

/// Whether an element is a field of the name with the value.
fn has_value(alloc: Global, element: &Element, wanted: &FieldValue) -> Result<bool, Fault>
    ensures has { IfOk result (λ answer. IsTrue answer ↔ HasValue wanted.now (piece_of element.now)) }
    ensures refusals { IsOkUnless result Fault.OutOfMemory }
{
    if !element.has_name(wanted.name.as_slice()) {
        return Ok(false);
    }
    let value = element.value(alloc)?;
    Ok(value.bytes() == wanted.value.as_slice())
}

/// Whether some element is a field of the name with the value.
fn any_has_value(alloc: Global, fields: &Excerpt, wanted: &FieldValue) -> Result<bool, Fault>
    ensures has { IfOk result (λ answer. IsTrue answer ↔ Any (HasValue wanted.now) fields.now) }
    ensures refusals { IsOkUnless result Fault.OutOfMemory }
{
    for element in fields.elements() {
        if has_value(alloc, element, wanted)? {
            return Ok(true);
        }
    }
    Ok(false)
}

impl<'s> Filter<'s> {
    ghost use Rattle.std.specs.Prelude.{◌≡◌, ◌↔◌, IsTrue, IfOk, IsOkUnless};
    ghost use Rattle.rec_select.specs.Selection.{filter_of, Passes};
    ghost use Rattle.rec_select.specs.proving.Filters.{stands_for};

    pub(crate) fn of(alloc: Global, by: &'s By) -> Result<Filter<'s>, Fault>
        ensures filter { IfOk result (λ filter. stands_for filter ≡ filter_of by.now) }
        ensures refusals { IsOkUnless result Fault.OutOfMemory }
    {
        match by {
            By::All => Ok(Filter::All),
            By::Expr(expr) => Ok(Filter::Expr(expr.search(alloc)?)),
            By::Index(list) => Ok(Filter::Index(list)),
            By::Quick(text) => Ok(Filter::Quick(Finder::new(text.as_slice()))),
            By::Where(wanted) => Ok(Filter::Where(wanted)),
        }
    }

    /// Whether the member with these elements, at this place of its set, is selected.
    pub(crate) fn passes(
        &mut self,
        alloc: Global,
        fields: &Excerpt,
        place: usize,
    ) -> Result<bool, Fault>
        ensures passes { IfOk result (λ answer. IsTrue answer ↔ Passes (stands_for self.old) fields.now place) }
        ensures same { stands_for self.new ≡ stands_for self.old }
        ensures refusals { IsOkUnless result Fault.OutOfMemory }
    {
        match self {
            Filter::All => Ok(true),
            Filter::Expr(search) => search.selects(alloc, fields.elements()),
            Filter::Index(list) => Ok(list.has(place)),
            Filter::Quick(text) => any_has_text(alloc, fields, text),
            Filter::Where(wanted) => any_has_value(alloc, fields, wanted),
        }
    }
}
