//! What a refusal is about that the texts of a request and the sets of a file can tell.
ghost use Rattle.std.specs.Prelude.{◌≡◌};
ghost use Rattle.rec_text.specs.Faults.{UnlessMemory};
ghost use Rattle.rec_sex.specs.Lists.{IsFieldList};

use crate::field_value::name_len;
use rec_check::Schema;
use rec_sex::FieldList;
use rec_text::{Asked, BadText, Bytes, Fault, Reason, Refusal, shown};
use std::alloc::{AllocError, Global};

/// The refusal of a text of a request, with the place of its fault.
pub fn refused_text(alloc: Global, text: &[u8], asked: Asked, fault: Fault) -> Refusal
    ensures { result ≡ fault }
{
    let reason = match &fault {
        Fault::BadExpression { at } | Fault::BadFieldList { at } | Fault::BadIndexList { at } => {
            reason_of(alloc, text, Some(*at), asked)
        }
        Fault::BadName => reason_of(alloc, text, Some(name_len(text)), asked),
        Fault::BadPattern => reason_of(alloc, text, None, asked),
        _ => None,
    };
    Refusal::from(fault).about(alloc, reason)
}

fn reason_of(alloc: Global, text: &[u8], at: Option<usize>, asked: Asked) -> Option<Reason> {
    let text = shown(alloc, text)?;
    Some(Reason::Text(BadText { text, at, asked }))
}

/// Reads a list of fields. One that is refused is told.
pub fn fields_of(alloc: Global, list: &[u8], asked: Asked) -> Result<FieldList, Refusal>
    ensures { UnlessMemory result (IsFieldList list.now) }
{
    match FieldList::parse(alloc, list) {
        Ok(fields) => Ok(fields),
        Err(fault) => Err(refused_text(alloc, list, asked, fault)),
    }
}

/// The refusal of a request for a set, with the record types that there are.
pub(crate) fn refused_set(alloc: Global, schema: &Schema, fault: Fault) -> Refusal
    ensures { result ≡ fault }
{
    Refusal::from(fault).about(alloc, types_in(alloc, schema).ok())
}

fn types_in(alloc: Global, schema: &Schema) -> Result<Reason, AllocError> {
    let mut types = Vec::new(alloc);
    for set in schema.sets() {
        if let Some(kind) = &set.kind {
            types.push(Bytes::copy_of(alloc, kind.as_slice())?)?;
        }
    }
    Ok(Reason::Types(types))
}
