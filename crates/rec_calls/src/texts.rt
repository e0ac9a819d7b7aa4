//! Calls of `rec_text`.
use crate::log::are;
use rec_text::{Bytes, Fault, Origin, Reason, Refusal, put_field, read};
use std::alloc::Global;

/// `put_field`, after a field that is there, which stays alone where memory runs out.
pub fn a_field_is_put(alloc: Global) -> Result<bool, Fault> {
    let mut out = Vec::from_slice(alloc, b"K: 0\n")?;
    let answer = put_field(&mut out, b"Name", b"a\n\nb and more");
    match answer {
        Ok(()) => Ok(are(out.as_slice(), b"K: 0\nName: a\n+ \n+ b and more\n")),
        Err(fault) => {
            if are(out.as_slice(), b"K: 0\n") {
                Err(fault)
            } else {
                Ok(false)
            }
        }
    }
}

/// `Database::paragraphs`: a comment, a record with a comment in it, and one that no newline ends.
pub fn paragraphs_are_told(alloc: Global) -> Result<bool, Fault> {
    let database = read(alloc, b"# c\n\nA: 1\n# d\nB: 2\n \nC: 3")?;
    let mut paragraphs = database.paragraphs();
    let first = paragraphs.next();
    let second = paragraphs.next();
    let third = paragraphs.next();
    let are_three = first == Some(0..1) && second == Some(2..5) && third == Some(6..7);
    Ok(are_three && paragraphs.next().is_none())
}

/// Whether a refusal is of the second edit of a batch and of a text that is to be written.
fn is_placed(refusal: &Refusal) -> bool {
    refusal.edit() == Some(1) && matches!(refusal.origin(), Origin::New)
}

/// `Refusal`, for another fault. Where nothing says what it is about, memory ran out.
pub fn a_refusal_has_its_reason(alloc: Global) -> Result<bool, Fault> {
    let name = Reason::Name(Bytes::copy_of(alloc, b"Id")?);
    let refusal = Refusal::from(Fault::BadName)
        .about(alloc, Some(name))
        .of_edit(Some(1))
        .of_text(Origin::New)
        .with_fault(Fault::BadValue);
    match refusal.reason() {
        Some(Reason::Name(name)) => {
            Ok(are(name.as_slice(), b"Id") && is_placed(&refusal) && refusal.fault().number() == 14)
        }
        Some(_) => Ok(false),
        None => Err(Fault::OutOfMemory),
    }
}
