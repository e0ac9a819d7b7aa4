//! Calls of `rec_check`.
use rec_check::{RecFile, type_named};
use rec_text::{Fault, read};
use std::alloc::Global;

/// `Schema::next_auto`, of a set whose greatest integer stands in two joined lines.
pub fn a_counter_goes_on(alloc: Global) -> Result<bool, Fault> {
    let file = RecFile::read(alloc, b"A: 9\n\n%rec: P\n%auto: A\n\nA: 4\n\nA: 1\\\n2\n")?;
    let schema = file.schema();
    if schema.sets().len() != 2 {
        return Ok(false);
    }
    Ok(schema.next_auto(alloc, file.database(), 1, b"A")? == 13)
}

/// `type_named`, of a record with two names, of which the first has two words.
pub fn a_record_names_a_type(alloc: Global) -> Result<bool, Fault> {
    let text = read(alloc, b"A: 1\n%rec:  P  http://x\n%rec: Q\n")?;
    match type_named(alloc, text.elements())? {
        Some(named) => Ok(named.as_slice() == b"P".as_slice()),
        None => Ok(false),
    }
}
