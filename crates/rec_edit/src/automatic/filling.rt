//! The automatic fields that are put into records.
ghost use Rattle.std.specs.Prelude.{◌≡◌, ◌++◌, OnOk};
ghost use Rattle.rec_text.specs.Elements.{text_of};
ghost use Rattle.rec_edit.specs.Insertions.{fields_at, filled};
ghost use Rattle.rec_edit.specs.proving.Filling.{filled_of};

use crate::automatic::filled::FilledRecord;
use crate::automatic::numbered::append_numbered;
use crate::draft::Draft;
use crate::laying::Change;
use rec_text::Database;
use std::alloc::{AllocError, Global};
use std::ops::Range;

/// Appends the fields that the record of an index is given.
fn append_given(out: &mut Vec<u8>, filled: &[FilledRecord], index: usize) -> Result<(), AllocError>
    ensures { OnOk result (out.new.items ≡ out.old.items ++ text_of (fields_at (filled_of filled.now) index)) }
{
    match filled.get(index) {
        Some(one) => append_numbered(out, &one.given),
        None => Ok(()),
    }
}

/// For each record the fields that are put first in it.
#[derive(Drop)]
pub(crate) struct Filling<'f, 's> {
    pub filled: &'f [FilledRecord<'s>],
}

impl<'f, 's> Change for Filling<'f, 's> {
    ghost made = { λ f k. filled (fields_at (filled_of f.filled.now) k) };

    fn lay(
        &self,
        alloc: Global,
        database: &Database,
        index: usize,
        own: &Range<usize>,
        end: usize,
        draft: &mut Draft,
    ) -> Result<(), AllocError> {
        let mut new = Vec::new(alloc);
        append_given(&mut new, self.filled, index)?;
        draft.put(alloc, &new)?;
        draft.keep(database.text_in(&(own.start..end)))?;
        Ok(())
    }
}
