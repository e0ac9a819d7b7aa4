//! The deletion of records.
ghost use Rattle.std.specs.Prelude.{◌≡◌};
ghost use Rattle.std.specs.List.{prefix_len};
ghost use Rattle.rec_text.specs.Places.{pieces_of};
ghost use Rattle.rec_text.specs.Records.{is_blank_piece};
ghost use Rattle.rec_edit.specs.Rules.{deleted};

use crate::draft::Draft;
use crate::laying::Change;
use rec_text::{Database, Element, elements_in};
use std::alloc::{AllocError, Global};
use std::ops::Range;

/// How many blank elements come first.
fn blank_count(elements: &[Element]) -> usize
    ensures { result ≡ prefix_len is_blank_piece (pieces_of elements.now) }
{
    elements
        .iter()
        .take_while(|element| element.is_blank())
        .count()
}

/// Records go, with the blank lines directly after each.
#[derive(Drop)]
pub(crate) struct Deletion {}

impl Change for Deletion {
    ghost made = { λ _ _. deleted };

    fn lay(
        &self,
        alloc: Global,
        database: &Database,
        index: usize,
        own: &Range<usize>,
        end: usize,
        draft: &mut Draft,
    ) -> Result<(), AllocError> {
        let gap = elements_in(database.elements(), &(own.end..end));
        let middle = own.end + blank_count(gap);
        draft.change(alloc, database.text_in(&(own.start..middle)), b"")?;
        draft.keep(database.text_in(&(middle..end)))?;
        Ok(())
    }
}
