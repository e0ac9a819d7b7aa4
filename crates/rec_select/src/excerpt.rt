//! Elements of a text that stand one after another.

use crate::block::write_closed;
use rec_text::{Database, Element, Fault, Sink, elements_in};
use std::marker::Model;
use std::ops::Range;

/// Elements that stand one after another in a text, and the text.
#[derive(Drop)]
pub(crate) struct Excerpt<'d, 't> {
    text: &'t [u8],
    elements: &'d [Element<'t>],
}

impl<'d, 't> Model for Excerpt<'d, 't> {
    ghost use Rattle.std.specs.Prelude.{List};
    ghost use Rattle.rec_text.specs.Elements.{Piece};

    ghost Value = { List Piece };

    ghost use Rattle.rec_text.specs.Places.{pieces_of};
    ghost use Rattle.rec_select.specs.proving.Excerpts.{IsExcerpt};

    ghost view = { λ e. pieces_of e.elements.now };

    ghost invariant = { λ e. IsExcerpt e.text.now e.elements.now };
}

impl<'d, 't> Excerpt<'d, 't> {
    ghost use Rattle.std.specs.Prelude.{◌≡◌, ◌<◌, ◌≤◌, ◌^◌, flat_map, length, IsOkUnless};
    ghost use Rattle.rec_text.specs.Elements.{AreElementsOf, text_of};
    ghost use Rattle.rec_text.specs.Places.{pieces_of};
    ghost use Rattle.rec_text.specs.Records.{elements_in};
    ghost use Rattle.rec_select.specs.declared.records.Shape.TheVariants.{Blocks};
    ghost use Rattle.rec_select.specs.Printing.{block_of, printed_element};
    ghost use Rattle.rec_select.specs.Taken.{Prints};

    /// All elements of a text.
    pub(crate) fn of(database: &'d Database<'t>) -> Excerpt<'d, 't>
        ensures elements { result ≡ database.now }
        ensures countable { length result < 2 ^ 64 }
    {
        Excerpt {
            text: database.text(),
            elements: database.elements(),
        }
    }

    /// The elements of these indexes.
    pub(crate) fn part(&self, indexes: Range<usize>) -> Excerpt<'d, 't>
        requires ordered { indexes.start ≤ indexes.end }
        requires within { indexes.end ≤ length self.now }
        ensures { result ≡ elements_in self.now indexes }
    {
        Excerpt {
            text: self.text,
            elements: elements_in(self.elements, &indexes),
        }
    }

    pub(crate) fn elements(&self) -> &'d [Element<'t>]
        ensures { pieces_of result.now ≡ self.now }
    {
        self.elements
    }

    /// The elements joined.
    pub(crate) fn raw(&self) -> &'t [u8]
        ensures text { result.now ≡ text_of self.now }
        ensures whole { AreElementsOf self.now (text_of self.now) }
    {
        let (Some(first), Some(last)) = (self.elements.first(), self.elements.last()) else {
            return &[];
        };
        &self.text[first.at..last.at + last.raw.len()]
    }

    /// Prints the elements, each with a newline at its end.
    fn write<S: Sink>(&self, out: &mut S) -> Result<(), Fault>
        ensures printed { Prints S.contents S.failure_count out.old out.new (flat_map printed_element self.now) result }
        ensures refusals { IsOkUnless result Fault.StoreFailed }
    {
        let raw = self.raw();
        if raw.is_empty() {
            return Ok(());
        }
        write_closed(raw, out)
    }

    /// Prints the fields, each with a newline at its end.
    pub(crate) fn write_fields<S: Sink>(&self, out: &mut S) -> Result<(), Fault>
        ensures printed { Prints S.contents S.failure_count out.old out.new (block_of Blocks self.now) result }
        ensures refusals { IsOkUnless result Fault.StoreFailed }
    {
        let mut start = 0;
        for (at, element) in self.elements.iter().enumerate() {
            if !element.is_field() {
                self.part(start..at).write(out)?;
                start = at + 1;
            }
        }
        self.part(start..self.elements.len()).write(out)
    }
}
