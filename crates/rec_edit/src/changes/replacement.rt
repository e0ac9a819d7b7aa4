//! Records that are replaced as one: by new fields, or by comments of all their lines.
ghost use Rattle.std.specs.Prelude.{◌≡◌, ◌++◌, ◌+◌, ◌-◌, ◌^◌, ◌<◌, List, length, take, if◌then◌else◌, IfOk, OnOk};
ghost use Rattle.rec_text.specs.Bytes.{ends_newline as is_ended, closed_text};
ghost use Rattle.rec_text.specs.Elements.{Piece, AreElementsOf, text_of};
ghost use Rattle.rec_edit.specs.Script.{settled};
ghost use Rattle.rec_edit.specs.Rules.{comments_of, fields_of, replaced, commented};
ghost use Rattle.rec_edit.specs.proving.Drafts.{AreLines, LeadsOn};
ghost use Rattle.rec_edit.specs.proving.Laying.{IsPlace, block_at, span_at};

use crate::changes::setting::append_commented;
use crate::draft::Draft;
use crate::insertion::append_fields;
use crate::laying::Change;
use crate::request::Pair;
use rec_text::{Database, ends_newline};
use std::alloc::{AllocError, Global};
use std::ops::Range;

/// The new text, without the newline at its end where the old one lacks it.
fn as_ended<'n>(old: &[u8], new: &'n [u8]) -> &'n [u8]
    ensures { result.now ≡ (if is_ended old.now then new.now else take (length new.now - 1) new.now) }
{
    if ends_newline(old) {
        return new;
    }
    &new[..new.len().saturating_sub(1)]
}

/// Carries out a record that is replaced by a text of elements with newlines.
fn lay_replaced(
    alloc: Global,
    database: &Database,
    own: &Range<usize>,
    end: usize,
    new: &[u8],
    draft: &mut Draft,
) -> Result<(), AllocError>
    requires whole { AreElementsOf database.now (text_of database.now) }
    requires place { IsPlace database.now own.now end }
    requires fits { draft.old.at + length (text_of (span_at database.now own.now end)) < 2 ^ 64 }
    ensures { (pieces : List Piece) → AreLines pieces → new.now ≡ text_of pieces
        → OnOk result (LeadsOn draft.old (settled (replaced pieces (block_at database.now own.now end))) draft.new) }
{
    let old = database.text_in(own);
    draft.change(alloc, old, as_ended(old, new))?;
    draft.keep(database.text_in(&(own.end..end)))?;
    Ok(())
}

/// New fields stand instead of each record: they, and their text.
#[derive(Drop)]
pub(crate) struct Replacement<'r> {
    pairs: &'r [Pair],
    text: Vec<u8>,
    ghost written: { text.items ≡ text_of (fields_of pairs.now) },
}

impl<'r> Replacement<'r> {
    ghost use Rattle.std.specs.Prelude.{◌≡◌, IfOk};

    pub fn of(alloc: Global, pairs: &'r [Pair]) -> Result<Replacement<'r>, AllocError>
        ensures { IfOk result (λ change. change.pairs.now ≡ pairs.now) }
    {
        let mut text = Vec::new(alloc);
        append_fields(&mut text, pairs)?;
        Ok(Replacement { pairs, text })
    }
}

impl<'r> Change for Replacement<'r> {
    ghost made = { λ r _. replaced (fields_of r.pairs.now) };

    fn lay(
        &self,
        alloc: Global,
        database: &Database,
        index: usize,
        own: &Range<usize>,
        end: usize,
        draft: &mut Draft,
    ) -> Result<(), AllocError> {
        lay_replaced(alloc, database, own, end, &self.text, draft)
    }
}

/// Appends a comment for each physical line of a text, which may lack a newline at its end.
fn append_comments(alloc: Global, out: &mut Vec<u8>, text: &[u8]) -> Result<(), AllocError>
    ensures { OnOk result (out.new.items ≡ out.old.items ++ text_of (comments_of (closed_text text.now))) }
{
    if ends_newline(text) {
        return append_commented(out, text);
    }
    let mut whole = Vec::from_slice(alloc, text)?;
    whole.push(b'\n')?;
    append_commented(out, &whole)
}

/// All lines of records become comments.
#[derive(Drop)]
pub(crate) struct Commenting {}

impl Change for Commenting {
    ghost made = { λ _ _. commented };

    fn lay(
        &self,
        alloc: Global,
        database: &Database,
        index: usize,
        own: &Range<usize>,
        end: usize,
        draft: &mut Draft,
    ) -> Result<(), AllocError> {
        let mut new = Vec::new(alloc);
        append_comments(alloc, &mut new, database.text_in(own))?;
        lay_replaced(alloc, database, own, end, &new, draft)
    }
}
