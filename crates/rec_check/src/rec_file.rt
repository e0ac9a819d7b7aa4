//! A text that was read: its elements, and its record sets with their rules.
use crate::schema::Schema;
use rec_text::{Database, Refusal, read};
use std::alloc::Global;
use std::marker::Model;

/// The elements of a text, and its record sets with their rules, which belong together.
#[derive(Drop)]
pub struct RecFile<'t> {
    database: Database<'t>,
    schema: Schema,
}

impl<'t> Model for RecFile<'t> {
    ghost use Rattle.std.specs.Prelude.{Ok};
    ghost use Rattle.std.specs.Coded.{codes};
    ghost use Rattle.rec_check.specs.contracts.schema.Schema.{the_row};
    ghost use Rattle.rec_check.specs.DescribedTexts.{ReadText};
    ghost use Rattle.rec_check.specs.Schemas.{IsSchema};
    ghost use Rattle.rec_check.specs.Stored.{described};

    ghost Value = { ReadText };

    ghost coded = { Prim.hlevel (codes, the_row.coded) };

    ghost view = { λ f. record { pieces = f.database; schema = f.schema } };

    ghost invariant = { λ f. IsSchema f.database (Ok (described f.schema)) };
}

impl<'t> RecFile<'t> {
    ghost use Rattle.std.specs.Prelude.{◌≡◌, Ok, IfOk, Err, IfErr};
    ghost use Rattle.rec_text.specs.Faults.{IsMemoryOr};
    ghost use Rattle.rec_check.specs.DescribedTexts.{BelongTogether, IsDescribedText, described_text};

    /// Reads a text: its elements, and then its descriptors. The first faulty line or field is refused.
    pub fn read(alloc: Global, text: &'t [u8]) -> Result<RecFile<'t>, Refusal>
        ensures found { IfOk result (λ file. IsDescribedText text.now (Ok (described_text file))) }
        ensures refused { IfErr result (λ fault. IsMemoryOr fault (IsDescribedText text.now (Err fault))) }
    {
        let database = match read(alloc, text) {
            Ok(database) => database,
            Err(fault) => return Err(Refusal::unread(alloc, text, fault)),
        };
        let schema = Schema::read(alloc, &database)?;
        Ok(RecFile { database, schema })
    }

    /// The elements.
    pub fn database(&self) -> &Database<'t>
        ensures elements { result.now ≡ self.now.pieces }
        ensures together { BelongTogether self.now }
    {
        &self.database
    }

    /// The record sets and their rules.
    pub fn schema(&self) -> &Schema
        ensures schema { result.now ≡ self.now.schema }
        ensures together { BelongTogether self.now }
    {
        &self.schema
    }
}
