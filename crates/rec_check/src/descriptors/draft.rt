//! A schema that is being read.

use crate::descriptors::descriptor::{Descriptor, is_descriptor};
use crate::descriptors::type_names::TypeNames;
use crate::rules::Rules;
use crate::set::{Set_, add_record};
use rec_text::{Database, Element, Refusal};
use std::alloc::{AllocError, Global};

/// The sets of the records so far, with their rules.
#[derive(Drop)]
pub(crate) struct Draft {
    pub sets: Vec<Set_>,
    pub rules: Vec<Rules>,
    /// The types of the sets after the untyped one.
    pub types: TypeNames,
}

impl Draft {
    ghost use Rattle.std.specs.Prelude.{◌≡◌, ◌≤◌, ◌<◌, ◌^◌, ◌-◌, All, length, IfOk, OnOk, IfErr};
    ghost use Rattle.rec_text.specs.Elements.{text_of};
    ghost use Rattle.rec_text.specs.Faults.{IsMemoryOr};
    ghost use Rattle.rec_text.specs.Places.{pieces_of};
    ghost use Rattle.rec_check.specs.proving.Reading.{AddsRecord, IsRefusedRecord, drafted, untyped};
    ghost use Rattle.rec_check.specs.proving.Steps.{HaveTypes};

    /// The untyped set alone, without a record.
    pub(crate) fn new(alloc: Global) -> Result<Draft, AllocError>
        ensures untyped { IfOk result (λ draft. drafted draft ≡ untyped) }
        ensures typed { IfOk result (λ draft. HaveTypes draft.sets.items draft.types) }
    {
        let mut sets = Vec::new(alloc);
        sets.push(Set_ {
            kind: None,
            head: None,
            members: 0..0,
        })?;
        let mut rules = Vec::new(alloc);
        rules.push(Rules::none(alloc))?;
        Ok(Draft {
            sets,
            rules,
            types: TypeNames::new(alloc),
        })
    }

    /// Takes the record of this index, which has these elements.
    pub(crate) fn add(
        &mut self,
        alloc: Global,
        database: &Database,
        index: usize,
        fields: &[Element],
    ) -> Result<(), Refusal>
        requires places { All (λ field. field.at ≤ length (text_of database.now)) fields.now }
        requires index { index < 2 ^ 64 - 1 }
        requires typed { HaveTypes self.old.sets.items self.old.types }
        ensures typed { OnOk result (HaveTypes self.new.sets.items self.new.types) }
        ensures added { OnOk result (AddsRecord self.old.types (pieces_of fields.now) index (drafted self.old)
            (drafted self.new)) }
        ensures refused { IfErr result (λ fault. IsMemoryOr fault
            (IsRefusedRecord (text_of database.now) self.old.types fields.now fault)) }
    {
        if !is_descriptor(fields) {
            add_record(&mut self.sets, index, None)?;
            return Ok(());
        }
        let descriptor = Descriptor::read(alloc, database, fields, &self.types)?;
        let Descriptor {
            record_type,
            rules,
            ..
        } = descriptor;
        if let Some(record_type) = &record_type {
            self.types.add(alloc, record_type.as_slice())?;
        }
        self.rules.push(rules)?;
        add_record(&mut self.sets, index, record_type)?;
        Ok(())
    }
}
