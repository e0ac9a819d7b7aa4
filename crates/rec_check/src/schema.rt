//! What the descriptors of a text say.
ghost use Rattle.rec_check.specs.proving.Steps.{HaveTypes};

use crate::automatic::counter::{Counter, counters_of, next_value};
use crate::checks::report::violations_of;
use crate::descriptors::draft::Draft;
use crate::descriptors::type_names::TypeNames;
use crate::rules::Rules;
use crate::set::{Set_, members_of};
use rec_text::{Database, Fault, Refusal, Violation, elements_in};
use std::alloc::Global;
use std::ops::Range;

/// The record sets of a text, in file order: first the untyped one, and then one for each descriptor, with its rules.
#[derive(Drop)]
pub struct Schema {
    sets: Vec<Set_>,
    rules: Vec<Rules>,
    /// The types of the sets after the untyped one.
    types: TypeNames,
    ghost typed: { HaveTypes sets.items types },
}

impl Schema {
    ghost use Rattle.std.specs.Prelude.{◌≡◌, ◌<◌, length, position, Ok, IfOk, Err, IfErr, IsOkUnless};
    ghost use Rattle.rec_text.specs.Faults.{IsMemoryOr, UnlessMemory};
    ghost use Rattle.rec_check.specs.Automatic.{IsAutomatic};
    ghost use Rattle.rec_check.specs.Counters.{AreMembersAt, AreCountersAt};
    ghost use Rattle.rec_check.specs.Schemas.{IsSchema};
    ghost use Rattle.rec_check.specs.Sets.{is_of_type};
    ghost use Rattle.rec_check.specs.Stored.{described};
    ghost use Rattle.rec_check.specs.Violations.{AreViolations};
    ghost use Rattle.rec_check.specs.Walking.{AreWithin};

    /// Reads the descriptors of a text. The first faulty field is refused with its line.
    pub fn read(alloc: Global, database: &Database) -> Result<Schema, Refusal>
        ensures found { IfOk result (λ schema. IsSchema database.now (Ok (described schema))) }
        ensures refused { IfErr result (λ fault. IsMemoryOr fault (IsSchema database.now (Err fault))) }
    {
        let elements = database.elements();
        let mut draft = Draft::new(alloc)?;
        for (index, record) in database.records().enumerate() {
            let fields = elements_in(elements, &record);
            draft.add(alloc, database, index, fields)?;
        }
        let Draft { sets, rules, types } = draft;
        Ok(Schema { sets, rules, types })
    }

    /// The sets, in file order.
    pub fn sets(&self) -> &[Set_]
        ensures { result.now ≡ (described self.now).sets }
    {
        &self.sets
    }

    /// The rules of each set.
    pub(crate) fn rules(&self) -> &[Rules] {
        &self.rules
    }

    /// The place of the set of a type among the sets.
    pub fn set_of_type(&self, record_type: &[u8]) -> Option<usize>
        ensures { result ≡ position (is_of_type record_type.now) (described self.now).sets }
    {
        // The untyped set comes first.
        Some(self.types.place_of(record_type)? + 1)
    }

    /// Where a text breaks the rules of its sets: set by set, first its size, then the kinds that mean nothing,
    /// and then record by record.
    pub fn violations(&self, alloc: Global, database: &Database) -> Result<Vec<Violation>, Fault>
        requires { IsSchema database.now (Ok (described self.now)) }
        ensures violations { IfOk result (λ found. AreViolations database.now (described self.now) found.items) }
        ensures refusals { IsOkUnless result Fault.OutOfMemory }
    {
        violations_of(alloc, database, &self.sets, &self.rules)
    }

    /// The next value of a counter in the set at this place: one more than the greatest integer among the values of the
    /// field in the set, and 0 where there is none.
    pub fn next_auto(
        &self,
        alloc: Global,
        database: &Database,
        set: usize,
        name: &[u8],
    ) -> Result<i64, Fault>
        requires schema { IsSchema database.now (Ok (described self.now)) }
        requires place { set < length (described self.now).sets }
        ensures { UnlessMemory result (IsAutomatic database.now (described self.now) set name.now) }
    {
        let records = self.members(database, set);
        next_value(alloc, database.elements(), records, &self.rules[set], name)
    }

    /// The records of the set at this place, its descriptor aside.
    pub fn members<'d>(&self, database: &'d Database, set: usize) -> &'d [Range<usize>]
        requires schema { IsSchema database.now (Ok (described self.now)) }
        requires place { set < length (described self.now).sets }
        ensures members { AreMembersAt database.now (described self.now) set result.now }
        ensures within { AreWithin (length database.now) result.now }
    {
        members_of(database.records().as_slice(), &self.sets[set])
    }

    /// The counters of the set at this place, each ready for the number after the greatest integer among the values of
    /// its fields in the set.
    pub fn counters(
        &self,
        alloc: Global,
        database: &Database,
        set: usize,
    ) -> Result<Vec<Counter<'_>>, Fault>
        requires schema { IsSchema database.now (Ok (described self.now)) }
        requires place { set < length (described self.now).sets }
        ensures counters { IfOk result (λ counters. AreCountersAt database.now
            (described self.now) set counters.items) }
        ensures refusals { IsOkUnless result Fault.OutOfMemory }
    {
        let records = self.members(database, set);
        counters_of(alloc, database.elements(), records, &self.rules[set])
    }
}
