//! Which of some names a record has, and which it has again.

use crate::checks::names::Names;
use rec_text::{Element, Fault};
use std::alloc::Global;
use std::collections::BTreeSet;

/// The places, among some names, of those that a record has.
#[derive(Drop)]
pub(crate) struct NamesSeen {
    /// Of those that it has once or more.
    pub once: BTreeSet<usize>,
    /// Of those that it has twice or more.
    pub again: BTreeSet<usize>,
}

impl NamesSeen {
    ghost use Rattle.std.specs.Prelude.{◌≡◌, if◌then◌else◌, IfOk, OnOk, IsOkUnless};
    ghost use Rattle.std.specs.BTreeSet.{contains, insert_key};
    ghost use Rattle.std.specs.Ordering.{nat_cmp};
    ghost use Rattle.rec_text.specs.Places.{pieces_of};
    ghost use Rattle.rec_check.specs.proving.NamesSeen.{AreNamesSeen};
    ghost use Rattle.rec_check.specs.Words.{distinct};

    /// Notes a field of the name at a place.
    fn note(&mut self, place: usize) -> Result<(), Fault>
        ensures once { OnOk result (self.new.once.keys ≡ insert_key nat_cmp self.old.once.keys place) }
        ensures again { OnOk result (self.new.again.keys
            ≡ (if contains nat_cmp self.old.once place
            then insert_key nat_cmp self.old.again.keys place else self.old.again.keys)) }
        ensures refusals { IsOkUnless result Fault.OutOfMemory }
    {
        if !self.once.insert(place)? {
            self.again.insert(place)?;
        }
        Ok(())
    }

    /// Those that a record with these fields has.
    pub(crate) fn of(
        alloc: Global,
        names: &Names<'_>,
        fields: &[Element],
    ) -> Result<NamesSeen, Fault>
        ensures seen { distinct names.now ≡ names.now → IfOk result (AreNamesSeen names.now (pieces_of fields.now)) }
        ensures refusals { IsOkUnless result Fault.OutOfMemory }
    {
        let mut seen = NamesSeen {
            once: BTreeSet::new(alloc),
            again: BTreeSet::new(alloc),
        };
        for field in fields {
            let Some(place) = names.place_of(field.name()) else {
                continue;
            };
            seen.note(place)?;
        }
        Ok(seen)
    }
}
