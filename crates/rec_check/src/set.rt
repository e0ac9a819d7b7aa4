//! One set of records, and the sets of a text as they grow.
ghost use Rattle.std.specs.Prelude.{◌≡◌, ◌-◌, ◌<◌, ◌≤◌, ◌^◌, length, OnOk};
ghost use Rattle.rec_check.specs.proving.Steps.{with_record};
ghost use Rattle.rec_check.specs.Violations.{members};

use rec_text::Bytes;
use std::alloc::AllocError;
use std::ops::Range;

/// A set of records: the untyped one, or a descriptor's. Records are counted from 0, descriptors too.
#[derive(Drop)]
pub struct Set_ {
    /// The type; none for the untyped set.
    pub kind: Option<Bytes>,
    /// The descriptor.
    pub head: Option<usize>,
    /// The records that the set holds, its descriptor aside.
    pub members: Range<usize>,
}

/// The records of a set, its descriptor aside.
pub(crate) fn members_of<'d>(records: &'d [Range<usize>], set: &Set_) -> &'d [Range<usize>]
    requires ordered { set.now.members.start ≤ set.now.members.end }
    requires within { set.now.members.end ≤ length records.now }
    ensures { result.now ≡ members records.now set.now }
{
    &records[set.members.start..set.members.end]
}

/// Adds the record of an index after the others: a descriptor of a type, or one more of the last set.
pub(crate) fn add_record(
    sets: &mut Vec<Set_>,
    index: usize,
    record_type: Option<Bytes>,
) -> Result<(), AllocError>
    requires { index < 2 ^ 64 - 1 }
    ensures { OnOk result (sets.new.items ≡ with_record sets.old.items index record_type) }
{
    let end = index + 1;
    match record_type {
        Some(record_type) => sets.push(Set_ {
            kind: Some(record_type),
            head: Some(index),
            members: end..end,
        })?,
        None => {
            if let Some(last) = sets.last_mut() {
                last.members.end = end;
            }
        }
    }
    Ok(())
}
