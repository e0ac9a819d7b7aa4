//! Why a field of a descriptor is refused.
ghost use Rattle.std.specs.Prelude.{◌≡◌, true, false};
ghost use Rattle.std.specs.Option.{is_some};
ghost use Rattle.rec_text.specs.Canonical.{is_field_name as may_name_a_field};
ghost use Rattle.rec_check.specs.Breaches.{Breaks};
ghost use Rattle.rec_check.specs.Stored.{fault_at_line};

use crate::descriptors::field_place::FieldPlace;
use rec_text::{Breach, Broken, Fault, OrMemory, Refusal, shown};
use std::alloc::Global;
use std::marker::Model;

/// Why a field of a descriptor is refused.
#[derive(Clone, Copy)]
pub(crate) enum DescriptorFault {
    /// It means nothing.
    Bad,
    /// It means something that isn't supported.
    Unsupported,
    /// Its pattern isn't accepted.
    Pattern,
}

/// Why a field of a descriptor is refused, and which rule it breaks, where there was memory to tell that. Contracts see the fault
/// alone.
#[derive(Drop)]
pub(crate) struct FieldRefusal {
    fault: DescriptorFault,
    breach: Option<Breach>,
}

impl Model for FieldRefusal {
    ghost use Rattle.rec_check.specs.declared.descriptors.descriptor_fault.DescriptorFault.{DescriptorFault};

    ghost Value = { DescriptorFault };

    ghost view = { λ refusal. refusal.fault };
}

/// What is answered of a field.
pub(crate) type FieldResult<T> = Result<T, OrMemory<FieldRefusal>>;

/// That a field is refused for a rule that it breaks as a whole.
fn refused(fault: DescriptorFault, broken: Broken) -> OrMemory<FieldRefusal>
    ensures { result ≡ OrMemory.Refused fault }
{
    OrMemory::Refused(FieldRefusal {
        fault,
        breach: Some(Breach { broken, word: None }),
    })
}

/// That a field breaks a rule as a whole.
pub(crate) fn bad(broken: Broken) -> OrMemory<FieldRefusal>
    ensures { result ≡ OrMemory.Refused DescriptorFault.Bad }
{
    refused(DescriptorFault::Bad, broken)
}

/// That a word of a field breaks a rule. Where there is no memory to tell the word, the rule isn't told either.
pub(crate) fn bad_word(alloc: Global, broken: Broken, word: &[u8]) -> OrMemory<FieldRefusal>
    requires { Breaks broken word.now }
    ensures { result ≡ OrMemory.Refused DescriptorFault.Bad }
{
    let breach = match shown(alloc, word) {
        Some(word) => Some(Breach {
            broken,
            word: Some(word),
        }),
        None => None,
    };
    OrMemory::Refused(FieldRefusal {
        fault: DescriptorFault::Bad,
        breach,
    })
}

/// That a field stands in a descriptor which has one of its name.
pub(crate) fn second<T>(first: &Option<T>) -> OrMemory<FieldRefusal>
    requires { is_some first.now ≡ true }
    ensures { result ≡ OrMemory.Refused DescriptorFault.Bad }
{
    let _ = first;
    bad(Broken::Second)
}

/// That a field asks for what isn't supported.
pub(crate) fn unsupported() -> OrMemory<FieldRefusal>
    ensures { result ≡ OrMemory.Refused DescriptorFault.Unsupported }
{
    refused(DescriptorFault::Unsupported, Broken::Unsupported)
}

/// That the pattern of a field isn't accepted.
pub(crate) fn bad_pattern() -> OrMemory<FieldRefusal>
    ensures { result ≡ OrMemory.Refused DescriptorFault.Pattern }
{
    refused(DescriptorFault::Pattern, Broken::Pattern)
}

/// That a word which is to be the name of a field is none.
pub(crate) fn no_name(alloc: Global, word: &[u8]) -> OrMemory<FieldRefusal>
    requires { may_name_a_field word.now ≡ false }
    ensures { result ≡ OrMemory.Refused DescriptorFault.Bad }
{
    if word.contains(&b',') {
        bad_word(alloc, Broken::Commas, word)
    } else {
        bad_word(alloc, Broken::FieldName, word)
    }
}

/// The fault of a field that begins at a line.
fn fault_at_line(fault: DescriptorFault, line: usize) -> Fault
    ensures { result ≡ fault_at_line (OrMemory.Refused fault) line }
{
    match fault {
        DescriptorFault::Bad => Fault::BadDescriptor { line },
        DescriptorFault::Unsupported => Fault::Unsupported { line },
        DescriptorFault::Pattern => Fault::BadPattern,
    }
}

/// The refusal of a field that begins at a line of the text.
pub(crate) fn refusal_at_line(
    alloc: Global,
    refusal: OrMemory<FieldRefusal>,
    place: &FieldPlace<'_, '_>,
    line: usize,
) -> Refusal
    ensures { result ≡ fault_at_line refusal line }
{
    match refusal {
        OrMemory::Refused(FieldRefusal { fault, breach }) => {
            let reason = place.reason(alloc, breach, line);
            Refusal::from(fault_at_line(fault, line)).about(alloc, reason)
        }
        OrMemory::OutOfMemory => Refusal::from(Fault::OutOfMemory),
    }
}
