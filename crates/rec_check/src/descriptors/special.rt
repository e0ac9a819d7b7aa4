//! The fields of a descriptor that say something of its set.
ghost use Rattle.std.specs.Prelude.{◌≡◌, drop};
ghost use Rattle.rec_check.specs.Descriptors.{special_of, bound_in, comparison_in, width_of};

use crate::field_types::kind::natural_of;

/// What a field of a descriptor says, by its name.
#[derive(Clone, Copy)]
pub(crate) enum Special {
    /// `%rec`: the type of the set.
    Rec,
    /// `%key`: the field whose value tells the records apart.
    Key,
    /// `%mandatory`: fields that each record has.
    Mandatory,
    /// `%prohibit`: fields that no record has.
    Prohibit,
    /// `%unique`: fields that no record has twice.
    Unique,
    /// `%singular`: fields of whose values no two records have the same.
    Singular,
    /// `%allowed`: all that a record may have, beside its key and what is mandatory.
    Allowed,
    /// `%auto`: counters.
    Auto,
    /// `%type`: the type of some fields.
    Typed,
    /// `%typedef`: what a kind of types means.
    Typedef,
    /// `%size`: how many records there are.
    Size,
    /// `%constraint`: an expression that selects each record.
    Constraint,
    /// `%confidential`: fields that are encrypted, which isn't supported.
    Confidential,
}

/// How a number of records is compared.
#[derive(Clone, Copy)]
pub enum Comparison {
    Exactly,
    Less,
    AtMost,
    Greater,
    AtLeast,
}

/// How many records a set has.
#[derive(Clone, Copy)]
pub struct Bound {
    pub comparison: Comparison,
    pub number: u64,
}

/// What a field of this name says of its set, if anything.
pub(crate) fn special_of(name: &[u8]) -> Option<Special>
    ensures { result ≡ special_of name.now }
{
    if name == b"%rec".as_slice() {
        Some(Special::Rec)
    } else if name == b"%key".as_slice() {
        Some(Special::Key)
    } else if name == b"%mandatory".as_slice() {
        Some(Special::Mandatory)
    } else if name == b"%prohibit".as_slice() {
        Some(Special::Prohibit)
    } else if name == b"%unique".as_slice() {
        Some(Special::Unique)
    } else if name == b"%singular".as_slice() {
        Some(Special::Singular)
    } else if name == b"%allowed".as_slice() {
        Some(Special::Allowed)
    } else if name == b"%auto".as_slice() {
        Some(Special::Auto)
    } else if name == b"%type".as_slice() {
        Some(Special::Typed)
    } else if name == b"%typedef".as_slice() {
        Some(Special::Typedef)
    } else if name == b"%size".as_slice() {
        Some(Special::Size)
    } else if name == b"%constraint".as_slice() {
        Some(Special::Constraint)
    } else if name == b"%confidential".as_slice() {
        Some(Special::Confidential)
    } else {
        None
    }
}

/// The operator that comes first, and what follows it.
fn split_comparison(value: &[u8]) -> (Comparison, &[u8])
    ensures comparison { result.0 ≡ comparison_in value.now }
    ensures following { result.1.now ≡ drop (width_of (comparison_in value.now)) value.now }
{
    match value {
        [b'<', b'=', following @ ..] => (Comparison::AtMost, following),
        [b'<', following @ ..] => (Comparison::Less, following),
        [b'>', b'=', following @ ..] => (Comparison::AtLeast, following),
        [b'>', following @ ..] => (Comparison::Greater, following),
        _ => (Comparison::Exactly, value),
    }
}

/// What stands after the operator of a `%size` field, if it has one.
pub(crate) fn number_in(value: &[u8]) -> &[u8] {
    let (_, number) = split_comparison(value);
    number
}

/// What the value of a `%size` field says.
pub(crate) fn bound_in(value: &[u8]) -> Option<Bound>
    ensures { result ≡ bound_in value.now }
{
    let (comparison, following) = split_comparison(value);
    let number = natural_of(following)?;
    Some(Bound { comparison, number })
}
