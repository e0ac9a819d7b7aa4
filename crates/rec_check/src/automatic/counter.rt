//! The counters of a set, each with its greatest number so far.
ghost use Rattle.std.specs.Prelude.{◌≡◌, [], ◌∷◌, None, unwrap_or, length, OnOk, IfOk, IsOkUnless};
ghost use Rattle.std.specs.List.{AllByRecursion};
ghost use Rattle.rec_text.specs.Faults.{UnlessMemory};
ghost use Rattle.rec_text.specs.Places.{piece_of, pieces_of};
ghost use Rattle.rec_check.specs.Automatic.{IsNext, readings};
ghost use Rattle.rec_text.specs.Bytes.{texts};
ghost use Rattle.rec_check.specs.Counters.{greatest_at, Counts, CountsFrom, HoldsGreatest, counter_names, IsKept, AreCounters};
ghost use Rattle.rec_check.specs.Counting.{readings_in};
ghost use Rattle.rec_check.specs.Stored.{rules_stored};
ghost use Rattle.rec_check.specs.proving.Tests.{type_in};
ghost use Rattle.rec_check.specs.Walking.{AreWithin};

use crate::automatic::{
    automatic_names, begins_special, greater, is_counter, may_be_counter, number_after, reading_of,
};
use crate::field_types::types::Types;
use crate::rules::Rules;
use rec_text::{Element, Fault, Reason, Refusal, Uncounted, elements_in, shown};
use std::alloc::{AllocError, Global};
use std::collections::HashMap;
use std::ops::Range;

/// The kind that a descriptor says of a field.
#[derive(Clone, Copy)]
struct Kind<'r> {
    word: &'r [u8],
    is_defined: bool,
}

impl Kind<'_> {
    /// That it isn't counted.
    fn uncounted(self, alloc: Global) -> Option<Uncounted> {
        let word = shown(alloc, self.word)?;
        Some(if self.is_defined {
            Uncounted::Kind(word)
        } else {
            Uncounted::Undefined(word)
        })
    }
}

/// A counter of a set: the name of its fields, and the greatest integer among their values.
#[derive(Drop)]
pub struct Counter<'r> {
    name: &'r [u8],
    /// Whether fields of the name may be counted.
    counts: bool,
    greatest: Option<i64>,
    kind: Option<Kind<'r>>,
}

impl<'r> Counter<'r> {
    ghost use Rattle.std.specs.Prelude.{◌≡◌, ◌∷◌, ℤ, List, IfOk, IfErr, IsOkUnless};
    ghost use Rattle.rec_check.specs.Automatic.{IsNext};
    ghost use Rattle.rec_check.specs.Counters.{IsCounterOf};
    ghost use Rattle.rec_check.specs.Rules.{Rules as Asked};

    /// The name of its fields.
    pub fn name(&self) -> &'r [u8]
        ensures { result.now ≡ self.now.name.now }
    {
        self.name
    }

    /// The next number, which counts from then on: one more than the greatest, and 0 where there is none. Where that is
    /// refused, the counter stays as it is.
    pub fn next_number(&mut self, alloc: Global) -> Result<i64, Refusal>
        ensures next { (rules : Asked) (numbers : List ℤ) → IsCounterOf rules numbers self.old
            → IsNext rules self.old.name.now numbers result }
        ensures counted { (rules : Asked) (numbers : List ℤ) → IsCounterOf rules numbers self.old
            → IfOk result (λ number. IsCounterOf rules (number ∷ numbers) self.new) }
        ensures name { self.new.name ≡ self.old.name }
        ensures refusals { IsOkUnless result Fault.AutoImpossible }
        ensures unchanged { IfErr result (λ _. self.new ≡ self.old) }
    {
        if !self.counts {
            return Err(self.refused(alloc, Fault::AutoImpossible));
        }
        match number_after(self.greatest) {
            Ok(number) => {
                self.greatest = Some(number);
                Ok(number)
            }
            Err(fault) => Err(self.refused(alloc, fault)),
        }
    }

    /// The refusal of the next number, and why there is none.
    fn refused(&self, alloc: Global, fault: Fault) -> Refusal
        ensures { result ≡ fault }
    {
        Refusal::from(fault).about(alloc, self.reason(alloc))
    }

    fn reason(&self, alloc: Global) -> Option<Reason> {
        let name = shown(alloc, self.name)?;
        let why = match self.kind {
            _ if self.counts => Uncounted::End,
            Some(kind) if !begins_special(self.name) => kind.uncounted(alloc)?,
            _ => Uncounted::Special,
        };
        Some(Reason::Counter { name, why })
    }
}

/// Counts a field, where its name is one of the counters.
fn count_field<'a>(
    alloc: Global,
    greatest: &mut HashMap<&'a [u8], Option<i64>>,
    field: &Element<'a>,
) -> Result<(), Fault>
    ensures counts { OnOk result (Counts (greatest_at greatest.old) (greatest_at greatest.new)
        (λ name. readings_in name (piece_of field.now ∷ []))) }
    ensures refusals { IsOkUnless result Fault.OutOfMemory }
{
    let name = field.name();
    let Some(so_far) = greatest.get(name).copied() else {
        return Ok(());
    };
    let number = reading_of(alloc, field)?;
    greatest.insert(name, greater(so_far, number))?;
    Ok(())
}

/// Counts the fields of a record.
fn count_fields<'a>(
    alloc: Global,
    greatest: &mut HashMap<&'a [u8], Option<i64>>,
    fields: &[Element<'a>],
) -> Result<(), Fault>
    ensures counts { OnOk result (Counts (greatest_at greatest.old) (greatest_at greatest.new)
        (λ name. readings_in name (pieces_of fields.now))) }
    ensures refusals { IsOkUnless result Fault.OutOfMemory }
{
    for field in fields {
        count_field(alloc, greatest, field)?;
    }
    Ok(())
}

/// Counts the fields of records.
fn count_records<'a>(
    alloc: Global,
    greatest: &mut HashMap<&'a [u8], Option<i64>>,
    elements: &[Element<'a>],
    records: &[Range<usize>],
) -> Result<(), Fault>
    requires { AreWithin (length elements.now) records.now }
    ensures counts { OnOk result (Counts (greatest_at greatest.old) (greatest_at greatest.new)
        (readings (pieces_of elements.now) records.now)) }
    ensures refusals { IsOkUnless result Fault.OutOfMemory }
{
    for record in records {
        count_fields(alloc, greatest, elements_in(elements, record))?;
    }
    Ok(())
}

/// Names without a number so far.
fn uncounted<'a>(alloc: Global, names: &[&'a [u8]]) -> Result<HashMap<&'a [u8], Option<i64>>, Fault>
    ensures none { IfOk result (λ greatest. CountsFrom (texts names.now) (greatest_at greatest)) }
    ensures refusals { IsOkUnless result Fault.OutOfMemory }
{
    let mut greatest = HashMap::new(alloc);
    for name in names {
        greatest.insert(*name, None)?;
    }
    Ok(greatest)
}

/// The greatest number of each of these names in records.
fn greatest_numbers<'a>(
    alloc: Global,
    elements: &[Element<'a>],
    records: &[Range<usize>],
    names: &[&'a [u8]],
) -> Result<HashMap<&'a [u8], Option<i64>>, Fault>
    requires { AreWithin (length elements.now) records.now }
    ensures greatest { IfOk result (λ greatest. HoldsGreatest (texts names.now) (greatest_at greatest)
        (readings (pieces_of elements.now) records.now)) }
    ensures refusals { IsOkUnless result Fault.OutOfMemory }
{
    let mut greatest = uncounted(alloc, names)?;
    count_records(alloc, &mut greatest, elements, records)?;
    Ok(greatest)
}

/// What is kept for a name.
fn kept(greatest: &HashMap<&[u8], Option<i64>>, name: &[u8]) -> Option<i64>
    ensures { result ≡ unwrap_or (greatest_at greatest.now name.now) None }
{
    match greatest.get(name) {
        Some(greatest) => *greatest,
        None => None,
    }
}

/// The kind that is said of a field.
fn kind_of<'r>(rules: &'r Rules, types: &Types, name: &[u8]) -> Option<Kind<'r>> {
    let place = *types.places.get(name)?;
    Some(Kind {
        word: rules.types.get(place)?.kind.as_slice(),
        is_defined: types.tests.get(place)?.lazy.is_some(),
    })
}

/// A counter for each of these names.
fn counters_with<'r>(
    alloc: Global,
    names: &[&'r [u8]],
    rules: &'r Rules,
    types: &Types,
    greatest: &HashMap<&[u8], Option<i64>>,
) -> Result<Vec<Counter<'r>>, AllocError>
    ensures names { IfOk result (λ counters. counter_names counters.items ≡ texts names.now) }
    ensures each { IfOk result (λ counters. AllByRecursion
        (IsKept (type_in types.now) (greatest_at greatest.now)) counters.items) }
{
    let mut counters = Vec::with_capacity(alloc, names.len())?;
    for name in names {
        counters.push(Counter {
            name: *name,
            counts: is_counter(types, name),
            greatest: kept(greatest, name),
            kind: kind_of(rules, types, name),
        })?;
    }
    Ok(counters)
}

/// The counters of a set with these records and rules.
pub(crate) fn counters_of<'r>(
    alloc: Global,
    elements: &[Element],
    records: &[Range<usize>],
    rules: &'r Rules,
) -> Result<Vec<Counter<'r>>, Fault>
    requires { AreWithin (length elements.now) records.now }
    ensures counters { IfOk result (λ counters. AreCounters (rules_stored rules.now)
        (readings (pieces_of elements.now) records.now) counters.items) }
    ensures refusals { IsOkUnless result Fault.OutOfMemory }
{
    let names = automatic_names(alloc, rules)?;
    if names.is_empty() {
        return Ok(Vec::new(alloc));
    }
    let types = Types::of(alloc, rules)?;
    let greatest = greatest_numbers(alloc, elements, records, &names)?;
    Ok(counters_with(alloc, &names, rules, &types, &greatest)?)
}

/// The next value of a counter in a set with these records and rules.
pub(crate) fn next_value<'a>(
    alloc: Global,
    elements: &[Element<'a>],
    records: &[Range<usize>],
    rules: &Rules,
    name: &'a [u8],
) -> Result<i64, Fault>
    requires { AreWithin (length elements.now) records.now }
    ensures { UnlessMemory result (IsNext (rules_stored rules.now) name.now
        (readings (pieces_of elements.now) records.now name.now)) }
{
    if !may_be_counter(alloc, rules, name)? {
        return Err(Fault::AutoImpossible);
    }
    let greatest = greatest_numbers(alloc, elements, records, &[name])?;
    number_after(kept(&greatest, name))
}
