//! The types that kinds mean within a descriptor, by the definitions of that.
ghost use Rattle.std.specs.Prelude.{◌≡◌, ℕ, List, [], None, map, IfOk, OnOk};
ghost use Rattle.rec_check.specs.proving.Fitting.{place_of};
ghost use Rattle.rec_check.specs.proving.Resolved.{AreLastPlaces, AreRight, AreAtWork, AreSettledAt, ArePlacesWithin, IsRight, StaySettled, open_at, settled_at};
ghost use Rattle.rec_check.specs.Resolving.{is_known_kind as is_known};
ghost use Rattle.rec_check.specs.Stored.{definition_stored};
ghost use Rattle.rec_check.specs.Types.{Definition as OneDefinition};

use crate::field_types::definition::Definition;
use crate::field_types::field_type::FieldType;
use crate::field_types::known_kind::KnownKind;
use std::alloc::{AllocError, Global};
use std::collections::HashMap;

/// What is known of the meaning of a definition.
#[derive(Clone, Copy)]
pub(crate) enum Meaning<'r> {
    /// It is that of the definition at a place.
    SameAs(usize),
    /// It is a type, or nothing where the kind isn't resolved.
    Settled(Option<&'r FieldType>),
}

/// Whether a kind needs no definition.
#[tactic(auto, unfolding(crate::specs::Resolving::is_known_kind))]
fn is_known_kind(kind: &[u8]) -> bool
    ensures { result ≡ is_known kind.now }
{
    KnownKind::of(kind).is_some()
}

/// The place of the last definition of each name.
fn last_places<'r>(
    alloc: Global,
    definitions: &'r [Definition],
) -> Result<HashMap<&'r [u8], usize>, AllocError>
    ensures { IfOk result (λ places. AreLastPlaces (map definition_stored definitions.now) (place_of places)) }
{
    let mut places = HashMap::new(alloc);
    for (place, definition) in definitions.iter().enumerate() {
        places.insert(definition.name.as_slice(), place)?;
    }
    Ok(places)
}

/// What a definition alone says of its meaning.
fn first_meaning<'r>(places: &HashMap<&'r [u8], usize>, definition: &'r Definition) -> Meaning<'r>
    ensures { (definitions : List OneDefinition) → AreLastPlaces definitions (place_of places.now)
        → IsRight definitions (definition_stored definition.now) result }
{
    let kind = definition.kind.as_slice();
    if is_known_kind(kind) {
        return Meaning::Settled(Some(&definition.value_type));
    }
    match places.get(kind) {
        Some(place) => Meaning::SameAs(*place),
        None => Meaning::Settled(None),
    }
}

fn first_meanings<'r>(
    alloc: Global,
    places: &HashMap<&'r [u8], usize>,
    definitions: &'r [Definition],
) -> Result<Vec<Meaning<'r>>, AllocError>
    requires { AreLastPlaces (map definition_stored definitions.now) (place_of places.now) }
    ensures { IfOk result (λ meanings. AreRight (map definition_stored definitions.now) meanings.items) }
{
    let mut meanings = Vec::with_capacity(alloc, definitions.len())?;
    for definition in definitions {
        meanings.push(first_meaning(places, definition))?;
    }
    Ok(meanings)
}

/// The type that the definition at a place is known to mean.
fn settled_at<'r>(meanings: &[Meaning<'r>], place: usize) -> Option<&'r FieldType>
    ensures { result ≡ settled_at meanings.now place }
{
    match meanings.get(place) {
        Some(Meaning::Settled(value_type)) => *value_type,
        _ => None,
    }
}

/// The place of the definition that means the same, as long as nothing is settled.
fn next_of(meanings: &[Meaning], place: usize) -> Option<usize>
    ensures { result ≡ open_at meanings.now place }
{
    match meanings.get(place) {
        Some(Meaning::SameAs(next)) => Some(*next),
        _ => None,
    }
}

/// Goes from definition to definition, as long as nothing is settled, and tells where it ends. What it passes counts as
/// resolved to nothing meanwhile, so that it ends where it comes back.
fn follow(
    meanings: &mut [Meaning],
    start: usize,
    passed: &mut Vec<usize>,
) -> Result<usize, AllocError>
    requires { passed.old.items ≡ [] }
    ensures work { IfOk result (λ end. (definitions : List OneDefinition) → AreRight definitions meanings.old
        → AreAtWork definitions passed.new.items end meanings.new) }
    ensures end { IfOk result (λ end. open_at meanings.new end ≡ None) }
    ensures start { OnOk result (open_at meanings.new start ≡ None) }
    ensures settled { OnOk result (StaySettled meanings.old meanings.new) }
    ensures within { OnOk result (ArePlacesWithin passed.new.items meanings.new) }
{
    let mut at = start;
    while let Some(next) = next_of(meanings, at) {
        meanings[at] = Meaning::Settled(None);
        passed.push(at)?;
        at = next;
    }
    Ok(at)
}

/// Settles the meanings at some places.
fn settle<'r>(meanings: &mut [Meaning<'r>], places: &[usize], value_type: Option<&'r FieldType>)
    requires { ArePlacesWithin places.now meanings.old }
    ensures { AreSettledAt places.now value_type.entry meanings.old meanings.new }
{
    for place in places {
        meanings[*place] = Meaning::Settled(value_type);
    }
}

/// Settles what the definition at a place means, and all on the way to it.
fn resolve(alloc: Global, meanings: &mut [Meaning], start: usize) -> Result<(), AllocError>
    ensures right { OnOk result ((definitions : List OneDefinition) → AreRight definitions meanings.old
        → AreRight definitions meanings.new) }
    ensures start { OnOk result (open_at meanings.new start ≡ None) }
    ensures settled { OnOk result (StaySettled meanings.old meanings.new) }
{
    let mut passed = Vec::new(alloc);
    let end = follow(meanings, start, &mut passed)?;
    let value_type = settled_at(meanings, end);
    settle(meanings, &passed, value_type);
    Ok(())
}

/// Settles what each definition means.
fn resolve_all(alloc: Global, meanings: &mut [Meaning]) -> Result<(), AllocError>
    ensures right { OnOk result ((definitions : List OneDefinition) → AreRight definitions meanings.old
        → AreRight definitions meanings.new) }
    ensures settled { OnOk result ((place : ℕ) → open_at meanings.new place ≡ None) }
{
    for start in 0..meanings.len() {
        resolve(alloc, meanings, start)?;
    }
    Ok(())
}

/// What kinds mean within a descriptor.
#[derive(Drop)]
pub(crate) struct Resolver<'r> {
    /// The place of the last definition of each name.
    pub places: HashMap<&'r [u8], usize>,
    /// What each definition means.
    pub meanings: Vec<Meaning<'r>>,
}

impl<'r> Resolver<'r> {
    ghost use Rattle.std.specs.Prelude.{◌≡◌, ℕ, List, map, option_map, IfOk};
    ghost use Rattle.regex.specs.Patterns.{Re};
    ghost use Rattle.rec_check.specs.Meanings.{meaning_in};
    ghost use Rattle.rec_check.specs.proving.Resolved.{meaning_by, resolved_by};
    ghost use Rattle.rec_check.specs.Stored.{definition_stored, type_stored};
    ghost use Rattle.rec_check.specs.Types.{FieldType as OneType};

    /// Follows each definition once.
    pub(crate) fn of(
        alloc: Global,
        definitions: &'r [Definition],
    ) -> Result<Resolver<'r>, AllocError>
        ensures { IfOk result (λ resolver. (kind : List ℕ) (own : OneType Re)
            → meaning_by resolver kind own ≡ meaning_in (map definition_stored definitions.now) kind own) }
    {
        let places = last_places(alloc, definitions)?;
        let mut meanings = first_meanings(alloc, &places, definitions)?;
        resolve_all(alloc, &mut meanings)?;
        Ok(Resolver { places, meanings })
    }

    /// The type that a kind means, which has a type of its own; none where the kind isn't resolved.
    pub(crate) fn meaning_of(&self, kind: &[u8], own: &'r FieldType) -> Option<&'r FieldType>
        ensures { option_map (λ value_type. type_stored value_type.now) result
            ≡ meaning_by self.now kind.now (type_stored own.now) }
    {
        if is_known_kind(kind) {
            return Some(own);
        }
        settled_at(&self.meanings, *self.places.get(kind)?)
    }

    /// Whether a kind means a type.
    pub(crate) fn resolves(&self, kind: &[u8]) -> bool
        ensures { result ≡ resolved_by self.now kind.now }
    {
        if is_known_kind(kind) {
            return true;
        }
        let Some(place) = self.places.get(kind) else {
            return false;
        };
        settled_at(&self.meanings, *place).is_some()
    }
}
