//! Lists of names.
ghost use Rattle.std.specs.Prelude.{◌≡◌, ◌||◌, ℕ, List, OnOk, IsOkUnless};
ghost use Rattle.rec_sex.specs.proving.Choices.{has_name};
ghost use Rattle.rec_text.specs.Bytes.{is_among as among};

use indexmap::IndexSet;
use rec_text::{Bytes, Fault};
use std::alloc::{AllocError, Global};
use std::collections::{BTreeSet, HashSet};
use std::marker::Model;

pub(crate) fn is_among(names: &[Bytes], name: &[u8]) -> bool
    ensures { result ≡ among names.now name.now }
{
    names.iter().any(|one| name == one.as_slice())
}

/// Adds names to those of a set.
pub(crate) fn add_names<'n>(names: &mut HashSet<&'n [u8]>, more: &'n [Bytes]) -> Result<(), Fault>
    ensures names { OnOk result ((name : List ℕ) → has_name names.new name
        ≡ (has_name names.old name || among more.now name)) }
    ensures refusals { IsOkUnless result Fault.OutOfMemory }
{
    for name in more {
        names.insert(name.as_slice())?;
    }
    Ok(())
}

/// Names, each where it stands first. However many there are, one is found at once.
#[derive(Drop)]
pub(crate) struct Names<'n> {
    names: IndexSet<&'n [u8]>,
}

impl<'n> Model for Names<'n> {
    ghost use Rattle.std.specs.Prelude.{◌≡◌, ℕ, List};
    ghost use Rattle.rec_text.specs.Bytes.{texts};
    ghost use Rattle.rec_check.specs.Words.{distinct};

    ghost Value = { List (List ℕ) };

    ghost view = { λ names. texts names.names.keys };

    ghost invariant = { λ names. distinct (texts names.names.keys) ≡ texts names.names.keys };
}

impl<'n> Names<'n> {
    ghost use Rattle.std.specs.Prelude.{◌≡◌, ◌++◌, ◌∷◌, [], filter_map, if◌then◌else◌, length, position, slice_get, None, Some, IfOk, OnOk, IsOkUnless};
    ghost use Rattle.rec_text.specs.Bytes.{texts};
    ghost use Rattle.std.specs.BTreeSet.{contains};
    ghost use Rattle.std.specs.List.{enumerate_from};
    ghost use Rattle.std.specs.Ordering.{nat_cmp};
    ghost use Rattle.std.specs.Str.{bytes_eq};
    ghost use Rattle.rec_check.specs.Words.{distinct};

    pub(crate) fn new(alloc: Global) -> Names<'n>
        ensures { result ≡ [] }
    {
        Names {
            names: IndexSet::new(alloc),
        }
    }

    /// The names of a list.
    pub(crate) fn of(alloc: Global, names: &'n [Bytes]) -> Result<Names<'n>, AllocError>
        ensures { IfOk result (λ kept. kept ≡ distinct names.now) }
    {
        let mut kept = Names::new(alloc);
        for name in names {
            kept.add(name.as_slice())?;
        }
        Ok(kept)
    }

    /// Adds a name after the others, where it isn't among them.
    pub(crate) fn add(&mut self, name: &'n [u8]) -> Result<(), AllocError>
        ensures { OnOk result (self.new ≡ distinct (self.old ++ name.now ∷ [])) }
    {
        self.names.insert(name)?;
        Ok(())
    }

    /// How many there are.
    pub(crate) fn len(&self) -> usize
        ensures len { result ≡ length self.now }
        ensures once { distinct self.now ≡ self.now }
    {
        self.names.len()
    }

    /// The place of a name among them.
    pub(crate) fn place_of(&self, name: &[u8]) -> Option<usize>
        ensures { result ≡ position (bytes_eq name.now) self.now }
    {
        self.names.get_index_of(name)
    }

    pub(crate) fn as_slice(&self) -> &[&'n [u8]]
        ensures { texts result.now ≡ self.now }
    {
        self.names.as_slice()
    }

    /// The names at some places.
    pub(crate) fn at(&self, alloc: Global, places: &BTreeSet<usize>) -> Result<Vec<&'n [u8]>, Fault>
        ensures names { IfOk result (λ names. texts names.items ≡ filter_map (slice_get self.now) places.now.keys) }
        ensures refusals { IsOkUnless result Fault.OutOfMemory }
    {
        let all = self.as_slice();
        let mut names = Vec::new(alloc);
        for place in places {
            let Some(name) = all.get(*place) else {
                continue;
            };
            names.push(*name)?;
        }
        Ok(names)
    }

    /// The names that stand at none of some places.
    pub(crate) fn besides(
        &self,
        alloc: Global,
        places: &BTreeSet<usize>,
    ) -> Result<Vec<&'n [u8]>, Fault>
        ensures names { IfOk result (λ names. texts names.items
            ≡ filter_map (λ (place, name). if contains nat_cmp places.now place then None else Some name)
            (enumerate_from 0 self.now)) }
        ensures refusals { IsOkUnless result Fault.OutOfMemory }
    {
        let all = self.as_slice();
        let mut names = Vec::new(alloc);
        for (place, name) in all.iter().enumerate() {
            if !places.contains(&place) {
                names.push(*name)?;
            }
        }
        Ok(names)
    }
}
