//! The types of a text's sets.
use indexmap::IndexSet;
use std::alloc::{AllocError, Global};
use std::marker::Model;

/// Types in the order in which descriptors name them. However many there are, one is found at once.
#[derive(Drop)]
pub(crate) struct TypeNames {
    names: IndexSet<Vec<u8>>,
}

impl Model for TypeNames {
    ghost use Rattle.std.specs.Prelude.{ℕ, List, map};

    ghost Value = { List (List ℕ) };

    ghost view = { λ types. map (λ name. name.items) types.names.keys };
}

impl TypeNames {
    ghost use Rattle.std.specs.Prelude.{◌≡◌, ◌++◌, ◌∷◌, [], false, position, OnOk};
    ghost use Rattle.std.specs.Str.{bytes_eq};
    ghost use Rattle.rec_text.specs.Bytes.{is_among};

    pub(crate) fn new(alloc: Global) -> TypeNames
        ensures { result ≡ [] }
    {
        TypeNames {
            names: IndexSet::new(alloc),
        }
    }

    pub(crate) fn contains(&self, name: &[u8]) -> bool
        ensures { result ≡ is_among self.now name.now }
    {
        self.names.contains(name)
    }

    /// The place of a type among them.
    pub(crate) fn place_of(&self, name: &[u8]) -> Option<usize>
        ensures { result ≡ position (bytes_eq name.now) self.now }
    {
        self.names.get_index_of(name)
    }

    /// Adds a type after the others.
    pub(crate) fn add(&mut self, alloc: Global, name: &[u8]) -> Result<(), AllocError>
        requires { is_among self.old name.now ≡ false }
        ensures { OnOk result (self.new ≡ self.old ++ name.now ∷ []) }
    {
        self.names.insert(Vec::from_slice(alloc, name)?)?;
        Ok(())
    }
}
