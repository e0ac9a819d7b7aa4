//! The path of a file, and the name under which it is written.
ghost use Rattle.std.specs.Prelude.{◌≡◌, IfOk, string_bytes};
ghost use Rattle.rec_disk.specs.Paths.{working_name};

use rec_disk::beside;
use std::alloc::{AllocError, Global};
use std::marker::Model;

/// A path after all symbolic links, and the name beside it. Contracts see the path.
#[derive(Drop)]
pub struct Names {
    path: String,
    working: String,
}

impl Model for Names {
    ghost use Rattle.std.specs.Prelude.{◌≡◌, ℕ, List, string_bytes};
    ghost use Rattle.rec_disk.specs.Paths.{working_name};

    ghost Value = { List ℕ };

    ghost view = { λ names. string_bytes names.path };

    ghost invariant = { λ names. string_bytes names.working ≡ working_name (string_bytes names.path) };
}

impl Names {
    pub fn of(alloc: Global, path: String) -> Result<Names, AllocError>
        ensures { IfOk result (λ names. names ≡ string_bytes path) }
    {
        let working = beside(alloc, path.as_str())?;
        Ok(Names { path, working })
    }

    pub fn path(&self) -> &str
        ensures { result.now ≡ self.now }
    {
        self.path.as_str()
    }

    pub fn working(&self) -> &str
        ensures { result.now ≡ working_name self.now }
    {
        self.working.as_str()
    }
}
