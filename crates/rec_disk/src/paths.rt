//! The paths of a file and its journal, and the names under which they are written.
ghost use Rattle.std.specs.Prelude.{◌≡◌, true, false, IfOk, string_bytes};
ghost use Rattle.rec_disk.specs.Paths.{AreApart, journal_of, working_name};

use std::alloc::{AllocError, Global};

/// The path of a file's journal, where no other one is given.
pub fn journal_path(alloc: Global, file: &str) -> Result<String, AllocError>
    ensures { IfOk result (λ path. string_bytes path ≡ journal_of file.now) }
{
    format!(in alloc; "{file}.journal")
}

/// The name under which a file is written.
pub fn beside(alloc: Global, path: &str) -> Result<String, AllocError>
    ensures { IfOk result (λ name. string_bytes name ≡ working_name path.now) }
{
    format!(in alloc; "{path}.new")
}

/// Whether a file and a journal have two paths, and neither stands where the other is written.
pub fn are_apart(alloc: Global, file: &str, journal: &str) -> Result<bool, AllocError>
    ensures apart { IfOk result (λ apart. apart ≡ true → AreApart file.now journal.now) }
    ensures clash { IfOk result (λ apart. apart ≡ false → ¬ AreApart file.now journal.now) }
{
    let file_beside = beside(alloc, file)?;
    let journal_beside = beside(alloc, journal)?;
    Ok(journal != file && journal != file_beside.as_str() && file != journal_beside.as_str())
}
