//! The paths of the file and of its journal.
ghost use Rattle.std.specs.Prelude.{◌≡◌, IfOk, codes, string_bytes, option_map};
ghost use Rattle.clap.specs.Words.{first_of, found_of, rows_of};
ghost use Rattle.rec_disk.specs.Paths.{AreApart};
ghost use Rattle.rec_command.specs.Refusals.{IsOrRefuses};
ghost use Rattle.rec_command.specs.Words.{file_given, IsJournal};

use super::found::{copied, file, given};
use super::refusal::Refusal;
use super::{JournalPath, Order};
use clap::ArgMatches;
use rec_disk::are_apart;
use rec_tools::Look;
use std::alloc::Global;

const CLASH: &str = "--journal: FILE and PATH are one path, or one is the other with .new appended";

/// The paths of the file and its journal.
#[derive(Drop)]
pub struct Paths {
    pub file: Option<String>,
    pub journal: JournalPath,
}

/// The paths that the options give an order.
pub fn paths_of(alloc: Global, order: &Order, options: &ArgMatches) -> Result<Paths, Refusal>
    ensures file { IfOk result (λ paths. option_map string_bytes paths.file
        ≡ file_given (rows_of (found_of options.now))) }
    ensures journal { IsOrRefuses (λ paths. IsJournal order.now (file_given (rows_of (found_of options.now)))
        (first_of (codes "journal") (rows_of (found_of options.now))) paths.journal) result }
{
    let file = file(options);
    let journal = journal(alloc, order, file, given(options, "journal"))?;
    let file = copied(alloc, file)?;
    Ok(Paths { file, journal })
}

/// The journal of an order. One that prints of the file alone has none; every other needs a file.
fn journal(
    alloc: Global,
    order: &Order,
    file: Option<&str>,
    given: Option<&str>,
) -> Result<JournalPath, Refusal>
    ensures { IsOrRefuses (IsJournal order.now (option_map (λ path. path.now) file.entry)
        (option_map (λ path. path.now) given.entry)) result }
{
    if let Order::Look(Look::Show { .. } | Look::Info { .. } | Look::Check) = order {
        if let (Some(file), Some(given)) = (file, given) {
            require_apart(alloc, file, given)?;
        }
        return Ok(JournalPath::Unused);
    }
    let Some(file) = file else {
        return Err(Refusal::Rule("FILE is needed"));
    };
    let Some(given) = given else {
        return Ok(JournalPath::Default);
    };
    require_apart(alloc, file, given)?;
    Ok(JournalPath::Given(String::from_str(alloc, given)?))
}

/// Refuses the paths of a file and a journal that are one path, or of which one is the other's working name.
fn require_apart(alloc: Global, file: &str, journal: &str) -> Result<(), Refusal>
    ensures { IsOrRefuses (λ _. AreApart file.now journal.now) result }
{
    if are_apart(alloc, file, journal)? {
        Ok(())
    } else {
        Err(Refusal::Rule(CLASH))
    }
}
