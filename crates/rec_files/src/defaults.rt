//! The paths of a file and its journal, where no journal is given.
ghost use Rattle.std.specs.Prelude.{◌≡◌, ◌↔◌, ◌⊎◌, None, Ok, IfOk, IfErr, IsErrOf, OnOk, IsTrue, string_bytes};
ghost use Rattle.rec_text.specs.Faults.{IsOkUnlessEither};
ghost use Rattle.rec_disk.specs.Disk.{Told, IsMemory};
ghost use Rattle.rec_disk.specs.Paths.{journal_of};
ghost use Rattle.rec_files.specs.Paths.{LeadToOne, HasNoOtherJournal, AreDefaultPaths};
ghost use Rattle.rec_files.specs.Succeeding.{IsRegularAt};
ghost use Rattle.rec_files.specs.proving.Succeeding.{Succeeds};

use crate::failure::not_regular;
use crate::files::is_out_of_memory;
use crate::links::after_links;
use crate::open_file::if_there;
use rec_disk::{Disk, Escaped, journal_path};
use rec_tools::Fault;
use std::io;

/// The paths of a file, which is no link, and of its default journal.
#[derive(Drop)]
pub struct DefaultPaths {
    pub file: String,
    pub journal: String,
}

/// The paths of the file to which a path leads, and of its default journal. So an edit by a link goes on with the journal of the
/// file. A journal beside the link that is another one is refused: its history would end unseen. What is refused is told on standard
/// error.
pub fn default_paths<R: Eprint + AllocGlobal, D: Disk>(
    rt: &R,
    disk: &mut D,
    path: &str,
) -> Result<DefaultPaths, Fault>
    ensures same { D.story disk.new ≡ D.story disk.old }
    ensures works { D.works disk.old → D.works disk.new }
    ensures paths { IfOk result (λ paths. Told (D.story disk.old) (AreDefaultPaths D.Disk path.now
        (string_bytes paths.file) (string_bytes paths.journal))) }
    ensures journal { IfOk result (λ paths. string_bytes paths.journal ≡ journal_of (string_bytes paths.file)) }
    ensures refusals { IsOkUnlessEither result Fault.OutOfMemory Fault.StoreFailed }
{
    told(rt, path, require_regular(disk, path))?;
    let file = told(rt, path, after_links(disk, rt.alloc(), path))?;
    let journal = journal_path(rt.alloc(), file.as_str())?;
    require_no_other(rt, disk, path, file.as_str(), journal.as_str())?;
    Ok(DefaultPaths { file, journal })
}

/// Refuses a path that leads to what is no regular file: the links that the system has for a pipe lead to no path.
fn require_regular<D: Disk>(disk: &mut D, path: &str) -> io::Result<()>
    ensures same { D.story disk.new ≡ D.story disk.old }
    ensures regular { OnOk result (Told (D.story disk.old) (IsRegularAt D.Disk path.now)) }
    ensures succeeds { Succeeds D.Disk IsMemory disk.old disk.new result (IsRegularAt D.Disk path.now) }
{
    match if_there(disk.status_after_links(path))? {
        Some(there) if !D::is_regular(&there) => Err(not_regular()),
        _ => Ok(()),
    }
}

/// Refuses a link beside which another journal stands than that of the file to which it leads.
fn require_no_other<R: Eprint + AllocGlobal, D: Disk>(
    rt: &R,
    disk: &mut D,
    link: &str,
    file: &str,
    journal: &str,
) -> Result<(), Fault>
    requires { journal.now ≡ journal_of file.now }
    ensures same { D.story disk.new ≡ D.story disk.old }
    ensures works { D.works disk.old → D.works disk.new }
    ensures alone { OnOk result (Told (D.story disk.old) (HasNoOtherJournal D.Disk link.now file.now)) }
    ensures refusals { IsOkUnlessEither result Fault.OutOfMemory Fault.StoreFailed }
{
    if file == link {
        return Ok(());
    }
    let beside = journal_path(rt.alloc(), link)?;
    if told(
        rt,
        beside.as_str(),
        is_free_or(disk, beside.as_str(), journal),
    )? {
        return Ok(());
    }
    let (beside, journal) = (Escaped(beside.as_str()), Escaped(journal));
    let _ = eprintln!(rt;
        "{beside}: a journal beside a link, and the file's is {journal}: \
        give --journal {beside} to go on with this one, or move it away"
    );
    Err(Fault::StoreFailed)
}

/// What was found at a path. Where that failed, the path and the cause are told on standard error.
fn told<R: Eprint, T: Drop>(rt: &R, path: &str, found: io::Result<T>) -> Result<T, Fault>
    ensures found { IfOk found (λ value. result ≡ Ok value) }
    ensures failed { IfErr found (λ _. IsErrOf result Fault.OutOfMemory ⊎ IsErrOf result Fault.StoreFailed) }
{
    match found {
        Ok(value) => Ok(value),
        Err(error) if is_out_of_memory(&error) => Err(Fault::OutOfMemory),
        Err(error) => {
            let _ = eprintln!(rt; "{}: {error}", Escaped(path));
            Err(Fault::StoreFailed)
        }
    }
}

/// Whether nothing stands at a path, or what it leads to is what the other one leads to. A link is something, wherever it leads.
fn is_free_or<D: Disk>(disk: &mut D, path: &str, other: &str) -> io::Result<bool>
    ensures same { D.story disk.new ≡ D.story disk.old }
    ensures is { IfOk result (λ is. Told (D.story disk.old) (λ s. IsTrue is
        ↔ ((s.at (D.place path.now) ≡ None) ⊎ LeadToOne D.leads path.now other.now s))) }
    ensures succeeds { Succeeds D.Disk IsMemory disk.old disk.new result (λ s. Unit {0}) }
{
    match if_there(disk.status(path))? {
        Some(_) => lead_to_one(disk, path, other),
        None => Ok(true),
    }
}

/// Whether two paths lead to one file.
fn lead_to_one<D: Disk>(disk: &mut D, first: &str, second: &str) -> io::Result<bool>
    ensures same { D.story disk.new ≡ D.story disk.old }
    ensures one { IfOk result (λ one. Told (D.story disk.old)
        (λ s. IsTrue one ↔ LeadToOne D.leads first.now second.now s)) }
    ensures succeeds { Succeeds D.Disk IsMemory disk.old disk.new result (λ s. Unit {0}) }
{
    let Some(first) = if_there(disk.status_after_links(first))? else {
        return Ok(false);
    };
    match if_there(disk.status_after_links(second))? {
        Some(second) => Ok(D::are_one(&first, &second)),
        None => Ok(false),
    }
}
