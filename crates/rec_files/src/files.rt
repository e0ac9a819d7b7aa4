//! The home of files on a disk. A request that only looks reads them as they stand; one that may write locks them.
//! What opens files stands in `target`, `open_file`, `working_file` and `links`, what replaces them in `replacing`; standard
//! input is read here alone.
ghost use Rattle.std.specs.Prelude.{◌≡◌, ◌≤◌, ◌↔◌, [], IsTrue, IsNone, None, Some, Ok, Err, IfOk, IfErr, ◌⊎◌, IsSome};
ghost use Rattle.std.specs.Prelude.{IfSome, OnOk, true, IsSomeAnd, option_map, string_bytes, unwrap_or};
ghost use Rattle.std.specs.Option.{option_and_then};
ghost use Rattle.std.specs.IoError.{error_kind, raw_os_error};
ghost use Rattle.rec_text.specs.Sink.{one_more};
ghost use Rattle.rec_disk.specs.Disk.{Told, IsMemory};
ghost use Rattle.rec_disk.specs.Lasting.{shown};
ghost use Rattle.rec_tools.specs.Home.{got, unread};
ghost use Rattle.rec_files.specs.OnDisk.{or_empty, IsReadOf, contents_of};
ghost use Rattle.rec_files.specs.Paths.{path_of};
ghost use Rattle.rec_files.specs.Succeeding.{HomeGoes, IsShort, IsThere, IsReadable, IsShut, NotesRead, kept};
ghost use Rattle.rec_files.specs.Succeeding.{IsRegularAt, ReadsRegular, FailedForMemory, HadAll, GoesOn, IsLastOf};
ghost use Rattle.rec_files.specs.Succeeding.{IfLocked, let_go, IsStanding, CanGoOn, known};
ghost use Rattle.rec_files.specs.proving.Succeeding.{Succeeds, IsOwnJournal};

use crate::access::Access;
use crate::ahead::Ahead;
use crate::both::Both;
use crate::failure::{Cause, Failure, not_regular, one_file};
use crate::last_put::LastPut;
use crate::reading::{read_rest, read_whole};
use crate::replacing::Paths;
use crate::target::may_be_missing;
use rec_disk::{Disk, Escaped, folder_of};
use rec_tools::{Bytes, Fault, Home, Which};
use std::alloc::Global;
use std::fs::File;
use std::io;
use std::io::{Error, ErrorKind};

/// A file and its journal on a disk. The last failure is kept, for `explain`.
#[derive(Drop)]
pub struct DiskHome<'r, R, D: Disk + Drop> {
    rt: &'r R,
    disk: Ahead<D>,
    /// What is said calls the file so; where it is missing, by its path.
    name: Option<String>,
    /// Standard input, where it is missing.
    file: Option<String>,
    journal: String,
    access: Access,
    /// What is locked, where the request may write.
    both: Both<D>,
    /// What becomes of the journal that was put last, where the request moves several times.
    last: LastPut,
    failed: u64,
    failure: Option<Failure>,
}

impl<'r, R: Input + AllocGlobal, D: Disk + Drop> DiskHome<'r, R, D> {
    /// Where no file is given, standard input is read in its place, once. A journal that isn't given has the empty path,
    /// which names nothing. A name calls the file otherwise than by its path.
    pub fn new(
        rt: &'r R,
        disk: D,
        name: Option<String>,
        file: Option<String>,
        journal: Option<String>,
        access: Access,
    ) -> DiskHome<'r, R, D>
        ensures disk { result.disk ≡ disk }
        ensures name { result.name ≡ name }
        ensures file { result.file ≡ file }
        ensures journal { string_bytes result.journal ≡ unwrap_or (option_map string_bytes journal) [] }
        ensures access { result.access ≡ access }
        ensures sound { result.failed ≡ 0 }
        ensures shut { IsShut result.both }
        ensures fresh { result.last ≡ LastPut.Nothing }
    {
        DiskHome {
            rt,
            disk: Ahead::new(disk),
            name,
            file,
            journal: journal.unwrap_or(String::new(rt.alloc())),
            access,
            both: Both::new(),
            last: LastPut::Nothing,
            failed: 0,
            failure: None,
        }
    }

    /// Says on standard error which path failed last, and why. Both files are closed before: where standard error was closed,
    /// one of them may have its number.
    pub fn explain(&self, err: &impl Eprint) -> io::Result<()>
        requires shut { IsShut self.now.both }
        ensures silent { IsNone self.now.failure → result ≡ Ok tt }
    {
        let Some(failure) = self.failure else {
            return Ok(());
        };
        let name = match failure.which {
            Which::Base if self.file.is_none() => "standard input",
            Which::Base => self.name(),
            Which::Journal => self.path(Which::Journal),
        };
        let working = self.both.working(failure.which).unwrap_or(name);
        let folder = Escaped(folder_of(working));
        let (name, working) = (Escaped(name), Escaped(working));
        match failure.cause {
            Cause::Itself(error) => eprintln!(err; "{name}: {error}"),
            Cause::Working(error) => eprintln!(err; "{working}: {error}"),
            Cause::Foreign(error) => {
                eprintln!(err; "{working}: {error}: recu writes under this name, so move it away")
            }
            Cause::Folder(error) => {
                let what = "the folder isn't writable, and recu writes a new file in it";
                eprintln!(err; "{folder}: {what}: {error}")
            }
            Cause::Unsynced(error) => eprintln!(err;
                "{name}: {}: {error}",
                done_unsynced(failure.which)
            ),
        }
    }

    /// Whether the last failure was that the file itself was not found: not its journal, nor a name under which one of the
    /// two is written.
    pub fn is_missing(&self) -> bool
        ensures missing { IsTrue result ↔ IsSomeAnd self.now.failure (λ failure. (failure.which ≡ Which.Base)
            × ((error : Error) × (failure.cause ≡ Cause.Itself error) × (error_kind error ≡ ErrorKind.NotFound))) }
    {
        let Some(failure) = self.failure else {
            return false;
        };
        match (failure.which, failure.cause) {
            (Which::Base, Cause::Itself(error)) => error.kind() == ErrorKind::NotFound,
            _ => false,
        }
    }

    /// Closes both files.
    pub fn close(&mut self)
        ensures shut { IsShut self.new.both }
        ensures same { self.new.disk ≡ self.old.disk }
        ensures paths { (self.new.file ≡ self.old.file) × (self.new.journal ≡ self.old.journal) }
        ensures kept { self.new.failed ≡ self.old.failed }
        ensures noted { self.new.failure ≡ self.old.failure }
    {
        self.both.close();
    }

    /// The disk, when all is done.
    pub fn into_disk(self) -> D
        ensures { result ≡ self.entry.disk }
    {
        let DiskHome { disk, .. } = self;
        disk.into_disk()
    }

    /// The path of the file or of its journal; standard input has none.
    pub fn path(&self, which: Which) -> &str
        ensures path { result.now ≡ path_of (option_map string_bytes self.now.file)
            (string_bytes self.now.journal) which }
    {
        path_in(&self.file, &self.journal, which)
    }

    /// What the file is called, where something is said of it.
    pub fn name(&self) -> &str
        ensures name { result.now ≡ unwrap_or (option_map string_bytes self.now.name)
            (path_of (option_map string_bytes self.now.file) (string_bytes self.now.journal) Which.Base) }
    {
        match &self.name {
            Some(name) => name.as_str(),
            None => self.path(Which::Base),
        }
    }

    fn fail(&mut self, failure: Failure) -> Fault
        ensures fault { result ≡ Fault.StoreFailed }
        ensures counted { self.old.failed ≤ self.new.failed }
        ensures once { self.new.failed ≡ one_more self.old.failed }
        ensures noted { self.new.failure ≡ Some failure }
        ensures paths { (self.new.file ≡ self.old.file) × (self.new.journal ≡ self.old.journal) }
        ensures access { self.new.access ≡ self.old.access }
        ensures last { self.new.last ≡ self.old.last }
        ensures same { D.story self.new.disk ≡ D.story self.old.disk }
        ensures works { D.works self.old.disk → D.works self.new.disk }
    {
        self.failed = self.failed.saturating_add(1);
        self.failure = Some(failure);
        Fault::StoreFailed
    }

    /// What a read gives: of a journal, one that goes on from the journal that was put last.
    fn next_bytes(&mut self, alloc: Global, which: Which) -> Result<Vec<u8>, Failure>
        ensures kept { self.new.failed ≡ self.old.failed }
        ensures paths { (self.new.file ≡ self.old.file) × (self.new.journal ≡ self.old.journal) }
        ensures same { D.story self.new.disk ≡ D.story self.old.disk }
        ensures read { IfOk result (λ bytes. IsReadOf D.Disk self.old which bytes.items) }
        ensures there { which ≡ Which.Base → OnOk result (IfSome self.old.file (λ file. Told (D.story self.old.disk)
            (λ s. IsSome (s.at (D.leads (string_bytes file)))))) }
        ensures succeeds { Succeeds D.Disk FailedForMemory self.old.disk self.new.disk result
            (HadAll D.Disk (kept D.Disk self.old) (unread which)) }
        ensures access { self.new.access ≡ self.old.access }
        ensures regular { IfOk result (λ bytes. ReadsRegular D.Disk (kept D.Disk self.old) (D.story self.old.disk)
            (got which bytes.items)) }
        ensures noted { self.old.access ≡ Access.Change → IfOk result (λ bytes. NotesRead D.Disk (kept D.Disk self.old)
            (kept D.Disk self.new) (D.story self.old.disk) (got which bytes.items)) }
        ensures goes_on { IfOk result (λ bytes. GoesOn D.Disk (kept D.Disk self.old) (kept D.Disk self.new)
            (D.story self.old.disk) (got which bytes.items)) }
        ensures last { IsLastOf D.Disk (string_bytes self.old.journal) self.old.last self.new.last
            (D.story self.old.disk) }
    {
        let journal = self.journal.as_str();
        let disk = &mut self.disk;
        let noted = let_go(&mut disk.disk, alloc, which, journal, &mut self.last);
        told(Which::Journal, noted)?;
        let bytes = told(which, self.bytes_of(alloc, which))?;
        self.last.check(which, &bytes)?;
        Ok(bytes)
    }

    fn bytes_of(&mut self, alloc: Global, which: Which) -> io::Result<Vec<u8>>
        ensures last { self.new.last ≡ self.old.last }
        ensures journal { which ≡ Which.Journal → IfOk result (λ bytes. Told (D.story self.old.disk)
            (IsStanding D.Disk (string_bytes self.old.journal) bytes.items)) }
        ensures kept { self.new.failed ≡ self.old.failed }
        ensures paths { (self.new.file ≡ self.old.file) × (self.new.journal ≡ self.old.journal) }
        ensures same { D.story self.new.disk ≡ D.story self.old.disk }
        ensures read { IfOk result (λ bytes. IsReadOf D.Disk self.old which bytes.items) }
        ensures there { which ≡ Which.Base → OnOk result (IfSome self.old.file (λ file. Told (D.story self.old.disk)
            (λ s. IsSome (s.at (D.leads (string_bytes file)))))) }
        ensures succeeds { Succeeds D.Disk IsMemory self.old.disk self.new.disk result
            (IsReadable D.Disk self.old.access (option_map string_bytes self.old.file) (string_bytes self.old.journal)
            (option_and_then (λ file. (known D.Disk file).look) self.old.both.file) which) }
        ensures access { self.new.access ≡ self.old.access }
        ensures regular { IfOk result (λ bytes. ReadsRegular D.Disk (kept D.Disk self.old) (D.story self.old.disk)
            (got which bytes.items)) }
        ensures noted { self.old.access ≡ Access.Change → IfOk result (λ bytes. NotesRead D.Disk (kept D.Disk self.old)
            (kept D.Disk self.new) (D.story self.old.disk) (got which bytes.items)) }
    {
        if which == Which::Base && self.file.is_none() {
            return read_rest(which, Vec::new(alloc), self.rt.reader());
        }
        let path = path_in(&self.file, &self.journal, which);
        match self.access {
            Access::Look => {
                let disk = &mut self.disk;
                disk.look_at(alloc, which, path, &self.file, &self.journal)
            }
            Access::Change => {
                let disk = &mut self.disk;
                disk.journal = None;
                self.both.read(&mut disk.disk, alloc, which, path)
            }
        }
    }
}

impl<'r, R: Input + AllocGlobal, D: Disk + Drop> Home for DiskHome<'r, R, D> {
    ghost contents = { contents_of D.Disk };

    ghost failure_count = { λ home. home.failed };

    ghost goes = { HomeGoes D.Disk };

    ghost follows = { λ old new call h. h.0.follows };

    ghost counts = { λ old new call h. h.0.counts };

    fn read(&mut self, alloc: Global, which: Which) -> Result<Bytes, Fault> {
        match self.next_bytes(alloc, which) {
            Ok(bytes) => Ok(Bytes::from_vec(bytes)),
            Err(unread) if is_for_memory(&unread) => Err(Fault::OutOfMemory),
            Err(unread) => Err(self.fail(unread)),
        }
    }

    fn put(&mut self, journal: &[u8], file: Option<&[u8]>) -> Result<(), Fault> {
        let paths = Paths {
            file: path_in(&self.file, &self.journal, Which::Base),
            journal: self.journal.as_str(),
        };
        let disk = &mut self.disk;
        disk.journal = None;
        match self
            .both
            .put(&mut disk.disk, self.rt.alloc(), paths, journal, file)
        {
            Ok(()) => {
                self.last = LastPut::Locked;
                Ok(())
            }
            Err(failure) => Err(self.fail(failure)),
        }
    }

    fn failures(&self) -> u64 {
        self.failed
    }
}

/// The path of the file or of its journal; standard input has none.
fn path_in<'p>(file: &'p Option<String>, journal: &'p String, which: Which) -> &'p str
    ensures { result.now ≡ path_of (option_map string_bytes file.now) (string_bytes journal.now) which }
{
    match (which, file) {
        (Which::Base, Some(path)) => path.as_str(),
        (Which::Base, None) => "",
        (Which::Journal, _) => journal.as_str(),
    }
}

/// What an answer tells of one of the two.
fn told<T: Drop>(which: Which, answer: io::Result<T>) -> Result<T, Failure>
    ensures value { IfOk result (λ value. answer ≡ Ok value) }
    ensures memory { IfErr answer IsMemory → IfErr result FailedForMemory }
    ensures failure { IfErr answer (λ error. result ≡ Err (record { which = which; cause = Cause.Itself error })) }
{
    match answer {
        Ok(value) => Ok(value),
        Err(error) => Err(Failure {
            which,
            cause: Cause::Itself(error),
        }),
    }
}

/// Memory was refused to read one of the two.
fn is_for_memory(failure: &Failure) -> bool {
    match &failure.cause {
        Cause::Itself(error) => is_out_of_memory(error),
        _ => false,
    }
}

/// Memory was refused here, and not in the system.
pub fn is_out_of_memory(error: &Error) -> bool
    ensures { IsTrue result ↔ ((error_kind error.now ≡ ErrorKind.OutOfMemory) × IsNone (raw_os_error error.now)) }
{
    error.kind() == ErrorKind::OutOfMemory && error.raw_os_error().is_none()
}

/// What was done by putting one of the two in place last, and could not be synced: an edit by the file, and forgetting by the
/// journal.
fn done_unsynced(which: Which) -> &'static str {
    match which {
        Which::Base => {
            "the edit is done, but its folder could not be synced, so a power cut may undo it"
        }
        Which::Journal => {
            "the edits are forgotten, but its folder could not be synced, so a power cut may bring them back"
        }
    }
}

/// Before a read of the file lets go of the lock of a journal that was put, notes what stands there.
fn let_go<D: Disk>(
    disk: &mut D,
    alloc: Global,
    which: Which,
    journal: &str,
    last: &mut LastPut,
) -> io::Result<()>
    ensures same { D.story disk.new ≡ D.story disk.old }
    ensures noted { which ≡ Which.Base → IfLocked last.old (OnOk result (IsSomeAnd (let_go last.new)
        (λ bytes. Told (D.story disk.old) (IsStanding D.Disk journal.now bytes)))) }
    ensures still { which ≡ Which.Journal → last.new ≡ last.old }
    ensures last { IsLastOf D.Disk journal.now last.old last.new (D.story disk.old) }
    ensures succeeds { Succeeds D.Disk IsMemory disk.old disk.new result (CanGoOn D.Disk journal.now last.old which) }
{
    match which {
        Which::Journal => Ok(()),
        Which::Base => match last {
            LastPut::Nothing => Ok(()),
            LastPut::LetGo(_) => Ok(()),
            LastPut::Locked => {
                let bytes = look_at(disk, alloc, Which::Journal, journal, &None, true)?;
                *last = LastPut::LetGo(bytes);
                Ok(())
            }
        },
    }
}

/// Reads without a lock. A journal that is missing is empty.
pub fn look_at<D: Disk>(
    disk: &mut D,
    alloc: Global,
    which: Which,
    path: &str,
    other: &Option<String>,
    only_regular: bool,
) -> io::Result<Vec<u8>>
    ensures same { D.story disk.new ≡ D.story disk.old }
    ensures whole { IfOk result (λ bytes. Told (D.story disk.old)
        (λ s. bytes.items ≡ or_empty (shown s.bytes (s.at (D.leads path.now))))) }
    ensures there { which ≡ Which.Base → OnOk result (Told (D.story disk.old) (λ s. IsSome (s.at (D.leads path.now)))) }
    ensures regular { only_regular ≡ true → OnOk result (Told (D.story disk.old) (IsRegularAt D.Disk path.now)) }
    ensures succeeds { Succeeds D.Disk IsMemory disk.old disk.new result (λ s. (only_regular ≡ true → IsRegularAt D.Disk
        path.now s) × IsThere which path.now (λ n. IsShort s n × (which ≡ Which.Journal → IsOwnJournal (option_map (λ
        file. s.at (D.leads (string_bytes file))) other.now) n)) (s.at (D.leads path.now))) }
{
    match open(disk, path, only_regular) {
        Ok(file) => {
            if is_the_file(disk, alloc, which, path, other, &file)? {
                return Err(one_file());
            }
            read_whole(disk, alloc, which, &file)
        }
        Err(error) if which == Which::Journal && may_be_missing(path, &error) => {
            Ok(Vec::new(alloc))
        }
        Err(error) => Err(error),
    }
}

/// Opens a file to read it. Where only a regular one is wanted, no other is opened: a pipe would keep the reader waiting.
fn open<D: Disk>(disk: &mut D, path: &str, only_regular: bool) -> io::Result<D::File>
    ensures same { D.story disk.new ≡ D.story disk.old }
    ensures opened { IfOk result (λ file. Told (D.story disk.old)
        (λ s. s.at (D.leads path.now) ≡ Some (D.number file))) }
    ensures regular { only_regular ≡ true → OnOk result (Told (D.story disk.old) (IsRegularAt D.Disk path.now)) }
    ensures missing { IfErr result (λ error. error_kind error ≡ ErrorKind.NotFound
        → Told (D.story disk.old) (λ s. s.at (D.leads path.now) ≡ None)) }
    ensures succeeds { Succeeds D.Disk (λ error. IsMemory error ⊎ (error_kind error ≡ ErrorKind.NotFound)) disk.old
        disk.new result (λ s. only_regular ≡ true → IsRegularAt D.Disk path.now s) }
{
    if only_regular && !D::is_regular(&disk.status_after_links(path)?) {
        return Err(not_regular());
    }
    disk.open(path)
}

/// Whether the journal is the file itself, under another path. Of another one it is checked that it is no stranger's.
fn is_the_file<D: Disk>(
    disk: &mut D,
    alloc: Global,
    which: Which,
    path: &str,
    other: &Option<String>,
    file: &D::File,
) -> io::Result<bool>
    ensures same { D.story disk.new ≡ D.story disk.old }
    ensures the_file { IfOk result (λ is. Told (D.story disk.old) (λ s. IsTrue is ↔ ((which ≡ Which.Journal)
        × IsSomeAnd other.now (λ path. s.at (D.leads (string_bytes path)) ≡ Some (D.number file.now))))) }
    ensures succeeds { Succeeds D.Disk IsMemory disk.old disk.new result (λ s. which ≡ Which.Journal
        → IfSome other.now (λ path. IsSome (s.at (D.leads (string_bytes path))))) }
{
    match (which, other) {
        (Which::Journal, Some(other)) => {
            let there = disk.status_after_links(other.as_str())?;
            let own = disk.status_of(file)?;
            disk.check_owner(alloc, path, &own, &there)?;
            Ok(D::are_one(&there, &own))
        }
        _ => Ok(false),
    }
}
