//! A disk, with the journal that was read ahead on it: so a look gives a file and a journal that belong together.
ghost use Rattle.std.specs.Prelude.{◌≡◌, ◌≢◌, [], IfOk, IfSome, IsSome, OnOk, option_map, string_bytes};
ghost use Rattle.rec_disk.specs.Disk.{Told, IsMemory};
ghost use Rattle.rec_files.specs.Succeeding.{IsShort, IsThere, IsRegularAt, IsStanding};
ghost use Rattle.rec_files.specs.proving.Succeeding.{Succeeds, IsOwnJournal, IsAhead, CanLook};

use crate::files::look_at;
use rec_disk::Disk;
use rec_tools::Which;
use std::alloc::Global;
use std::io;
use std::marker::Model;

/// How often a file and its journal are read again that other programs replace meanwhile.
const TRIES: u32 = 10;

/// What stood at a path.
#[derive(Drop)]
pub struct ReadAhead {
    path: String,
    bytes: Vec<u8>,
}

/// Contracts see the disk. What was read ahead is what stands there, where the disk tells its story.
#[derive(Drop)]
pub struct Ahead<D: Disk + Drop> {
    pub disk: D,
    pub journal: Option<ReadAhead>,
}

impl<D: Disk + Drop> Model for Ahead<D> {
    ghost use Rattle.std.specs.Prelude.{IfSome, string_bytes};
    ghost use Rattle.rec_disk.specs.Disk.{Told};

    ghost Value = { D };

    ghost use Rattle.rec_files.specs.proving.Succeeding.{IsAhead};

    ghost view = { λ ahead. ahead.disk };

    ghost invariant = { λ ahead. IfSome ahead.journal (λ read. Told (D.story ahead.disk)
        (IsAhead D.Disk (string_bytes read.path) read.bytes.items)) };
}

impl<D: Disk + Drop> Ahead<D> {
    pub fn new(disk: D) -> Ahead<D>
        ensures { result ≡ disk }
    {
        Ahead {
            disk,
            journal: None,
        }
    }

    pub fn into_disk(self) -> D
        ensures { result ≡ self }
    {
        let Ahead { disk, .. } = self;
        disk
    }

    /// Reads one of the two without a lock. A file with a journal is read together with that, which is then given as it
    /// was read.
    pub fn look_at(
        &mut self,
        alloc: Global,
        which: Which,
        path: &str,
        file: &Option<String>,
        journal: &String,
    ) -> io::Result<Vec<u8>>
        ensures same { D.story self.new ≡ D.story self.old }
        ensures whole { IfOk result (λ bytes. Told (D.story self.old) (IsStanding D.Disk path.now bytes.items)) }
        ensures there { which ≡ Which.Base
            → OnOk result (Told (D.story self.old) (λ s. IsSome (s.at (D.leads path.now)))) }
        ensures regular { string_bytes journal.now ≢ [] → OnOk result (Told (D.story self.old)
            (IsRegularAt D.Disk path.now)) }
        ensures succeeds { Succeeds D.Disk IsMemory self.old self.new result (λ s. (string_bytes journal.now ≢ []
            → IsRegularAt D.Disk path.now s) × IsThere which path.now (λ n. IsShort s n
            × (which ≡ Which.Journal → IsOwnJournal (option_map (λ file. s.at (D.leads (string_bytes file))) file.now)
            n)) (s.at (D.leads path.now))) }
    {
        let only_regular = !journal.is_empty();
        match which {
            Which::Base if only_regular => {
                let (bytes, ahead) = read_both(
                    &mut self.disk,
                    alloc,
                    path,
                    file,
                    journal.as_str(),
                )?;
                self.journal = ahead;
                Ok(bytes)
            }
            Which::Base => look_at(&mut self.disk, alloc, which, path, file, only_regular),
            Which::Journal => match self.take(path) {
                Some(bytes) => Ok(bytes),
                None => look_at(&mut self.disk, alloc, which, path, file, only_regular),
            },
        }
    }

    /// What was read ahead at a path, once.
    fn take(&mut self, path: &str) -> Option<Vec<u8>>
        ensures same { self.new ≡ self.old }
        ensures standing { IfSome result (λ bytes. Told (D.story self.old) (IsAhead D.Disk path.now bytes.items)) }
    {
        let ReadAhead { path: there, bytes } = self.journal.take()?;
        if there.as_str() == path {
            Some(bytes)
        } else {
            None
        }
    }
}

/// Reads a file and then its journal, until the file stands after that as it stood before; or the file alone, a last time.
fn read_both<D: Disk>(
    disk: &mut D,
    alloc: Global,
    path: &str,
    file: &Option<String>,
    journal: &str,
) -> io::Result<(Vec<u8>, Option<ReadAhead>)>
    ensures same { D.story disk.new ≡ D.story disk.old }
    ensures whole { IfOk result (λ read. Told (D.story disk.old) (IsStanding D.Disk path.now read.0.items)) }
    ensures there { OnOk result (Told (D.story disk.old) (λ s. IsSome (s.at (D.leads path.now)))) }
    ensures regular { OnOk result (Told (D.story disk.old) (IsRegularAt D.Disk path.now)) }
    ensures ahead { IfOk result (λ read. IfSome read.1 (λ ahead. Told (D.story disk.old)
        (IsAhead D.Disk (string_bytes ahead.path) ahead.bytes.items))) }
    ensures succeeds { Succeeds D.Disk IsMemory disk.old disk.new result (CanLook D.Disk path.now) }
{
    for _ in 0..TRIES {
        let seen = disk.status_after_links(path);
        let bytes = read_file(disk, alloc, path)?;
        let ahead = read_ahead(disk, alloc, file, journal);
        if is_still(disk, path, seen) {
            return Ok((bytes, ahead));
        }
    }
    Ok((read_file(disk, alloc, path)?, None))
}

/// The bytes of a regular file.
fn read_file<D: Disk>(disk: &mut D, alloc: Global, path: &str) -> io::Result<Vec<u8>>
    ensures same { D.story disk.new ≡ D.story disk.old }
    ensures whole { IfOk result (λ bytes. Told (D.story disk.old) (IsStanding D.Disk path.now bytes.items)) }
    ensures there { OnOk result (Told (D.story disk.old) (λ s. IsSome (s.at (D.leads path.now)))) }
    ensures regular { OnOk result (Told (D.story disk.old) (IsRegularAt D.Disk path.now)) }
    ensures succeeds { Succeeds D.Disk IsMemory disk.old disk.new result (CanLook D.Disk path.now) }
{
    look_at(disk, alloc, Which::Base, path, &None, true)
}

/// What stands of a journal, if it can be read. Why it can't is told once it is asked for.
fn read_ahead<D: Disk>(
    disk: &mut D,
    alloc: Global,
    file: &Option<String>,
    journal: &str,
) -> Option<ReadAhead>
    ensures same { D.story disk.new ≡ D.story disk.old }
    ensures works { D.works disk.old → D.works disk.new }
    ensures ahead { IfSome result (λ ahead. Told (D.story disk.old) (IsAhead D.Disk (string_bytes ahead.path)
        ahead.bytes.items)) }
{
    let path = String::from_str(alloc, journal).ok()?;
    let bytes = look_at(disk, alloc, Which::Journal, journal, file, true).ok()?;
    Some(ReadAhead { path, bytes })
}

/// Whether the path leads to the file of which the disk said this, and nobody wrote it since.
fn is_still<D: Disk>(disk: &mut D, path: &str, seen: io::Result<D::Status>) -> bool
    ensures same { D.story disk.new ≡ D.story disk.old }
    ensures works { D.works disk.old → D.works disk.new }
{
    let Ok(seen) = seen else {
        return false;
    };
    match disk.status_after_links(path) {
        Ok(now) => D::is_unchanged(&seen, &now),
        Err(_) => false,
    }
}
