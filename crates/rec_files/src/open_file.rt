//! A file as it was read, locked to the end of the program's work, and whether it still stands at its path.
ghost use Rattle.std.specs.Prelude.{◌≡◌, ◌≢◌, ◌≤◌, length, None, Some, Ok, Err, true, false, IfOk, IfErr, IfSome, IsSome};
ghost use Rattle.std.specs.Prelude.{option_map, ◌↔◌, IsTrue, IsSomeAnd};
ghost use Rattle.std.specs.IoError.{error_kind};
ghost use Rattle.rec_disk.specs.Disk.{Told, SaysOf, IsLookFor, IsMemory};
ghost use Rattle.rec_files.specs.Succeeding.{SawAnother, IsUnlocked};
ghost use Rattle.rec_files.specs.proving.Succeeding.{Succeeds, CanRead, IsLookStill};

use crate::failure::{changed, locked, one_file};
use crate::reading::{LIMIT, read_whole};
use rec_disk::Disk;
use rec_tools::Which;
use std::alloc::Global;
use std::io;
use std::io::ErrorKind;

/// How often a file is opened again that another program replaces meanwhile.
const TRIES: u32 = 16;

/// An open file, and what the disk said of it before it was read.
#[derive(Drop)]
pub struct OpenFile<D: Disk> {
    pub file: D::File,
    pub seen: D::Status,
}

impl<D: Disk> OpenFile<D> {
    pub fn new(disk: &mut D, file: D::File) -> io::Result<OpenFile<D>>
        ensures same { D.story disk.new ≡ D.story disk.old }
        ensures file { IfOk result (λ opened. opened.file ≡ file) }
        ensures seen { IfOk result (λ opened. Told (D.story disk.old)
            (λ s. IsSomeAnd (D.tells opened.seen) (IsLookFor s (D.number opened.file)))) }
        ensures succeeds { Succeeds D.Disk IsMemory disk.old disk.new result (λ s. Unit {0}) }
    {
        let seen = disk.status_of(&file)?;
        Ok(OpenFile { file, seen })
    }

    /// Its bytes, where nobody writes it meanwhile.
    pub fn read(&self, disk: &mut D, alloc: Global, which: Which) -> io::Result<Vec<u8>>
        ensures same { D.story disk.new ≡ D.story disk.old }
        ensures limit { IfOk result (λ bytes. length bytes.items ≤ LIMIT) }
        ensures whole { IfOk result (λ bytes. Told (D.story disk.old)
            (λ s. bytes.items ≡ s.bytes (D.number self.now.file))) }
        ensures still { IfOk result (λ bytes. Told (D.story disk.old) (λ s. SaysOf (λ look. D.regular look.number ≡ true
            → IsLookStill s (D.number self.now.file) look) (D.tells self.now.seen))) }
        ensures succeeds { Succeeds D.Disk IsMemory disk.old disk.new result (CanRead D.Disk self.now) }
    {
        let bytes = read_whole(disk, alloc, which, &self.file)?;
        if self.is_disturbed(disk)? {
            return Err(changed());
        }
        Ok(bytes)
    }

    /// Somebody wrote the open file since it was opened. A pipe or a device changes as it is read.
    fn is_disturbed(&self, disk: &mut D) -> io::Result<bool>
        ensures same { D.story disk.new ≡ D.story disk.old }
        ensures still { IfOk result (λ disturbed. Told (D.story disk.old)
            (λ s. CanRead D.Disk self.now s → disturbed ≡ false)) }
        ensures disturbed { IfOk result (λ disturbed. Told (D.story disk.old) (λ s. SaysOf (λ look.
            D.regular look.number ≡ true → disturbed ≡ false → IsLookStill s (D.number self.now.file) look)
            (D.tells self.now.seen))) }
        ensures succeeds { Succeeds D.Disk IsMemory disk.old disk.new result (λ s. Unit {0}) }
    {
        Ok(D::is_regular(&self.seen) && !D::is_unchanged(&self.seen, &disk.status_of(&self.file)?))
    }
}

/// Opens and locks the file at a path, which is no link, unless it is the other file of the two.
pub fn lock<D: Disk>(disk: &mut D, path: &str, other: Option<&D::Status>) -> io::Result<OpenFile<D>>
    ensures same { D.story disk.new ≡ D.story disk.old }
    ensures opened { IfOk result (λ opened. Told (D.story disk.old)
        (λ s. s.at (D.leads path.now) ≡ Some (D.number opened.file))) }
    ensures seen { IfOk result (λ opened. Told (D.story disk.old)
        (λ s. IsSomeAnd (D.tells opened.seen) (IsLookFor s (D.number opened.file)))) }
    ensures free { IfOk result (λ opened. Told (D.story disk.old) (λ s. s.held (D.number opened.file) ≡ false)) }
    ensures succeeds { Succeeds D.Disk IsMemory disk.old disk.new result (λ s. (D.leads path.now ≡ D.place path.now)
        × IsSomeAnd (s.at (D.leads path.now)) (IsUnlocked (option_map (λ other. D.tells other.now) other.entry) s)) }
{
    for _ in 0..TRIES {
        if let Some(file) = try_to_lock(disk, path, other)? {
            return Ok(file);
        }
    }
    Err(changed())
}

/// One try, or nothing where the path no longer leads to what was opened.
fn try_to_lock<D: Disk>(
    disk: &mut D,
    path: &str,
    other: Option<&D::Status>,
) -> io::Result<Option<OpenFile<D>>>
    ensures same { D.story disk.new ≡ D.story disk.old }
    ensures opened { IfOk result (λ tried. IfSome tried (λ opened. Told (D.story disk.old)
        (λ s. s.at (D.leads path.now) ≡ Some (D.number opened.file)))) }
    ensures seen { IfOk result (λ tried. IfSome tried (λ opened. Told (D.story disk.old)
        (λ s. IsSomeAnd (D.tells opened.seen) (IsLookFor s (D.number opened.file))))) }
    ensures free { IfOk result (λ tried. IfSome tried (λ opened. Told (D.story disk.old)
        (λ s. s.held (D.number opened.file) ≡ false))) }
    ensures first { IfOk result (λ tried. Told (D.story disk.old)
        (λ s. (D.leads path.now ≡ D.place path.now) → IsSome tried)) }
    ensures succeeds { Succeeds D.Disk IsMemory disk.old disk.new result (λ s. IsSomeAnd (s.at (D.leads path.now))
        (IsUnlocked (option_map (λ other. D.tells other.now) other.entry) s)) }
{
    let file = open_to_lock(disk, path)?;
    if is_that(disk, &file, other)? {
        return Err(one_file());
    }
    if !disk.lock(&file)? {
        return Err(locked());
    }
    if leads_to(disk, path, &file)? {
        Ok(Some(OpenFile::new(disk, file)?))
    } else {
        Ok(None)
    }
}

/// Some network file systems lock only what is open for writing.
fn open_to_lock<D: Disk>(disk: &mut D, path: &str) -> io::Result<D::File>
    ensures same { D.story disk.new ≡ D.story disk.old }
    ensures opened { IfOk result (λ file. Told (D.story disk.old)
        (λ s. s.at (D.leads path.now) ≡ Some (D.number file))) }
    ensures succeeds { Succeeds D.Disk IsMemory disk.old disk.new result (λ s. IsSome (s.at (D.leads path.now))) }
{
    match disk.open_to_write(path) {
        Ok(file) => Ok(file),
        Err(_) => disk.open(path),
    }
}

fn is_that<D: Disk>(disk: &mut D, file: &D::File, other: Option<&D::Status>) -> io::Result<bool>
    ensures same { D.story disk.new ≡ D.story disk.old }
    ensures other { IfOk result (λ that. Told (D.story disk.old)
        (λ s. SawAnother (D.number file.now) (option_map (λ other. D.tells other.now) other.entry) → that ≡ false)) }
    ensures succeeds { Succeeds D.Disk IsMemory disk.old disk.new result (λ s. Unit {0}) }
{
    match other {
        Some(other) => Ok(D::are_one(other, &disk.status_of(file)?)),
        None => Ok(false),
    }
}

/// Whether the name, which is no link then, leads to the open file.
pub fn leads_to<D: Disk>(disk: &mut D, name: &str, file: &D::File) -> io::Result<bool>
    ensures same { D.story disk.new ≡ D.story disk.old }
    ensures leads { IfOk result (λ leads. Told (D.story disk.old)
        (λ s. IsTrue leads ↔ (s.at (D.place name.now) ≡ Some (D.number file.now)))) }
    ensures succeeds { Succeeds D.Disk IsMemory disk.old disk.new result (λ s. Unit {0}) }
{
    let own = disk.status_of(file)?;
    match if_there(disk.status(name))? {
        Some(there) => Ok(D::are_one(&there, &own)),
        None => Ok(false),
    }
}

/// What a look found, or that nothing is there.
pub fn if_there<T>(look: io::Result<T>) -> io::Result<Option<T>>
    ensures found { IfOk look (λ there. result ≡ Ok (Some there)) }
    ensures missing { IfErr look (λ error. error_kind error ≡ ErrorKind.NotFound → result ≡ Ok None) }
    ensures failed { IfErr look (λ error. error_kind error ≢ ErrorKind.NotFound → result ≡ Err error) }
{
    match look {
        Ok(there) => Ok(Some(there)),
        Err(error) if error.kind() == ErrorKind::NotFound => Ok(None),
        Err(error) => Err(error),
    }
}
