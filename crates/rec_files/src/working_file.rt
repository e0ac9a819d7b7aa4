//! Files under the working names: made and locked.
ghost use Rattle.std.specs.Prelude.{◌≡◌, ◌↔◌, None, IsTrue, IfOk};
ghost use Rattle.rec_disk.specs.Disk.{Goes, Told, IsMake, IsMemory};
ghost use Rattle.rec_files.specs.proving.Replacing.{IsFreeAt};
ghost use Rattle.rec_files.specs.Succeeding.{IsForMemory};
ghost use Rattle.rec_files.specs.proving.Succeeding.{Succeeds};

use crate::failure::{Cause, in_use, is_of_folder};
use crate::open_file::leads_to;
use rec_disk::Disk;
use std::io;
use std::io::{Error, ErrorKind};

/// Makes a file under a working name, at which nothing may stand.
pub fn create<D: Disk>(disk: &mut D, name: &str) -> Result<D::File, Cause>
    ensures goes { Goes (D.story disk.old) (D.story disk.new) result (IsMake D.number (D.place name.now) result) }
    ensures succeeds { Succeeds D.Disk IsForMemory disk.old disk.new result (λ s. s.at (D.place name.now) ≡ None) }
{
    match disk.make(name) {
        Ok(file) => Ok(file),
        Err(error) => Err(of_making(error)),
    }
}

/// Where the folder is missing, and where another program came first, the path itself is told.
fn of_making(error: Error) -> Cause
    ensures { IsMemory error → IsForMemory result }
{
    match error.kind() {
        ErrorKind::AlreadyExists => Cause::Itself(in_use()),
        ErrorKind::NotFound => Cause::Itself(error),
        _ if is_of_folder(&error) => Cause::Folder(error),
        _ => Cause::Working(error),
    }
}

/// Locks a file, and says whether that was possible and the name leads to it. Who has such a file locked is its writer.
pub fn lock_own<D: Disk>(disk: &mut D, name: &str, file: &D::File) -> io::Result<bool>
    ensures same { D.story disk.new ≡ D.story disk.old }
    ensures own { IfOk result (λ own. Told (D.story disk.old)
        (λ s. IsTrue own ↔ IsFreeAt (D.place name.now) (D.number file.now) s)) }
    ensures succeeds { Succeeds D.Disk IsMemory disk.old disk.new result (λ s. Unit {0}) }
{
    Ok(disk.lock(file)? && leads_to(disk, name, file)?)
}
