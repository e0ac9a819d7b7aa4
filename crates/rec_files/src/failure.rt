//! Why a file could not be read or written, in the program's own words where the system has none.

ghost use Rattle.std.specs.Prelude.{◌≡◌};
ghost use Rattle.std.specs.IoError.{error_kind};
ghost use Rattle.rec_disk.specs.Disk.{IsMemory};
ghost use Rattle.rec_files.specs.Succeeding.{IsForMemory};

use rec_tools::Which;
use std::io::{Error, ErrorKind};

/// Which of the two failed, and why.
#[derive(Clone, Copy)]
pub struct Failure {
    pub which: Which,
    pub cause: Cause,
}

/// What is told with the error, and of which path.
#[derive(Clone, Copy)]
pub enum Cause {
    /// Of the path as it was given.
    Itself(Error),
    /// Its working name can't be made.
    Working(Error),
    /// The folder of its working name may not be written.
    Folder(Error),
    /// What stands under its working name is in the way, and stays.
    Foreign(Error),
    /// It was replaced, and then its folder could not be synced.
    Unsynced(Error),
}

impl From<Error> for Cause {
    ghost use Rattle.rec_files.specs.declared.failure.Cause.TheVariants.{Itself};

    ghost from_gives = { λ error cause. cause ≡ Itself error };

    fn from(error: Error) -> Cause {
        Cause::Itself(error)
    }
}

pub fn not_regular() -> Error
    ensures other { error_kind result ≡ ErrorKind.Other }
{
    Error::other("not a regular file")
}

pub fn one_file() -> Error {
    Error::other("the file and its journal are one file")
}

/// One of the two stands where the other is written before it takes its place.
pub fn clash() -> Error {
    Error::other("the file or its journal stands under the working name of the other")
}

pub fn too_long(which: Which) -> Error {
    match which {
        Which::Base => Error::other("more than 1073741824 bytes"),
        Which::Journal => Error::other(
            "more than 1073741824 bytes: shorten the journal, or move it away",
        ),
    }
}

/// A content is replaced that was not read.
pub fn unread() -> Error {
    Error::other("not read before")
}

/// A link leads to nothing.
pub fn not_found() -> Error {
    Error::from_raw_os_error(2)
}

/// More links in a row than are followed.
pub fn too_many_links() -> Error {
    Error::from_raw_os_error(40)
}

/// Another program has what stands under its working name locked.
pub fn in_use() -> Error {
    Error::other("in use: another program is writing it")
}

/// No stop of recu left it under a working name.
pub fn not_left() -> Error {
    Error::other("not left by recu")
}

/// One of the two has a second name, which is a working name.
pub fn second_name(which: Which) -> Error {
    match which {
        Which::Base => Error::other("a second name of the file"),
        Which::Journal => Error::other("a second name of the journal"),
    }
}

/// Another program has it locked, most often another recu that edits it.
pub fn locked() -> Error {
    Error::other("locked by another program")
}

/// Between two moves another recu numbered the edits anew.
pub fn edited() -> Error {
    Error::other("edited by another program meanwhile")
}

pub fn changed() -> Error {
    Error::other("changed by another program meanwhile")
}

/// What stands under a working name can't be judged or removed. What has gone meanwhile was another program's.
pub fn of_foreign(error: Error) -> Cause
    ensures { IsMemory error → IsForMemory result }
{
    match error.kind() {
        ErrorKind::NotFound => Cause::Itself(in_use()),
        ErrorKind::OutOfMemory => Cause::Itself(error),
        _ => Cause::Foreign(error),
    }
}

/// What a stop left under a working name can't be removed.
pub fn of_removing(error: Error) -> Cause
    ensures { IsMemory error → IsForMemory result }
{
    if is_of_folder(&error) {
        Cause::Folder(error)
    } else {
        of_foreign(error)
    }
}

/// The numbers of the system's errors EACCES and EROFS: in this folder no name can be made or removed.
pub fn is_of_folder(error: &Error) -> bool {
    matches!(error.raw_os_error(), Some(13 | 30))
}
