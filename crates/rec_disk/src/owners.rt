//! Whose links and journals are taken in a folder where anyone may put some.
use crate::folders::folder_of;
use std::fs::{File, Metadata};
use std::io::Error;
use std::os::unix::fs::{MetadataExt, PermissionsExt};
use std::rt::Files;
use std::{fs, io};

/// The bits of a mode by which a folder is sticky and anyone may write it, as `/tmp`.
const SHARED: u32 = 0o1002;

/// Checks that the link at a path may be followed: in a shared folder only that of the caller or of the folder's owner. The
/// system asks the same of the links that it follows itself, where it is set to.
pub fn check_link<R: Files<File = File>>(rt: &R, path: &str) -> io::Result<()> {
    let folder = fs::metadata(rt, folder_of(path))?;
    if is_shared(&folder) && is_strange(rt, &folder, &fs::symlink_metadata(rt, path)?) {
        return Err(foreign_link());
    }
    Ok(())
}

/// Checks that the file at a path, which is no link, may be read as a journal: in a shared folder only that of the caller, of
/// the folder's owner or of a known user.
pub fn check_journal<R: Files<File = File>>(
    rt: &R,
    path: &str,
    journal: &Metadata,
) -> io::Result<()> {
    let folder = fs::metadata(rt, folder_of(path))?;
    if is_shared(&folder) && is_strange(rt, &folder, journal) {
        return Err(foreign_journal());
    }
    Ok(())
}

/// Whether a journal belongs to the owner of its file or to root.
pub fn is_known(journal: &Metadata, file: &Metadata) -> bool {
    journal.uid() == file.uid() || journal.uid() == 0
}

fn is_shared(folder: &Metadata) -> bool {
    folder.mode() & SHARED == SHARED
}

/// Whether it belongs neither to the folder's owner nor to the caller.
fn is_strange<R: Files<File = File>>(rt: &R, folder: &Metadata, there: &Metadata) -> bool {
    there.uid() != folder.uid() && Some(there.uid()) != caller(rt)
}

/// The effective user, to whom the system says that the program belongs. Where there is no `/proc` it isn't known.
fn caller<R: Files<File = File>>(rt: &R) -> Option<u32> {
    match fs::metadata(rt, "/proc/self") {
        Ok(own) => Some(own.uid()),
        Err(_) => None,
    }
}

fn foreign_link() -> Error {
    Error::other("a link of another user, in a folder that anyone may write: it isn't followed")
}

fn foreign_journal() -> Error {
    Error::other("another user's, in a folder that anyone may write: move it, or give --journal")
}
