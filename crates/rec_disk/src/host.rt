//! The disk of the system. It tells no story: each call is one of the system's.
ghost use Rattle.std.specs.Prelude.{[], None, false, true, refl};

use crate::disk::Disk;
use crate::folders::folder_of;
use crate::{owners, rights};
use std::alloc::Global;
use std::fs::{File, Metadata, OpenOptions, TryLockError};
use std::io::{Error, ErrorKind, Read, Seek, SeekFrom, Write};
use std::os::unix::fs::{MetadataExt, OpenOptionsExt, PermissionsExt};
use std::path::Path;
use std::rt::Files;
use std::{fs, io};

/// How many links in a row may lead to a journal.
const LINKS: u32 = 40;

#[derive(Clone, Copy)]
pub struct HostDisk<R> {
    rt: R,
}

impl<R> HostDisk<R> {
    pub fn new(rt: R) -> HostDisk<R> {
        HostDisk { rt }
    }
}

impl<R: Files<File = File>> Disk for HostDisk<R> {
    type File = File;

    type Status = Metadata;

    ghost story = { λ disk. None };

    ghost place = { λ path. path };

    ghost leads = { λ path. path };

    ghost folder = { λ place. [] };

    ghost syncs = { λ folder. false };

    ghost link = { λ path. None };

    ghost number = { λ file. 0 };

    ghost regular = { λ number. true };

    ghost tells = { λ status. None };

    ghost works = { λ disk. ⊥ };

    ghost led = { λ path. refl };

    ghost told = { λ disk status story. story };

    fn status(&mut self, path: &str) -> io::Result<Metadata> {
        fs::symlink_metadata(&self.rt, path)
    }

    fn status_after_links(&mut self, path: &str) -> io::Result<Metadata> {
        fs::metadata(&self.rt, path)
    }

    fn status_of(&mut self, file: &File) -> io::Result<Metadata> {
        file.metadata()
    }

    fn are_one(first: &Metadata, second: &Metadata) -> bool {
        first.ino() == second.ino() && first.dev() == second.dev()
    }

    fn is_unchanged(before: &Metadata, now: &Metadata) -> bool {
        before.ino() == now.ino()
            && before.dev() == now.dev()
            && before.len() == now.len()
            && before.mtime() == now.mtime()
            && before.mtime_nsec() == now.mtime_nsec()
            && before.ctime() == now.ctime()
            && before.ctime_nsec() == now.ctime_nsec()
            && before.uid() == now.uid()
            && before.gid() == now.gid()
            && before.mode() == now.mode()
    }

    fn is_link(status: &Metadata) -> bool {
        status.is_symlink()
    }

    fn is_regular(status: &Metadata) -> bool {
        status.is_file()
    }

    fn names(status: &Metadata) -> u64 {
        status.nlink()
    }

    fn length(status: &Metadata) -> u64 {
        status.len()
    }

    /// A target that isn't absolute is seen from the folder in which the link stands.
    fn follow(&mut self, alloc: Global, path: &str) -> io::Result<String> {
        owners::check_link(&self.rt, path)?;
        let target = self
            .rt
            .read_link(alloc, path)
            .map_err(of_link)?
            .into_string();
        Ok(
            Path::new(path)
                .with_file_name(alloc, target.as_str())?
                .into_string(),
        )
    }

    fn open(&mut self, path: &str) -> io::Result<File> {
        File::open(&self.rt, path)
    }

    fn open_to_write(&mut self, path: &str) -> io::Result<File> {
        OpenOptions::new()
            .read(true)
            .write(true)
            .open(&self.rt, path)
    }

    fn lock(&mut self, file: &File) -> io::Result<bool> {
        match file.try_lock() {
            Ok(()) => Ok(true),
            Err(TryLockError::WouldBlock) => Ok(false),
            Err(TryLockError::Error(error)) => Err(error),
        }
    }

    /// What is no regular file, as a pipe, is read on from where it is.
    fn read(&mut self, alloc: Global, mut file: &File, limit: u64) -> io::Result<Vec<u8>> {
        let status = file.metadata()?;
        if status.is_file() {
            file.seek(SeekFrom::Start(0))?;
        }
        let most = limit.saturating_add(1);
        // With one byte to spare the end is seen without growing.
        let room = status.len().min(limit).saturating_add(1) as usize;
        let mut bytes = Vec::with_capacity(alloc, room)?;
        file.take(most).read_to_end(&mut bytes)?;
        Ok(bytes)
    }

    fn make(&mut self, path: &str) -> io::Result<File> {
        OpenOptions::new()
            .write(true)
            .create_new(true)
            .mode(rights::OWN_MODE)
            .open(&self.rt, path)
    }

    fn give_rights(&mut self, file: &File, old: &Metadata) -> io::Result<()> {
        rights::give_rights(file, old)
    }

    fn give_narrow_rights(
        &mut self,
        file: &File,
        model: &Metadata,
        old: Option<&Metadata>,
    ) -> io::Result<()> {
        rights::give_narrow_rights(file, model, old)
    }

    fn check_replaceable(
        &mut self,
        alloc: Global,
        path: &str,
        old: &File,
        new: &File,
    ) -> io::Result<()> {
        rights::check_replaceable(&self.rt, alloc, path, old, new)
    }

    /// The folder is asked for of a journal alone that doesn't belong to its file's owner or to root: of a link, the one in
    /// which that stands to which it leads.
    fn check_owner(
        &mut self,
        alloc: Global,
        path: &str,
        journal: &Metadata,
        file: &Metadata,
    ) -> io::Result<()> {
        if owners::is_known(journal, file) {
            return Ok(());
        }
        let mut path = String::from_str(alloc, path)?;
        for _ in 0..LINKS {
            if !self.status(path.as_str())?.is_symlink() {
                return owners::check_journal(&self.rt, path.as_str(), journal);
            }
            path = self.follow(alloc, path.as_str())?;
        }
        Err(Error::from_raw_os_error(40))
    }

    fn write(&mut self, mut file: &File, bytes: &[u8]) -> io::Result<()> {
        file.write_all(bytes)
    }

    fn sync(&mut self, file: &File) -> io::Result<()> {
        file.sync_all()
    }

    fn rename(&mut self, from: &str, to: &str) -> io::Result<()> {
        fs::rename(&self.rt, from, to)
    }

    fn remove(&mut self, path: &str) -> io::Result<()> {
        fs::remove_file(&self.rt, path)
    }

    fn sync_folder(&mut self, path: &str) -> io::Result<bool> {
        match File::open(&self.rt, folder_of(path)) {
            Ok(folder) => is_synced(folder.sync_all()),
            Err(error) if error.kind() == ErrorKind::PermissionDenied => Ok(false),
            Err(error) => Err(error),
        }
    }

    fn share_folder(&mut self, first: &str, second: &str) -> io::Result<bool> {
        let (first, second) = (folder_of(first), folder_of(second));
        Ok(
            first == second
                || Self::are_one(
                    &fs::metadata(&self.rt, first)?,
                    &fs::metadata(&self.rt, second)?,
                ),
        )
    }

    fn are_one_name(&mut self, first: &str, second: &str) -> io::Result<bool> {
        let is_one_word = Path::new(first).file_name() == Path::new(second).file_name();
        Ok(is_one_word && self.share_folder(first, second)?)
    }
}

/// A link's target is no text that can be followed.
fn of_link(error: Error) -> Error {
    if error.kind() == ErrorKind::InvalidFilename && error.raw_os_error().is_none() {
        Error::other("a symbolic link with a target that is not UTF-8")
    } else {
        error
    }
}

/// A folder of some file systems can't be synced: there it is left to the system.
fn is_synced(answer: io::Result<()>) -> io::Result<bool> {
    match answer {
        Ok(()) => Ok(true),
        Err(error) if is_unsupported(error.raw_os_error()) => Ok(false),
        Err(error) => Err(error),
    }
}

/// The numbers of the system's errors EINVAL and ENOTSUP.
fn is_unsupported(code: Option<i32>) -> bool {
    matches!(code, Some(22 | 95))
}
