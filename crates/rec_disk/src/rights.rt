//! Owner, group and mode of a new file, and whether it may take the place of the old one.
ghost use Rattle.std.specs.Prelude.{◌≡◌, ◌<◌, bit_and, unwrap_or};
ghost use Rattle.rec_disk.specs.Rights.{owner_of, group_of, others_of, special_of, most, read_or_write, special_left};
ghost use Rattle.rec_disk.specs.Rights.{left_mode};

use crate::folders::folder_of;
use std::alloc::Global;
use std::fs::{File, Metadata, Permissions};
use std::io::{Error, Read};
use std::os::fd::AsRawFd;
use std::os::unix::fs::{MetadataExt, PermissionsExt, fchown};
use std::rt::Files;
use std::{fs, io};

/// To read and to write, for the owner alone: the mode of what is made.
pub const OWN_MODE: u32 = 0o600;

/// To read and to write, for the owner, the group and others.
const READ_OR_WRITE: u32 = 0o666;

/// The mode of a new file, by the old one's and by what of its owner and group could be kept. Its octal digits are the
/// special bits and the rights of the owner, of the group and of others.
pub fn kept_mode(mode: u32, owner_kept: bool, group_kept: bool) -> u32
    ensures owner { owner_of result ≡ owner_of mode }
    ensures group { group_of result ≡ bit_and (group_of mode) (most mode owner_kept group_kept) }
    ensures others { others_of result ≡ bit_and (others_of mode) (most mode owner_kept group_kept) }
    ensures special { special_of result ≡ special_left (special_of mode) owner_kept group_kept }
    ensures whole { result ≡ left_mode mode owner_kept group_kept }
{
    let (owner, group, others) = (mode / 64 % 8, mode / 8 % 8, mode % 8);
    let by_group = if group_kept { 7 } else { group & others };
    let by_owner = if owner_kept { 7 } else { owner };
    let most = by_group & by_owner;
    special(mode / 512 % 8, owner_kept, group_kept) * 512
        + owner * 64
        + (group & most) * 8
        + (others & most)
}

/// The special bits: 4 to run as the owner, 2 as the group, 1 is sticky.
fn special(bits: u32, owner_kept: bool, group_kept: bool) -> u32
    requires { bits < 8 }
    ensures bits { result ≡ special_left bits owner_kept group_kept }
    ensures bound { result < 8 }
{
    let as_owner = if owner_kept { bits / 4 } else { 0 };
    let as_group = if group_kept { bits / 2 % 2 } else { 0 };
    as_owner * 4 + as_group * 2 + bits % 2
}

/// The rights to read and to write that a mode gives, and of these, where another one is given, those that it gives too.
pub fn narrow_mode(mode: u32, held: Option<u32>) -> u32
    ensures narrow { result ≡ bit_and (bit_and mode read_or_write) (unwrap_or held read_or_write) }
{
    mode & READ_OR_WRITE & held.unwrap_or(READ_OR_WRITE)
}

/// Gives a new file the owner, the group and the mode of the old one, as far as the system lets it.
pub fn give_rights(file: &File, old: &Metadata) -> io::Result<()> {
    give_mode(file, old, old.mode())
}

/// Gives a new file the owner and the group of a model, as far as the system lets it, and of its rights those to read and to
/// write; where it takes the place of an old file, no more than that had.
pub fn give_narrow_rights(file: &File, model: &Metadata, old: Option<&Metadata>) -> io::Result<()> {
    let held = match old {
        Some(old) => Some(old.mode()),
        None => None,
    };
    give_mode(file, model, narrow_mode(model.mode(), held))
}

/// Gives a new file the owner and the group of another one, as far as the system lets it, and of a mode what goes with these.
fn give_mode(file: &File, model: &Metadata, mode: u32) -> io::Result<()> {
    let _ = fchown(file, Some(model.uid()), None);
    let _ = fchown(file, None, Some(model.gid()));
    let own = file.metadata()?;
    let mode = kept_mode(mode, own.uid() == model.uid(), own.gid() == model.gid());
    file.set_permissions(Permissions::from_mode(mode))
}

/// Checks that the new file, which is still its maker's, may take the place of the old one at a path.
pub fn check_replaceable<R: Files<File = File>>(
    rt: &R,
    alloc: Global,
    path: &str,
    old: &File,
    new: &File,
) -> io::Result<()> {
    let folder = fs::metadata(rt, folder_of(path))?;
    if is_guarded(&folder, &old.metadata()?, &new.metadata()?) {
        return Err(not_permitted());
    }
    if are_apart_on_mounts(rt, alloc, old, new) {
        return Err(mount_point());
    }
    Ok(())
}

/// In a sticky folder a file is replaced by its owner, the folder's owner and root alone.
fn is_guarded(folder: &Metadata, old: &Metadata, own: &Metadata) -> bool {
    folder.mode() / 512 % 2 == 1
        && own.uid() != 0
        && own.uid() != old.uid()
        && own.uid() != folder.uid()
}

/// A file on another mount than what was made beside it is a mount point itself. Where the system doesn't tell, it
/// isn't taken for one.
fn are_apart_on_mounts<R: Files<File = File>>(
    rt: &R,
    alloc: Global,
    old: &File,
    new: &File,
) -> bool {
    match (mount_of(rt, alloc, old), mount_of(rt, alloc, new)) {
        (Ok(Some(old)), Ok(Some(new))) => old != new,
        _ => false,
    }
}

/// The number of the mount on which an open file stands.
fn mount_of<R: Files<File = File>>(rt: &R, alloc: Global, file: &File) -> io::Result<Option<u64>> {
    let name = format!(in alloc; "/proc/self/fdinfo/{}", file.as_raw_fd())?;
    let text = io::read_to_string(alloc, File::open(rt, name.as_str())?.take(4096))?;
    Ok(mount_in(text.as_str()))
}

/// The number in the line `mnt_id:`.
fn mount_in(text: &str) -> Option<u64> {
    for line in text.lines() {
        if let Some(number) = line.strip_prefix("mnt_id:") {
            return number.trim().parse().ok();
        }
    }
    None
}

/// The system's words for what only the owner may do.
fn not_permitted() -> Error {
    Error::from_raw_os_error(1)
}

fn mount_point() -> Error {
    Error::other("a mount point, which can't be replaced")
}
