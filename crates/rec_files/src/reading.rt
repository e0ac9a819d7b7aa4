//! Files and other readers are read to their end, within a limit.
ghost use Rattle.std.specs.Prelude.{◌≡◌, ◌≤◌, ◌++◌, length, IfOk, IfSome};
ghost use Rattle.rec_disk.specs.Disk.{Told, IsMemory};
ghost use Rattle.rec_files.specs.Succeeding.{IsShort};
ghost use Rattle.rec_files.specs.proving.Succeeding.{Succeeds};

use crate::failure::too_long;
use rec_disk::Disk;
use rec_tools::Which;
use std::alloc::Global;
use std::io;
use std::io::Read;

/// How many bytes a file may have.
pub const LIMIT: u64 = 1_073_741_824;

pub fn read_whole<D: Disk>(
    disk: &mut D,
    alloc: Global,
    which: Which,
    file: &D::File,
) -> io::Result<Vec<u8>>
    ensures same { D.story disk.new ≡ D.story disk.old }
    ensures limit { IfOk result (λ bytes. length bytes.items ≤ LIMIT) }
    ensures whole { IfOk result (λ bytes. Told (D.story disk.old) (λ s. bytes.items ≡ s.bytes (D.number file.now))) }
    ensures succeeds { Succeeds D.Disk IsMemory disk.old disk.new result (λ s. IsShort s (D.number file.now)) }
{
    if D::length(&disk.status_of(file)?) > LIMIT {
        return Err(too_long(which));
    }
    let bytes = disk.read(alloc, file, LIMIT)?;
    if bytes.len() as u64 > LIMIT {
        return Err(too_long(which));
    }
    Ok(bytes)
}

/// Adds to these bytes all that a reader still has.
pub fn read_rest<T: Read + Drop>(which: Which, mut bytes: Vec<u8>, reader: T) -> io::Result<Vec<u8>>
    ensures limit { IfOk result (λ all. length all.items ≤ LIMIT) }
    ensures whole { IfOk result (λ all. IfSome (T.remaining reader) (λ rest. all.items ≡ bytes.items ++ rest)) }
{
    reader.take(LIMIT + 1).read_to_end(&mut bytes)?;
    if bytes.len() as u64 > LIMIT {
        return Err(too_long(which));
    }
    Ok(bytes)
}
