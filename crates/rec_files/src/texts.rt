//! A text that a change is given: read whole, before the file.
ghost use Rattle.std.specs.Prelude.{◌≡◌, ◌≢◌, ◌≤◌, codes, length, Some, IfOk, IsSomeAnd};
ghost use Rattle.rec_text.specs.Faults.{IsOkUnlessEither};
ghost use Rattle.rec_disk.specs.Disk.{Told, IsMemory};
ghost use Rattle.rec_disk.specs.Lasting.{shown};
ghost use Rattle.rec_files.specs.Succeeding.{IsShort};
ghost use Rattle.rec_files.specs.proving.Succeeding.{Succeeds};

use crate::files::is_out_of_memory;
use crate::open_file::OpenFile;
use crate::reading::{LIMIT, read_rest};
use rec_disk::{Disk, Escaped};
use rec_tools::{Bytes, Fault, Which};
use std::alloc::Global;
use std::io;

/// The path that stands for standard input.
const STANDARD_INPUT: &str = "-";

/// A text that a change is given, as that of a batch: all bytes of the file at its path, and nothing is changed. That of `-` is
/// what standard input still has. Where it can't be read, the path and the cause are told on standard error.
pub fn whole_text<R: Input + Eprint + AllocGlobal, D: Disk>(
    rt: &R,
    disk: &mut D,
    path: &str,
) -> Result<Bytes, Fault>
    ensures same { D.story disk.new ≡ D.story disk.old }
    ensures works { D.works disk.old → D.works disk.new }
    ensures text { path.now ≢ codes "-" → IfOk result (λ text. Told (D.story disk.old)
        (λ s. shown s.bytes (s.at (D.leads path.now)) ≡ Some text)) }
    ensures limit { IfOk result (λ text. length text ≤ LIMIT) }
    ensures refusals { IsOkUnlessEither result Fault.OutOfMemory Fault.StoreFailed }
{
    match bytes_at(rt, disk, path) {
        Ok(bytes) => Ok(Bytes::from_vec(bytes)),
        Err(error) if is_out_of_memory(&error) => Err(Fault::OutOfMemory),
        Err(error) => {
            let _ = eprintln!(rt; "{}: {error}", Escaped(path));
            Err(Fault::StoreFailed)
        }
    }
}

/// The bytes of standard input, or of the file at another path.
fn bytes_at<R: Input + AllocGlobal, D: Disk>(
    rt: &R,
    disk: &mut D,
    path: &str,
) -> io::Result<Vec<u8>>
    ensures same { D.story disk.new ≡ D.story disk.old }
    ensures works { D.works disk.old → D.works disk.new }
    ensures bytes { path.now ≢ codes "-" → IfOk result (λ bytes. Told (D.story disk.old)
        (λ s. shown s.bytes (s.at (D.leads path.now)) ≡ Some bytes.items)) }
    ensures limit { IfOk result (λ bytes. length bytes.items ≤ LIMIT) }
{
    if path == STANDARD_INPUT {
        return read_rest(Which::Base, Vec::new(rt.alloc()), rt.reader());
    }
    read_at(disk, rt.alloc(), path)
}

/// The bytes of the file at a path, which nobody may write meanwhile. It isn't locked, since it is only read. Too long, it is
/// told to be so as the file itself is.
fn read_at<D: Disk>(disk: &mut D, alloc: Global, path: &str) -> io::Result<Vec<u8>>
    ensures same { D.story disk.new ≡ D.story disk.old }
    ensures bytes { IfOk result (λ bytes. Told (D.story disk.old)
        (λ s. shown s.bytes (s.at (D.leads path.now)) ≡ Some bytes.items)) }
    ensures limit { IfOk result (λ bytes. length bytes.items ≤ LIMIT) }
    ensures succeeds { Succeeds D.Disk IsMemory disk.old disk.new result (λ s. IsSomeAnd (s.at (D.leads path.now))
        (IsShort s)) }
{
    let file = disk.open(path)?;
    let opened = OpenFile::new(disk, file)?;
    opened.read(disk, alloc, Which::Base)
}
