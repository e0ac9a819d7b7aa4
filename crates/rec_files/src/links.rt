//! Symbolic links.
ghost use Rattle.std.specs.Prelude.{◌≡◌, Some, IfOk, IsSome, option_map, string_bytes};
ghost use Rattle.rec_disk.specs.Disk.{Told, IsMemory};
ghost use Rattle.rec_files.specs.Paths.{end_of};
ghost use Rattle.rec_files.specs.proving.Succeeding.{Succeeds};

use crate::failure::too_many_links;
use crate::open_file::if_there;
use rec_disk::Disk;
use std::alloc::Global;
use std::io;

/// How many links in a row are followed.
pub const LINKS: u32 = 40;

/// The path after the symbolic links at the end of this one. Links in the folders on the way stay as they are.
pub fn after_links<D: Disk>(disk: &mut D, alloc: Global, path: &str) -> io::Result<String>
    ensures same { D.story disk.new ≡ D.story disk.old }
    ensures last { IfOk result (λ last. Told (D.story disk.old)
        (λ s. end_of D.link LINKS path.now ≡ Some (string_bytes last))) }
    ensures led { IfOk result (λ last. Told (D.story disk.old) (λ s. (D.leads path.now ≡ D.place (string_bytes last))
        × (D.leads (string_bytes last) ≡ D.place (string_bytes last)))) }
    ensures succeeds { Succeeds D.Disk IsMemory disk.old disk.new result (λ s. IsSome (end_of D.link LINKS path.now)) }
{
    let mut path = String::from_str(alloc, path)?;
    for _ in 0..LINKS {
        match next_path(disk, alloc, path.as_str())? {
            Some(next) => path = next,
            None => return Ok(path),
        }
    }
    Err(too_many_links())
}

/// Where the link at a path leads, or nothing where no link stands there.
fn next_path<D: Disk>(disk: &mut D, alloc: Global, path: &str) -> io::Result<Option<String>>
    ensures same { D.story disk.new ≡ D.story disk.old }
    ensures next { IfOk result (λ next. Told (D.story disk.old) (λ s. D.link path.now ≡ option_map string_bytes next)) }
    ensures succeeds { Succeeds D.Disk IsMemory disk.old disk.new result (λ s. Unit {0}) }
{
    match if_there(disk.status(path))? {
        Some(there) if D::is_link(&there) => Ok(Some(disk.follow(alloc, path)?)),
        _ => Ok(None),
    }
}
