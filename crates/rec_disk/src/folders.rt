//! The folder in which a path stands.
ghost use Rattle.std.specs.Prelude.{◌≡◌};
ghost use Rattle.std.specs.Path.{path_parent};
ghost use Rattle.rec_disk.specs.Folders.{folder_in};

use std::path::Path;

/// The folder in which a path stands.
pub fn folder_of(path: &str) -> &str
    ensures { result.now ≡ folder_in (path_parent path.now) }
{
    match Path::new(path).parent() {
        Some(folder) if !folder.as_str().is_empty() => folder.as_str(),
        _ => ".",
    }
}
