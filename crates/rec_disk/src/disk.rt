//! A disk, by the calls that are made of it.
ghost use Rattle.std.specs.Prelude.{◌≡◌, ℕ, ◌+◌, Bool, List, Option, Some, None, not, false, take, IfOk, IfErr};
ghost use Rattle.std.specs.Prelude.{IsSome, is_some, IsSomeAnd, MatchOption, option_map, string_bytes, ◌↔◌, IsTrue};
ghost use Rattle.std.specs.IoError.{error_kind};
ghost use Rattle.std.specs.Result.{is_ok};
ghost use Rattle.rec_disk.specs.Disk.{Story, Look, Goes, Told, SaysOf, IsLookFor, IsLookAt, IsMake, IsWrite, IsSync};
ghost use Rattle.rec_disk.specs.Disk.{AreAlike, IsGiven, rights_seen, narrow_seen};
ghost use Rattle.rec_disk.specs.Disk.{IsRename, IsRemove, IsFolderSync, IsExcused};

use std::alloc::Global;
use std::io;
use std::io::ErrorKind;

/// Places with files. A disk may tell its story, or not.
pub trait Disk {
    /// An open file.
    type File: Drop;

    /// What the disk says of a file.
    type Status: Drop;

    /// Its states, where it tells them.
    ghost story: { Self → Option Story };

    /// The place of a path, that to which its links lead, the folder of a place, and whether that can be synced.
    ghost place: { List ℕ → List ℕ };

    ghost leads: { List ℕ → List ℕ };

    ghost folder: { List ℕ → List ℕ };

    ghost syncs: { List ℕ → Bool };

    /// The path to which the link at a path leads, where one stands there.
    ghost link: { List ℕ → Option (List ℕ) };

    /// The number of an open file, whether the file of a number is a regular one, and what a status says, where it says it.
    ghost number: { Self.File → ℕ };

    ghost regular: { ℕ → Bool };

    ghost tells: { Self.Status → Option Look };

    /// That no call fails from now on but for what stands on the disk, or for memory.
    ghost works: { Self → Type 0 };

    /// What stands at a path: of a link, the link itself.
    fn status(&mut self, path: &str) -> io::Result<Self::Status>
        ensures same { story self.new ≡ story self.old }
        ensures found { IfOk result (λ status. Told (story self.old) (λ s. IsSomeAnd (tells status)
            (λ look. IsLookAt s (place path.now) look × (look.is_link ≡ is_some (link path.now))))) }
        ensures missing { IfErr result (λ error. error_kind error ≡ ErrorKind.NotFound
            → Told (story self.old) (λ s. (s.at (place path.now) ≡ None) × (link path.now ≡ None))) }
        ensures excused { IsExcused (works self.old) (works self.new) result
            (λ error. error_kind error ≡ ErrorKind.NotFound) };

    /// What stands where the links at a path lead.
    fn status_after_links(&mut self, path: &str) -> io::Result<Self::Status>
        ensures same { story self.new ≡ story self.old }
        ensures found { IfOk result (λ status. Told (story self.old) (λ s. IsSomeAnd (tells status) (IsLookAt s
            (leads path.now)))) }
        ensures missing { IfErr result (λ error. error_kind error ≡ ErrorKind.NotFound
            → Told (story self.old) (λ s. s.at (leads path.now) ≡ None)) }
        ensures excused { IsExcused (works self.old) (works self.new) result
            (λ error. error_kind error ≡ ErrorKind.NotFound) };

    fn status_of(&mut self, file: &Self::File) -> io::Result<Self::Status>
        ensures same { story self.new ≡ story self.old }
        ensures found { IfOk result (λ status. Told (story self.old) (λ s. IsSomeAnd (tells status) (IsLookFor s
            (number file.now)))) }
        ensures excused { IsExcused (works self.old) (works self.new) result (λ error. ⊥) };

    /// Whether both are of one file.
    fn are_one(first: &Self::Status, second: &Self::Status) -> bool
        ensures { SaysOf (λ one. SaysOf (λ other. IsTrue result ↔ (one.number ≡ other.number)) (tells second.now))
            (tells first.now) };

    /// Whether both are of one file, which nobody wrote, or gave other rights, between the two.
    fn is_unchanged(before: &Self::Status, now: &Self::Status) -> bool
        ensures { SaysOf (λ one. SaysOf (λ other. IsTrue result ↔ AreAlike one other) (tells now.now))
            (tells before.now) };

    fn is_link(status: &Self::Status) -> bool
        ensures { SaysOf (λ look. result ≡ look.is_link) (tells status.now) };

    /// Whether it is a regular file: no folder, pipe, device or link.
    fn is_regular(status: &Self::Status) -> bool
        ensures { SaysOf (λ look. result ≡ regular look.number) (tells status.now) };

    /// How many names the file has.
    fn names(status: &Self::Status) -> u64;

    /// How many bytes it has.
    fn length(status: &Self::Status) -> u64
        ensures { SaysOf (λ look. result ≡ look.length) (tells status.now) };

    /// The path to which the link at a path leads.
    fn follow(&mut self, alloc: Global, path: &str) -> io::Result<String>
        ensures same { story self.new ≡ story self.old }
        ensures next { IfOk result (λ next. Told (story self.old) (λ s. link path.now ≡ Some (string_bytes next))) }
        ensures excused { IsExcused (works self.old) (works self.new) result (λ error. Told (story self.old)
            (λ s. link path.now ≡ None)) };

    /// Opens the file to which a path leads, to read it.
    fn open(&mut self, path: &str) -> io::Result<Self::File>
        ensures same { story self.new ≡ story self.old }
        ensures opened { IfOk result (λ file. Told (story self.old) (λ s. s.at (leads path.now) ≡ Some (number file))) }
        ensures missing { IfErr result (λ error. error_kind error ≡ ErrorKind.NotFound
            → Told (story self.old) (λ s. s.at (leads path.now) ≡ None)) }
        ensures excused { IsExcused (works self.old) (works self.new) result
            (λ error. error_kind error ≡ ErrorKind.NotFound) };

    /// Opens it to read and to write it.
    fn open_to_write(&mut self, path: &str) -> io::Result<Self::File>
        ensures same { story self.new ≡ story self.old }
        ensures opened { IfOk result (λ file. Told (story self.old) (λ s. s.at (leads path.now) ≡ Some
            (number file))) }
        ensures excused { IsExcused (works self.old) (works self.new) result
            (λ error. Told (story self.old) (λ s. s.at (leads path.now) ≡ None)) };

    /// Locks a file, unless another program has it locked.
    fn lock(&mut self, file: &Self::File) -> io::Result<bool>
        ensures same { story self.new ≡ story self.old }
        ensures locked { IfOk result (λ locked. Told (story self.old) (λ s. locked ≡ not (s.held (number file.now)))) }
        ensures excused { IsExcused (works self.old) (works self.new) result (λ error. ⊥) };

    /// The bytes of a file, or where it has more than the limit, one more of them.
    fn read(&mut self, alloc: Global, file: &Self::File, limit: u64) -> io::Result<Vec<u8>>
        ensures same { story self.new ≡ story self.old }
        ensures bytes { IfOk result (λ bytes. Told (story self.old)
            (λ s. bytes.items ≡ take (limit + 1) (s.bytes (number file.now)))) }
        ensures excused { IsExcused (works self.old) (works self.new) result (λ error. ⊥) };

    /// Makes an empty file, which its maker alone may read and write, at a path where nothing stands.
    fn make(&mut self, path: &str) -> io::Result<Self::File>
        ensures goes { Goes (story self.old) (story self.new) result (IsMake number (place path.now) result) }
        ensures excused { IsExcused (works self.old) (works self.new) result
            (λ error. Told (story self.old) (λ s. IsSome (s.at (place path.now)))) };

    /// Gives a file the owner, the group and the mode of another one, as far as the system lets it.
    fn give_rights(&mut self, file: &Self::File, old: &Self::Status) -> io::Result<()>
        ensures goes { Goes (story self.old) (story self.new) result
            (IsGiven (number file.now) (rights_seen (tells old.now)) (is_ok result)) }
        ensures excused { IsExcused (works self.old) (works self.new) result (λ error. ⊥) };

    /// Gives a file the owner and the group of a model, as far as the system lets it, and of the rights of that those to read
    /// and to write; where it takes the place of an old file, no more than that had.
    fn give_narrow_rights(
        &mut self,
        file: &Self::File,
        model: &Self::Status,
        old: Option<&Self::Status>,
    ) -> io::Result<()>
        ensures goes { Goes (story self.old) (story self.new) result (IsGiven (number file.now)
            (narrow_seen (tells model.now) (option_map (λ old. tells old.now) old.entry)) (is_ok result)) }
        ensures excused { IsExcused (works self.old) (works self.new) result (λ error. ⊥) };

    /// Checks that a file that was made beside the one at a path may take its place.
    fn check_replaceable(
        &mut self,
        alloc: Global,
        path: &str,
        old: &Self::File,
        new: &Self::File,
    ) -> io::Result<()>
        ensures same { story self.new ≡ story self.old }
        ensures excused { IsExcused (works self.old) (works self.new) result (λ error. ⊥) };

    /// Checks that a journal, which was opened at a path, isn't a stranger's: where anyone may put files, it belongs to the
    /// owner of its file, to the caller, to the folder's owner or to root.
    fn check_owner(
        &mut self,
        alloc: Global,
        path: &str,
        journal: &Self::Status,
        file: &Self::Status,
    ) -> io::Result<()>
        ensures same { story self.new ≡ story self.old }
        ensures excused { IsExcused (works self.old) (works self.new) result (λ error. ⊥) };

    /// Writes all the bytes of a file that was made.
    fn write(&mut self, file: &Self::File, bytes: &[u8]) -> io::Result<()>
        ensures goes { Goes (story self.old) (story self.new) result (IsWrite (number file.now) bytes.now result) }
        ensures excused { IsExcused (works self.old) (works self.new) result (λ error. ⊥) };

    /// After it, a crash leaves the bytes of the file.
    fn sync(&mut self, file: &Self::File) -> io::Result<()>
        ensures goes { Goes (story self.old) (story self.new) result (IsSync (number file.now) result) }
        ensures excused { IsExcused (works self.old) (works self.new) result (λ error. ⊥) };

    fn rename(&mut self, from: &str, to: &str) -> io::Result<()>
        ensures goes { Goes (story self.old) (story self.new) result (IsRename (place from.now) (place to.now) result) }
        ensures excused { IsExcused (works self.old) (works self.new) result
            (λ error. Told (story self.old) (λ s. s.at (place from.now) ≡ None)) };

    fn remove(&mut self, path: &str) -> io::Result<()>
        ensures goes { Goes (story self.old) (story self.new) result (IsRemove (place path.now) result) }
        ensures excused { IsExcused (works self.old) (works self.new) result
            (λ error. Told (story self.old) (λ s. s.at (place path.now) ≡ None)) };

    /// After it, a crash leaves what stands in the folder of a path. Some folders can't be synced.
    fn sync_folder(&mut self, path: &str) -> io::Result<bool>
        ensures goes { Goes (story self.old) (story self.new) result (IsFolderSync folder (place path.now) result) }
        ensures unsynced { IfOk result (λ done. done ≡ false → syncs (folder (place path.now)) ≡ false) }
        ensures excused { IsExcused (works self.old) (works self.new) result (λ error. ⊥) };

    /// Whether two paths stand in one folder, however it is written.
    fn share_folder(&mut self, first: &str, second: &str) -> io::Result<bool>
        ensures same { story self.new ≡ story self.old }
        ensures shared { IfOk result (λ shared. Told (story self.old)
            (λ s. IsTrue shared ↔ (folder (place first.now) ≡ folder (place second.now)))) }
        ensures excused { IsExcused (works self.old) (works self.new) result (λ error. ⊥) };

    /// Whether two paths are one name in one folder, however that is written.
    fn are_one_name(&mut self, first: &str, second: &str) -> io::Result<bool>
        ensures same { story self.new ≡ story self.old }
        ensures one { IfOk result (λ one. Told (story self.old)
            (λ s. IsTrue one ↔ (place first.now ≡ place second.now))) }
        ensures excused { IsExcused (works self.old) (works self.new) result (λ error. ⊥) };

    /// A path leads where its link leads, or where no link stands, to its own place.
    ghost led: { (path : List ℕ) → MatchOption (link path) (leads path ≡ place path)
        (λ next. leads path ≡ leads next) };

    /// A disk that tells its story tells what each status says.
    ghost told: { (disk : Self) (status : Self.Status) → IsSome (story disk) → IsSome (tells status) };
}
