//! Plays drawn calls on a disk, and writes down what each of them answers.
use crate::draw::Draw;
use rec_disk::Disk;
use std::alloc::{AllocError, Global};
use std::io;

/// The paths of all calls.
pub const NAMES: [&str; 7] = ["a", "a.new", "b", "in/a", "c", "in/b", "b.new"];

/// What was said of a file, after how many changes.
#[derive(Drop)]
struct Seen<S> {
    status: S,
    length: u64,
    changes: u64,
}

/// A disk, the files that are open on it, those that were made, what was said of files, and the answers so far, a line
/// for each.
#[derive(Drop)]
pub struct Player<D: Disk> {
    alloc: Global,
    pub disk: D,
    draw: Draw,
    files: Vec<D::File>,
    made: Vec<D::File>,
    seen: Vec<Seen<D::Status>>,
    changes: u64,
    pub text: String,
}

impl<D: Disk + Drop> Player<D> {
    pub fn new(alloc: Global, disk: D, seed: u64) -> Player<D> {
        Player {
            alloc,
            disk,
            draw: Draw::new(seed),
            files: Vec::new(alloc),
            made: Vec::new(alloc),
            seen: Vec::new(alloc),
            changes: 0,
            text: String::new(alloc),
        }
    }

    /// Makes some calls.
    pub fn play(&mut self, count: u64) -> io::Result<()> {
        for _ in 0..count {
            self.step()?;
        }
        Ok(())
    }

    /// Makes a call. The first ones make files.
    fn step(&mut self) -> io::Result<()> {
        if self.changes < 4 {
            return self.make();
        }
        match self.draw.below(32) {
            0..=6 => self.make(),
            7..=9 => self.rename(),
            10 => self.remove(),
            11..=13 => self.open(),
            14 => self.open_to_write(),
            15..=18 => self.read(),
            19..=21 => self.status(),
            22..=23 => self.status_of(),
            24..=26 => self.compare(),
            27 => self.lock(),
            28 => self.share_folder(),
            29 => self.are_one_name(),
            30 => self.sync_folder(),
            _ => self.follow(),
        }
    }

    /// One of the paths, the first ones more often.
    fn name(&mut self) -> &'static str {
        NAMES[self.draw.below(7).min(self.draw.below(7)) as usize]
    }

    /// One of the open files, if there are any.
    fn file(&mut self) -> usize {
        let count = self.files.len() as u64;
        self.draw.below(count.max(1)) as usize
    }

    /// Writes down whether a call was done, and gives what it answered.
    fn tell<T: Drop>(&mut self, answer: io::Result<T>) -> Result<Option<T>, AllocError> {
        match answer {
            Ok(value) => {
                self.text.push_str("done\n")?;
                Ok(Some(value))
            }
            Err(error) => {
                self.tell_error(error.raw_os_error().unwrap_or(0))?;
                Ok(None)
            }
        }
    }

    fn tell_error(&mut self, code: i32) -> Result<(), AllocError> {
        writeln!(self.text, "failed {code}")
    }

    /// Makes a file. Mostly some bytes are written, once; now and then it is looked at before and after that, or synced. It
    /// stays open, and isn't read: on the system it can only be written.
    fn make(&mut self) -> io::Result<()> {
        let path = self.name();
        let length = self.draw.below(24);
        let is_synced = self.draw.below(16) == 0;
        write!(self.text, "make {path}: ")?;
        let answer = self.disk.make(path);
        let Some(file) = self.tell(answer)? else {
            return Ok(());
        };
        self.changes = self.changes.saturating_add(1);
        if length > 20 {
            self.see_file(&file)?;
            self.write(&file, length)?;
            self.see_file(&file)?;
        } else if length > 0 {
            self.write(&file, length)?;
        }
        if is_synced {
            let answer = self.disk.sync(&file);
            self.tell(answer)?;
        }
        self.made.push(file)?;
        Ok(())
    }

    fn write(&mut self, file: &D::File, length: u64) -> io::Result<()> {
        let bytes = letters(self.alloc, &mut self.draw, length)?;
        let answer = self.disk.write(file, &bytes);
        self.tell(answer)?;
        self.changes = self.changes.saturating_add(1);
        Ok(())
    }

    fn see_file(&mut self, file: &D::File) -> io::Result<()> {
        let answer = self.disk.status_of(file);
        if let Some(status) = self.tell(answer)? {
            self.see(status)?;
        }
        Ok(())
    }

    fn rename(&mut self) -> io::Result<()> {
        let (from, to) = (self.name(), self.name());
        write!(self.text, "rename {from} {to}: ")?;
        let answer = self.disk.rename(from, to);
        self.tell(answer)?;
        self.changes = self.changes.saturating_add(1);
        Ok(())
    }

    fn remove(&mut self) -> io::Result<()> {
        let path = self.name();
        write!(self.text, "remove {path}: ")?;
        let answer = self.disk.remove(path);
        self.tell(answer)?;
        self.changes = self.changes.saturating_add(1);
        Ok(())
    }

    fn open(&mut self) -> io::Result<()> {
        let path = self.name();
        write!(self.text, "open {path}: ")?;
        let answer = self.disk.open(path);
        if let Some(file) = self.tell(answer)? {
            self.files.push(file)?;
        }
        Ok(())
    }

    fn open_to_write(&mut self) -> io::Result<()> {
        let path = self.name();
        write!(self.text, "open_to_write {path}: ")?;
        let answer = self.disk.open_to_write(path);
        if let Some(file) = self.tell(answer)? {
            self.files.push(file)?;
        }
        Ok(())
    }

    /// One of the open files is read, also one that was renamed or removed.
    fn read(&mut self) -> io::Result<()> {
        let (place, limit) = (self.file(), self.draw.below(32));
        let Some(file) = self.files.get(place) else {
            return Ok(());
        };
        let answer = self.disk.read(self.alloc, file, limit);
        write!(self.text, "read {place} {limit}: ")?;
        if let Some(bytes) = self.tell(answer)? {
            write_letters(&mut self.text, &bytes)?;
        }
        Ok(())
    }

    /// The file is opened too, and stays open, so that no file that is made later is taken for it.
    fn status(&mut self) -> io::Result<()> {
        let path = self.name();
        write!(self.text, "status {path}: ")?;
        let answer = self.disk.open(path);
        if let Some(file) = self.tell(answer)? {
            self.files.push(file)?;
        }
        let answer = self.disk.status(path);
        if let Some(status) = self.tell(answer)? {
            let (is_link, names) = (D::is_link(&status), D::names(&status));
            write!(self.text, "{is_link} {names} ")?;
            self.see(status)?;
        }
        Ok(())
    }

    fn status_of(&mut self) -> io::Result<()> {
        let place = self.file();
        let Some(file) = self.files.get(place) else {
            return Ok(());
        };
        let answer = self.disk.status_of(file);
        write!(self.text, "status_of {place}: ")?;
        if let Some(status) = self.tell(answer)? {
            self.see(status)?;
        }
        Ok(())
    }

    fn see(&mut self, status: D::Status) -> Result<(), AllocError> {
        let (is_regular, length) = (D::is_regular(&status), D::length(&status));
        writeln!(self.text, "{is_regular} {length}")?;
        self.seen.push(Seen {
            status,
            length,
            changes: self.changes,
        })?;
        Ok(())
    }

    /// The last look is compared with one before it. The system has one time for all that happens within a tick of its
    /// clock, and a rename changes the times of a file too. So whether a file is unchanged is asked only where that can't
    /// matter: between the two nothing was changed, or it has another length, or it is another file.
    fn compare(&mut self) -> io::Result<()> {
        let Some((second, before)) = self.seen.split_last() else {
            return Ok(());
        };
        let one = self.draw.below((before.len() as u64).max(1)) as usize;
        let Some(first) = before.get(one) else {
            return Ok(());
        };
        let are_one = D::are_one(&first.status, &second.status);
        writeln!(self.text, "are_one {one}: {are_one}")?;
        if !are_one || first.length != second.length || first.changes == second.changes {
            let is_unchanged = D::is_unchanged(&first.status, &second.status);
            writeln!(self.text, "is_unchanged {one}: {is_unchanged}")?;
        }
        Ok(())
    }

    /// A file is opened anew and locked until it is closed.
    fn lock(&mut self) -> io::Result<()> {
        let path = self.name();
        write!(self.text, "lock {path}: ")?;
        let answer = self.disk.open(path);
        if let Some(file) = self.tell(answer)? {
            let answer = self.disk.lock(&file);
            self.tell_bool(answer)?;
        }
        Ok(())
    }

    fn tell_bool(&mut self, answer: io::Result<bool>) -> Result<(), AllocError> {
        match self.tell(answer)? {
            Some(answer) => writeln!(self.text, "{answer}"),
            None => Ok(()),
        }
    }

    fn share_folder(&mut self) -> io::Result<()> {
        let (first, second) = (self.name(), self.name());
        write!(self.text, "share_folder {first} {second}: ")?;
        let answer = self.disk.share_folder(first, second);
        Ok(self.tell_bool(answer)?)
    }

    fn are_one_name(&mut self) -> io::Result<()> {
        let (first, second) = (self.name(), self.name());
        write!(self.text, "are_one_name {first} {second}: ")?;
        let answer = self.disk.are_one_name(first, second);
        Ok(self.tell_bool(answer)?)
    }

    fn sync_folder(&mut self) -> io::Result<()> {
        let path = self.name();
        write!(self.text, "sync_folder {path}: ")?;
        let answer = self.disk.sync_folder(path);
        Ok(self.tell_bool(answer)?)
    }

    fn follow(&mut self) -> io::Result<()> {
        let path = self.name();
        write!(self.text, "follow {path}: ")?;
        let answer = self.disk.follow(self.alloc, path);
        self.tell(answer)?;
        Ok(())
    }

    /// Writes down what stands at each path.
    pub fn list(&mut self) -> io::Result<()> {
        for path in NAMES {
            self.list_one(path)?;
        }
        Ok(())
    }

    fn list_one(&mut self, path: &str) -> io::Result<()> {
        write!(self.text, "at {path}: ")?;
        let answer = self.disk.open(path);
        if let Some(file) = self.tell(answer)? {
            let answer = self.disk.read(self.alloc, &file, 100);
            if let Some(bytes) = self.tell(answer)? {
                write_letters(&mut self.text, &bytes)?;
            }
        }
        Ok(())
    }

    /// Removes all files.
    pub fn clear(&mut self) {
        for path in NAMES {
            let _ = self.disk.remove(path);
        }
    }
}

/// Some drawn letters.
fn letters(alloc: Global, draw: &mut Draw, length: u64) -> Result<Vec<u8>, AllocError> {
    let mut bytes = Vec::new(alloc);
    for _ in 0..length {
        bytes.push(b'a' + draw.below(26) as u8)?;
    }
    Ok(bytes)
}

fn write_letters(text: &mut String, bytes: &[u8]) -> Result<(), AllocError> {
    for byte in bytes {
        text.push(char::from(*byte))?;
    }
    text.push('\n')
}
