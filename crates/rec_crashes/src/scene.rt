//! A file and its journal on a disk in memory, and requests on them.
use crate::paths::Paths;
use crate::requests::{TEXT, first_text, next_edit, request, saved_before};
use crate::story::Story;
use rec_disk::{Disk, MemoryDisk, MemoryFile};
use rec_files::{Access, DiskHome, run};
use rec_tools::{Bytes, Change, DiffStyle, Look, Output, Request};
use std::alloc::{AllocError, Global};
use std::io::Error;
use std::{io, mem};

/// What stands before or after a request.
#[derive(Drop)]
pub struct State {
    file: Option<Vec<u8>>,
    journal: Option<Vec<u8>>,
    /// The edits that can be undone and redone, with what each of them changed, as they are printed.
    edits: Vec<u8>,
    /// The text to which undo of all leads.
    first: &'static str,
}

impl State {
    fn new(alloc: Global) -> State {
        State {
            file: None,
            journal: None,
            edits: Vec::new(alloc),
            first: TEXT,
        }
    }
}

/// A disk, and what stood on it before and after a request.
#[derive(Drop)]
pub struct Scene<'r> {
    pub rt: &'r HostRuntime,
    pub paths: Paths,
    pub disk: MemoryDisk,
    /// What the last request printed.
    out: Output<Vec<u8>>,
    /// The request that is looked at.
    number: usize,
    /// What was there at this moment is there for good.
    start: usize,
    before: State,
    after: State,
    /// After an edit that followed a request that was stopped.
    next: Option<State>,
}

impl<'r> Scene<'r> {
    /// An empty disk.
    pub fn new(rt: &'r HostRuntime, paths: Paths) -> Scene<'r> {
        let alloc = rt.alloc();
        Scene {
            rt,
            paths,
            disk: MemoryDisk::new(alloc),
            out: Output {
                writer: Vec::new(alloc),
                failed: 0,
            },
            number: 0,
            start: 0,
            before: State::new(alloc),
            after: State::new(alloc),
            next: None,
        }
    }

    /// Empties the disk.
    pub fn clear(&mut self) {
        self.disk.log.clear();
        self.disk.faults.clear();
        self.disk.calls = 0;
    }

    /// Lets the first text stand before the first request.
    pub fn put_first(&mut self) -> io::Result<()> {
        self.clear();
        keep(&mut self.disk, self.paths.file, TEXT.as_bytes())?;
        self.before = self.see(TEXT)?;
        Ok(())
    }

    /// Lays what stood before the request on an empty disk, for good.
    pub fn begin(&mut self) -> io::Result<()> {
        self.clear();
        keep_any(&mut self.disk, self.paths.file, &self.before.file)?;
        keep_any(&mut self.disk, self.paths.journal, &self.before.journal)?;
        self.start = self.disk.log.len();
        Ok(())
    }

    /// Makes the request after what stood before it, and tells what it did.
    pub fn learn(&mut self, number: usize) -> io::Result<Story> {
        self.number = number;
        self.begin()?;
        self.make(number)?;
        self.next = None;
        self.after = self.see(first_text(number.saturating_add(1)))?;
        let begun = self.start;
        Ok(self.take_story(begun))
    }

    /// Makes the same request after files of which nothing was synced, as another program saves them, and tells what it did.
    pub fn learn_unsynced(&mut self) -> io::Result<Story> {
        self.clear();
        save_any(&mut self.disk, self.paths.file, &self.before.file)?;
        save_any(&mut self.disk, self.paths.journal, &self.before.journal)?;
        self.start = 0;
        let begun = self.disk.log.len();
        self.make(self.number)?;
        Ok(self.take_story(begun))
    }

    /// Makes the next edit after a request that was stopped, and tells what it did.
    pub fn learn_next(&mut self) -> io::Result<Story> {
        self.next = None;
        let first = self.check_stands()?;
        let begun = self.disk.log.len();
        self.make_next()?;
        self.next = Some(self.see(first)?);
        Ok(self.take_story(begun))
    }

    /// What was done to the disk, which is empty after it.
    fn take_story(&mut self, begun: usize) -> Story {
        Story {
            log: mem::replace(&mut self.disk.log, Vec::new(self.rt.alloc())),
            start: self.start,
            begun,
            paths: self.paths,
        }
    }

    /// Goes on to the next request: what stood after the last one stands before it, or what another program saved then.
    pub fn go_on(&mut self) -> io::Result<()> {
        self.before = mem::replace(&mut self.after, State::new(self.rt.alloc()));
        match saved_before(self.number.saturating_add(1)) {
            Some(text) => self.save_outside(text),
            None => Ok(()),
        }
    }

    /// Lets another program save a text, to which undo of all leads then.
    fn save_outside(&mut self, text: &'static str) -> io::Result<()> {
        let saved = Vec::from_slice(self.rt.alloc(), text.as_bytes())?;
        self.before.file = Some(saved);
        self.begin()?;
        self.before = self.see(text)?;
        Ok(())
    }

    /// Runs a request, and says whether it was made.
    fn run(&mut self, request: &Request, access: Access) -> io::Result<bool> {
        let alloc = self.rt.alloc();
        let file = String::from_str(alloc, self.paths.file)?;
        let journal = String::from_str(alloc, self.paths.journal)?;
        let disk = mem::replace(&mut self.disk, MemoryDisk::new(alloc));
        let mut home = DiskHome::new(self.rt, disk, None, Some(file), Some(journal), access);
        self.out.writer.clear();
        let is_made = run(alloc, &mut home, &mut self.out, request).is_ok();
        self.disk = home.into_disk();
        Ok(is_made)
    }

    /// Runs the request of a number, and says whether it was made.
    pub fn try_make(&mut self, number: usize) -> io::Result<bool> {
        let request = request(self.rt.alloc(), number)?;
        self.run(&request, Access::Change)
    }

    /// Runs the request of a number, which is to be made.
    fn make(&mut self, number: usize) -> io::Result<()> {
        let is_made = self.try_make(number)?;
        self.expect(is_made)
    }

    /// Makes the next edit, which is to be made.
    fn make_next(&mut self) -> io::Result<()> {
        let edit = next_edit(self.rt.alloc())?;
        let is_made = self.run(&edit, Access::Change)?;
        self.expect(is_made)
    }

    fn expect(&self, is_made: bool) -> io::Result<()> {
        if is_made {
            Ok(())
        } else {
            Err(self.told("a request is refused"))
        }
    }

    fn undo(&mut self) -> io::Result<bool> {
        self.run(&Request::Change(Change::Undo(None)), Access::Change)
    }

    fn undo_all(&mut self) -> io::Result<()> {
        for _ in 0..20 {
            if !self.undo()? {
                break;
            }
        }
        Ok(())
    }

    /// Prints the edits, without a lock, and says whether the journal could be read.
    fn look(&mut self) -> io::Result<bool> {
        let style = DiffStyle {
            name: Bytes::from_vec(Vec::new(self.rt.alloc())),
            context: 0,
        };
        self.run(&Request::Look(Look::Log(style)), Access::Look)
    }

    /// What stands on the disk.
    fn see(&mut self, first: &'static str) -> io::Result<State> {
        if !self.look()? {
            return Err(self.told("the journal can't be read"));
        }
        Ok(State {
            file: self.copy_at(self.paths.file)?,
            journal: self.copy_at(self.paths.journal)?,
            edits: Vec::from_slice(self.rt.alloc(), &self.out.writer)?,
            first,
        })
    }

    fn copy_at(&self, path: &str) -> Result<Option<Vec<u8>>, AllocError> {
        match self.disk.bytes_at(path) {
            Some(bytes) => Ok(Some(Vec::from_slice(self.rt.alloc(), bytes)?)),
            None => Ok(None),
        }
    }

    /// Whether the file holds the state's text, and what was printed are its edits.
    fn is_seen(&self, state: &State) -> bool {
        self.disk.bytes_at(self.paths.file) == state.file.as_deref()
            && self.out.writer.as_slice() == state.edits.as_slice()
    }

    /// Checks that the state before the request stands, or the one after it or after the next edit, and gives the text to
    /// which undo of all leads from it.
    pub fn check_stands(&mut self) -> io::Result<&'static str> {
        if !self.look()? {
            Err(self.told("the journal can't be read"))
        } else if self.is_seen(&self.before) {
            Ok(self.before.first)
        } else if self.is_seen(&self.after) {
            Ok(self.after.first)
        } else if let Some(next) = &self.next
            && self.is_seen(next)
        {
            Ok(next.first)
        } else {
            Err(self.told("neither the state before nor the one after"))
        }
    }

    /// Checks that the state after the request stands.
    pub fn check_made(&mut self) -> io::Result<()> {
        if self.look()? && self.is_seen(&self.after) {
            Ok(())
        } else {
            Err(self.told("a request that was made is lost"))
        }
    }

    /// Checks besides that the next edit is made, whatever lies under the working names, and that undo of all leads to the
    /// first text.
    pub fn check_goes_on(&mut self) -> io::Result<()> {
        let first = self.check_stands()?;
        self.make_next()?;
        self.undo_all()?;
        if self.disk.bytes_at(self.paths.file) == Some(first.as_bytes()) {
            Ok(())
        } else {
            Err(self.told("edits are lost"))
        }
    }

    /// What went wrong, which is printed.
    fn told(&self, what: &str) -> Error {
        let _ = println!(self.rt; "request {}, {}: {what}", self.number, self.paths.file);
        Error::other("a request went wrong")
    }
}

/// Makes a file of these bytes.
fn save(disk: &mut MemoryDisk, path: &str, bytes: &[u8]) -> io::Result<MemoryFile> {
    let file = disk.make(path)?;
    disk.write(&file, bytes)?;
    Ok(file)
}

/// Makes a file, where there was one.
fn save_any(disk: &mut MemoryDisk, path: &str, bytes: &Option<Vec<u8>>) -> io::Result<()> {
    if let Some(bytes) = bytes {
        save(disk, path, bytes)?;
    }
    Ok(())
}

/// Makes a file of these bytes, which is there for good.
pub fn keep(disk: &mut MemoryDisk, path: &str, bytes: &[u8]) -> io::Result<()> {
    let file = save(disk, path, bytes)?;
    disk.sync(&file)?;
    disk.sync_folder(path)?;
    Ok(())
}

/// Makes it for good, where there was one.
fn keep_any(disk: &mut MemoryDisk, path: &str, bytes: &Option<Vec<u8>>) -> io::Result<()> {
    match bytes {
        Some(bytes) => keep(disk, path, bytes),
        None => Ok(()),
    }
}
