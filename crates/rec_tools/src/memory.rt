//! A home in memory, some of whose calls fail.
ghost use Rattle.std.specs.Prelude.{◌≡◌, ◌+◌, ◌-◌, ◌^◌, min, [], ◌∷◌, ◌++◌, take, Some, IfSome, OnOk, OnErr, MatchOption, MatchResult, is_some, option_copied};
ghost use Rattle.std.proofs.Common.{ap};
ghost use Rattle.rec_tools.specs.Home.{CountsOne, content_of, with_content, writes_by, written};
ghost use Rattle.rec_tools.specs.Memory.{writes_left, held, IsCut, IsCall};

use crate::home::{Home, Which};
use rec_text::{Bytes, Fault};
use std::alloc::{AllocError, Global};

/// A call that fails, by its number: calls are counted from 0, reads and puts alike.
#[derive(Clone, Copy)]
pub struct Failing {
    pub call: u64,
    /// How many writes of a put are made all the same.
    pub left: usize,
}

/// A file and a journal in memory.
#[derive(Drop)]
pub struct MemoryHome {
    pub file: Bytes,
    pub journal: Bytes,
    pub faults: Vec<Failing>,
    pub calls: u64,
    pub failed: u64,
    /// How often a put found no memory for a copy.
    pub refused: u64,
    pub alloc: Global,
}

/// How many writes the call of this number leaves, if it fails.
fn left_at(faults: &[Failing], call: u64) -> Option<usize>
    ensures { result ≡ writes_left faults.now call }
{
    for failing in faults {
        if failing.call == call {
            return Some(failing.left);
        }
    }
    None
}

impl MemoryHome {
    /// A home with these contents, none of whose calls fails.
    pub fn new(alloc: Global, file: Bytes, journal: Bytes) -> MemoryHome
        ensures contents { held result ≡ record { file = file; journal = journal } }
        ensures faults { result.faults.items ≡ [] }
        ensures calls { result.calls ≡ 0 }
        ensures failed { result.failed ≡ 0 }
        ensures refused { result.refused ≡ 0 }
    {
        MemoryHome {
            file,
            journal,
            faults: Vec::new(alloc),
            calls: 0,
            failed: 0,
            refused: 0,
            alloc,
        }
    }

    /// Lets the call of this number fail, and leave this number of its writes, unless another fault was given for it before.
    pub fn fail(&mut self, call: u64, left: usize) -> Result<(), AllocError>
        ensures added { OnOk result
            (self.new.faults.items ≡ self.old.faults.items ++ record { call = call; left = left } ∷ []) }
        ensures unchanged { OnErr result (self.new.faults.items ≡ self.old.faults.items) }
        ensures contents { held self.new ≡ held self.old }
        ensures calls { self.new.calls ≡ self.old.calls }
        ensures failed { self.new.failed ≡ self.old.failed }
        ensures refused { self.new.refused ≡ self.old.refused }
    {
        self.faults.push(Failing { call, left })?;
        Ok(())
    }

    /// The bytes of the file.
    pub fn file(&self) -> &[u8]
        ensures { result.now ≡ self.now.file }
    {
        self.file.as_slice()
    }

    /// The bytes of the journal.
    pub fn journal(&self) -> &[u8]
        ensures { result.now ≡ self.now.journal }
    {
        self.journal.as_slice()
    }

    fn content(&self, which: Which) -> &[u8]
        ensures { result.now ≡ content_of (held self.now) which }
    {
        match which {
            Which::Base => self.file(),
            Which::Journal => self.journal(),
        }
    }

    /// Counts a call, and a failure where the call fails.
    fn next_fault(&mut self) -> Option<usize>
        ensures left { result ≡ writes_left self.old.faults.items self.old.calls }
        ensures contents { held self.new ≡ held self.old }
        ensures numbered { self.new.calls ≡ min (self.old.calls + 1) (2 ^ 64 - 1) }
        ensures faults { self.new.faults.items ≡ self.old.faults.items }
        ensures counted { MatchOption result
            (self.new.failed ≡ self.old.failed) (λ _. CountsOne self.old.failed self.new.failed) }
        ensures refused { self.new.refused ≡ self.old.refused }
    {
        let left = left_at(&self.faults, self.calls);
        self.calls = self.calls.saturating_add(1);
        if left.is_some() {
            self.failed = self.failed.saturating_add(1);
        }
        left
    }

    /// Puts a copy of these bytes instead of a content. Where memory is refused, the old one stays, and that is counted.
    fn write(&mut self, which: Which, bytes: &[u8]) -> Result<(), AllocError>
        ensures written { OnOk result (held self.new ≡ with_content (held self.old) which bytes.now) }
        ensures old { OnErr result (held self.new ≡ held self.old) }
        ensures numbered { self.new.calls ≡ self.old.calls }
        ensures faults { self.new.faults.items ≡ self.old.faults.items }
        ensures failed { self.new.failed ≡ self.old.failed }
        ensures refused { MatchResult result
            (λ _. self.new.refused ≡ self.old.refused) (λ _. CountsOne self.old.refused self.new.refused) }
    {
        let copy = match Bytes::copy_of(self.alloc, bytes) {
            Ok(copy) => copy,
            Err(refusal) => {
                self.refused = self.refused.saturating_add(1);
                return Err(refusal);
            }
        };
        match which {
            Which::Base => self.file = copy,
            Which::Journal => self.journal = copy,
        }
        Ok(())
    }

    /// Puts copies of the journal and then, where one is given, the file, but not more than `most` of the two. Where memory is
    /// refused, what was put before it stays.
    fn put_first(
        &mut self,
        most: usize,
        journal: &[u8],
        file: Option<&[u8]>,
    ) -> Result<(), AllocError>
        ensures put { OnOk result (held self.new
            ≡ written (held self.old) (take most (writes_by journal.now (option_copied file.entry)))) }
        ensures cut { OnErr result
            (IsCut (held self.old) most (writes_by journal.now (option_copied file.entry)) (held self.new)) }
        ensures numbered { self.new.calls ≡ self.old.calls }
        ensures faults { self.new.faults.items ≡ self.old.faults.items }
        ensures failed { self.new.failed ≡ self.old.failed }
        ensures refused { MatchResult result
            (λ _. self.new.refused ≡ self.old.refused) (λ _. CountsOne self.old.refused self.new.refused) }
    {
        if most == 0 {
            return Ok(());
        }
        self.write(Which::Journal, journal)?;
        let Some(file) = file else {
            return Ok(());
        };
        if most == 1 {
            return Ok(());
        }
        self.write(Which::Base, file)
    }
}

impl Home for MemoryHome {
    ghost contents = { λ home. Some (held home) };

    ghost failure_count = { λ home. home.failed };

    ghost goes = { IsCall };

    ghost follows = { λ old new call h. (h.tells, ap Some h.left) };

    ghost counts = { λ old new call h. h.counts };

    fn read(&mut self, alloc: Global, which: Which) -> Result<Bytes, Fault> {
        if self.next_fault().is_some() {
            return Err(Fault::StoreFailed);
        }
        Ok(Bytes::copy_of(alloc, self.content(which))?)
    }

    fn put(&mut self, journal: &[u8], file: Option<&[u8]>) -> Result<(), Fault> {
        match self.next_fault() {
            Some(left) => {
                let _ = self.put_first(left, journal, file);
                Err(Fault::StoreFailed)
            }
            None => match self.put_first(2, journal, file) {
                Ok(()) => Ok(()),
                Err(_) => {
                    self.failed = self.failed.saturating_add(1);
                    Err(Fault::StoreFailed)
                }
            },
        }
    }

    fn failures(&self) -> u64 {
        self.failed
    }
}
