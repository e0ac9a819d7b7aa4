//! A fault, and what it is about.
use crate::fault::Fault;
use crate::reason::Reason;
use std::alloc::{AllocError, AllocFailed, Global};
use std::marker::Model;

/// The text whose lines a fault names, of those that a request reads.
#[derive(Clone, Copy)]
pub enum Origin {
    /// That of the file.
    File,
    /// The text before a change by hand.
    Old,
    /// The text that is to be written.
    New,
    /// The three of a merge.
    Base,
    Ours,
    Theirs,
}

/// Why a request is refused, and what that is about, as far as there was memory to tell it. Contracts see the fault alone.
#[derive(Drop)]
pub struct Refusal {
    fault: Fault,
    about: Option<Box<Reason>>,
    /// The index of the edit of a batch that is refused.
    edit: Option<usize>,
    origin: Origin,
}

impl Model for Refusal {
    ghost use Rattle.rec_text.specs.declared.fault.Fault.{Fault};

    ghost Value = { Fault };

    ghost view = { λ refusal. refusal.fault };
}

impl Refusal {
    ghost use Rattle.std.specs.Prelude.{◌≡◌};

    /// A fault of which no more is said.
    fn bare(fault: Fault) -> Refusal
        ensures { result ≡ fault }
    {
        Refusal {
            fault,
            about: None,
            edit: None,
            origin: Origin::File,
        }
    }

    /// The refusal of a text that can't be read, with the line that its fault names.
    pub fn unread(alloc: Global, text: &[u8], fault: Fault) -> Refusal
        ensures { result ≡ fault }
    {
        let reason = Reason::of_unread(alloc, text, &fault);
        Refusal::from(fault).about(alloc, reason)
    }

    /// The same refusal, with what it is about; where memory runs out, that isn't said.
    pub fn about(self, alloc: Global, reason: Option<Reason>) -> Refusal
        ensures { result ≡ self }
    {
        match reason {
            Some(reason) => Refusal {
                about: Box::new(alloc, reason).ok(),
                ..self
            },
            None => self,
        }
    }

    /// The same refusal, as one of the edit at this index of a batch, if it is of one.
    pub fn of_edit(self, index: Option<usize>) -> Refusal
        ensures { result ≡ self }
    {
        Refusal {
            edit: index,
            ..self
        }
    }

    /// The same refusal, as one of another text than that of the file.
    pub fn of_text(self, origin: Origin) -> Refusal
        ensures { result ≡ self }
    {
        Refusal { origin, ..self }
    }

    /// The same, for another fault.
    pub fn with_fault(self, fault: Fault) -> Refusal
        ensures { result ≡ fault }
    {
        Refusal { fault, ..self }
    }

    pub fn fault(&self) -> &Fault
        ensures { result.now ≡ self.now }
    {
        &self.fault
    }

    /// What it is about. Contracts don't see that.
    pub fn reason(&self) -> Option<&Reason> {
        match &self.about {
            Some(about) => Some(about),
            None => None,
        }
    }

    /// The index of the edit of a batch that is refused.
    pub fn edit(&self) -> Option<usize> {
        self.edit
    }

    /// The text whose lines the fault names.
    pub fn origin(&self) -> Origin {
        self.origin
    }
}

impl From<Fault> for Refusal {
    ghost use Rattle.std.specs.Prelude.{◌≡◌};

    ghost from_gives = { λ fault refusal. refusal ≡ fault };

    fn from(fault: Fault) -> Refusal {
        Refusal::bare(fault)
    }
}

impl From<AllocError> for Refusal {
    ghost use Rattle.std.specs.Prelude.{◌≡◌};
    ghost use Rattle.rec_text.specs.declared.fault.Fault.TheVariants.{OutOfMemory};

    ghost from_gives = { λ _ refusal. refusal ≡ OutOfMemory };

    fn from(_error: AllocError) -> Refusal {
        Refusal::bare(Fault::OutOfMemory)
    }
}

impl<T: Drop> From<AllocFailed<T>> for Refusal {
    ghost use Rattle.std.specs.Prelude.{◌≡◌};
    ghost use Rattle.rec_text.specs.declared.fault.Fault.TheVariants.{OutOfMemory};

    ghost from_gives = { λ _ refusal. refusal ≡ OutOfMemory };

    fn from(_error: AllocFailed<T>) -> Refusal {
        Refusal::bare(Fault::OutOfMemory)
    }
}

impl From<Refusal> for Fault {
    ghost use Rattle.std.specs.Prelude.{◌≡◌};

    ghost from_gives = { λ refusal fault. fault ≡ refusal };

    fn from(refusal: Refusal) -> Fault {
        refusal.fault
    }
}
