//! Where a file and its journal are kept.
ghost use Rattle.std.specs.Prelude.{◌≡◌, ℕ, Option, Some, IfSome, IsOkUnless, option_copied};
ghost use Rattle.rec_text.specs.Faults.{IsOkUnlessEither};
ghost use Rattle.rec_tools.specs.Home.{Contents, writes_by, Call, left_by, TellsOf, CountsFailure, read_call, IsPutCall};

use rec_text::{Bytes, Fault};
use std::alloc::Global;

/// One of the two contents.
#[derive(Clone, Copy)]
pub enum Which {
    /// The rec file.
    Base,
    /// The journal of its edits.
    Journal,
}

/// Keeps a file and its journal, and tells its calls. A journal that doesn't exist reads as empty.
pub trait Home {
    /// The two contents, where the home tells them.
    ghost contents: { Self → Option Contents };

    /// How often the home failed; at the greatest number it stays.
    ghost failure_count: { Self → ℕ };

    /// By this call the one home becomes the other.
    ghost goes: { Self → Call → Self → Type 0 };

    /// The bytes of a content. Nothing is changed.
    fn read(&mut self, alloc: Global, which: Which) -> Result<Bytes, Fault>
        ensures call { goes self.old (read_call which result) self.new }
        ensures refusals { IsOkUnlessEither result Fault.OutOfMemory Fault.StoreFailed };

    /// Puts the journal in place and then, where one is given, the file. A failure leaves the first of them in place: none,
    /// one or both.
    fn put(&mut self, journal: &[u8], file: Option<&[u8]>) -> Result<(), Fault>
        ensures call { (call : Call) × IsPutCall (writes_by journal.now (option_copied file.entry)) result call
            × goes self.old call self.new }
        ensures refusals { IsOkUnless result Fault.StoreFailed };

    /// How often the home failed.
    fn failures(&self) -> u64
        ensures { result ≡ failure_count self.now };

    /// What a call reads is what stands there, and what stands there afterwards is what the call leaves.
    ghost follows: { (old new : Self) (call : Call) → goes old call new
        → IfSome (contents old) (λ c. TellsOf c call × (contents new ≡ Some (left_by c call))) };

    /// A failure counts one, and any other call none.
    ghost counts: { (old new : Self) (call : Call) → goes old call new
        → CountsFailure (failure_count old) call (failure_count new) };
}
