//! Standard output.
ghost use Rattle.std.specs.Prelude.{◌≡◌, ◌≢◌, ◌↔◌, ◌<◌, ◌≤◌, [], Some, IfOk, IsSomeAnd, IsTrue, OnOk, IsOkUnless};
ghost use Rattle.std.specs.IoError.{error_kind};
ghost use Rattle.std.specs.Io.Buffered.{writer_buffer, writer_capacity, writer_contents, writer_inner};
ghost use Rattle.std.specs.Io.KnownBytes.{Keeps};
ghost use Rattle.rec_text.specs.Sink.{KeptAtSuccess, RisenAtStoreFailed, one_more};

use crate::access::Access;
use rec_tools::{Fault, Sink};
use std::alloc::Global;
use std::io;
use std::io::{BufWriter, Error, ErrorKind, Write};

/// Output goes out in pieces of this size.
const PIECE: usize = 65_536;

/// How many bytes of output are held for a request. One that may edit prints nothing, and needs no memory for it.
pub fn room_for(access: Access) -> usize
    ensures look { access ≡ Access.Look → result ≡ PIECE }
    ensures change { access ≢ Access.Look → result ≡ 0 }
{
    match access {
        Access::Look => PIECE,
        Access::Change => 0,
    }
}

/// Standard output, in pieces. It keeps its last failure, for `explain`.
#[derive(Drop)]
pub struct StandardOutput<W: Write + Drop> {
    writer: BufWriter<W>,
    failed: u64,
    failure: Option<Error>,
}

impl<W: Write + Drop> StandardOutput<W> {
    /// It holds at most `room` bytes; where that is 0, each write goes out at once.
    pub fn new(alloc: Global, room: usize, writer: W) -> io::Result<StandardOutput<W>>
        ensures writer { IfOk result (λ output. writer_inner output.writer ≡ writer) }
        ensures empty { IfOk result (λ output. writer_buffer output.writer ≡ []) }
        ensures room { IfOk result (λ output. writer_capacity output.writer ≡ room) }
        ensures sound { IfOk result (λ output. output.failed ≡ 0) }
    {
        Ok(StandardOutput {
            writer: BufWriter::with_capacity(alloc, room, writer)?,
            failed: 0,
            failure: None,
        })
    }

    /// Lets out what is still held.
    pub fn finish(&mut self) -> Result<(), Fault>
        ensures let_out { OnOk result (writer_buffer self.new.writer ≡ []) }
        ensures bytes { Keeps (writer_contents W.contents self.old.writer)
            (writer_contents W.contents self.new.writer) }
        ensures kept { KeptAtSuccess self.old.failed self.new.failed result }
        ensures store_failed { RisenAtStoreFailed self.old.failed self.new.failed result }
        ensures refusals { IsOkUnless result Fault.StoreFailed }
    {
        match self.writer.flush() {
            Ok(()) => Ok(()),
            Err(error) => Err(self.fail(error)),
        }
    }

    /// Whether it failed last because nobody reads its pipe any more.
    pub fn has_lost_reader(&self) -> bool
        ensures { IsTrue result ↔ IsSomeAnd self.now.failure (λ error. error_kind error ≡ ErrorKind.BrokenPipe) }
    {
        match &self.failure {
            Some(error) => error.kind() == ErrorKind::BrokenPipe,
            None => false,
        }
    }

    /// Says on standard error why it failed.
    pub fn explain(&self, err: &impl Eprint) -> io::Result<()> {
        match self.failure {
            Some(error) => explain_output(err, error),
            None => Ok(()),
        }
    }

    fn fail(&mut self, error: Error) -> Fault
        ensures fault { result ≡ Fault.StoreFailed }
        ensures counted { self.old.failed ≤ self.new.failed }
        ensures once { self.new.failed ≡ one_more self.old.failed }
        ensures noted { self.new.failure ≡ Some error }
        ensures unchanged { self.new.writer ≡ self.old.writer }
    {
        self.failed = self.failed.saturating_add(1);
        self.failure = Some(error);
        Fault::StoreFailed
    }
}

impl<W: Write + Drop> Sink for StandardOutput<W> {
    ghost contents = { λ output. writer_contents W.contents output.writer };

    ghost failure_count = { λ output. output.failed };

    fn write(&mut self, bytes: &[u8]) -> Result<usize, Fault> {
        // At most what the buffer holds, so that nothing goes past it: it tries an interrupted write again.
        let piece = &bytes[..bytes.len().min(PIECE - 1)];
        match self.writer.write(piece) {
            Ok(0) if !bytes.is_empty() => Err(self.fail(none_taken())),
            Ok(taken) => Ok(taken),
            Err(error) => Err(self.fail(error)),
        }
    }

    fn failures(&self) -> u64 {
        self.failed
    }
}

fn none_taken() -> Error {
    Error::other("failed to write whole buffer")
}

/// Says on standard error why standard output failed. A reader that closed its pipe knows why.
pub fn explain_output(err: &impl Eprint, error: Error) -> io::Result<()> {
    if error.kind() == ErrorKind::BrokenPipe {
        return Ok(());
    }
    eprintln!(err; "standard output: {error}")
}
