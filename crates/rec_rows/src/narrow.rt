//! A writer that may take a prefix alone.
use std::io;
use std::io::Write;

/// Takes n bytes, three at most in a call, and then none.
#[derive(Drop)]
pub struct Narrow {
    pub taken: Vec<u8>,
    pub room: usize,
}

impl Write for Narrow {
    fn write(&mut self, bytes: &[u8]) -> io::Result<usize> {
        let len = bytes.len().min(self.room).min(3);
        self.taken.extend_from_slice(&bytes[..len])?;
        self.room -= len;
        Ok(len)
    }

    fn flush(&mut self) -> io::Result<()> {
        Ok(())
    }
}
