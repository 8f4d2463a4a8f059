//! A writer that takes little at once and fails.

use std::alloc::Global;
use std::io;
use std::io::{ErrorKind, Write};

/// A writer that takes at most so many bytes a call, and fails from a call on; flushes count too.
#[derive(Drop)]
pub struct Narrow {
    /// What it has taken.
    pub bytes: Vec<u8>,
    /// How many bytes it takes at once.
    pub most: usize,
    /// How many calls are left until one fails.
    pub calls_left: u64,
    /// How many of the bytes were flushed.
    pub flushed: usize,
}

impl Narrow {
    ghost use Rattle.std.specs.Prelude.{◌≡◌, []};

    /// A writer that has taken nothing. Takes no memory.
    pub fn new(alloc: Global, most: usize, calls_left: u64) -> Narrow
        ensures nothing { result.bytes.items ≡ [] }
        ensures flushed { result.flushed ≡ 0 }
        ensures most { result.most ≡ most }
        ensures calls { result.calls_left ≡ calls_left }
    {
        Narrow {
            bytes: Vec::new(alloc),
            most,
            calls_left,
            flushed: 0,
        }
    }
}

impl Write for Narrow {
    fn write(&mut self, bytes: &[u8]) -> io::Result<usize> {
        if self.calls_left == 0 {
            return Err(io::Error::from(ErrorKind::BrokenPipe));
        }
        self.calls_left -= 1;
        let count = bytes.len().min(self.most);
        self.bytes.extend_from_slice(&bytes[..count])?;
        Ok(count)
    }

    fn flush(&mut self) -> io::Result<()> {
        if self.calls_left == 0 {
            return Err(io::Error::from(ErrorKind::BrokenPipe));
        }
        self.calls_left -= 1;
        self.flushed = self.bytes.len();
        Ok(())
    }
}
