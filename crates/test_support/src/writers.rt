//! A writer that fails.
use std::alloc::Global;
use std::io;
use std::io::{ErrorKind, Write};

/// A writer that takes a few bytes at a time, and fails once its good writes are used up, or at each flush.
#[derive(Drop)]
pub struct FailingWriter {
    /// The bytes that were taken.
    pub text: Vec<u8>,
    step: usize,
    good_writes: usize,
    flushes: bool,
}

impl FailingWriter {
    /// Makes a writer that takes at most `step` bytes in each write, fails after `good_writes` writes, and
    /// can be flushed or not.
    pub fn new(alloc: Global, step: usize, good_writes: usize, flushes: bool) -> FailingWriter {
        FailingWriter {
            text: Vec::new(alloc),
            step,
            good_writes,
            flushes,
        }
    }
}

impl Write for FailingWriter {
    fn write(&mut self, buf: &[u8]) -> io::Result<usize> {
        if self.good_writes == 0 {
            return Err(io::Error::from(ErrorKind::Other));
        }
        self.good_writes -= 1;
        let count = self.step.min(buf.len());
        self.text.extend_from_slice(&buf[..count])?;
        Ok(count)
    }

    fn flush(&mut self) -> io::Result<()> {
        if self.flushes {
            Ok(())
        } else {
            Err(io::Error::from(ErrorKind::Other))
        }
    }
}
