ghost use Rattle.std.specs.Prelude.{◌≡◌, ◌==◌, ◌++◌, [], IsTrue, OnOk, IfOk};
ghost use Rattle.std.specs.List.{position};
ghost use Rattle.std.specs.Io.KnownBytes.{Consumes, IsAtEnd};
ghost use Rattle.set_run.specs.Reading.{MovesLine};

use batch::READ_SIZE;
use lanes::SourceFault;
use memchr::memchr;
use std::alloc::Global;
use std::io::{ErrorKind, Read};
use std::marker::Model;

/// The bytes of the last read that aren't in a line yet: those of `space` from `start` to before `end`.
#[derive(Drop)]
pub(crate) struct Buffer {
    space: Vec<u8>,
    start: usize,
    end: usize,
}

impl Model for Buffer {
    ghost use Rattle.std.specs.Prelude.{ℕ, ◌≤◌, List, length, take, drop};

    ghost Value = { List ℕ };

    ghost view = { λ buffer. drop buffer.start (take buffer.end buffer.space.items) };

    ghost invariant = { λ buffer. (buffer.start ≤ buffer.end)
        × (buffer.end ≤ length buffer.space.items) × (length buffer.space.items ≤ 4096) };
}

impl Buffer {
    /// Returns an empty buffer. This allocates no memory.
    pub(crate) fn new(alloc: Global) -> Self
        ensures { result ≡ [] }
    {
        Buffer {
            space: Vec::new(alloc),
            start: 0,
            end: 0,
        }
    }

    /// Replaces the bytes of the buffer by those of one read, which are none if the read was interrupted.
    /// Returns whether the reader is at its end. The error is `OutOfMemory` if an allocation failed, and
    /// `Read` if the read failed.
    #[tactic(auto, using(crate::proofs::ReadingLemmas::nothing_read))]
    pub(crate) fn refill<R: Read>(
        &mut self,
        alloc: Global,
        reader: &mut R,
    ) -> Result<bool, SourceFault>
        ensures read { OnOk result
            (Consumes (R.remaining reader.old) (R.remaining reader.new) self.new) }
        ensures end { IfOk result (λ at_end. IsTrue at_end
            → (self.new ≡ []) × IsAtEnd (R.remaining reader.new)) }
    {
        if self.space.is_empty() {
            match Vec::from_elem(alloc, 0, READ_SIZE) {
                Ok(buffer) => self.space = buffer,
                Err(_) => return Err(SourceFault::OutOfMemory),
            }
        }
        self.start = 0;
        self.end = 0;
        match reader.read(self.space.as_mut_slice()) {
            Ok(count) => {
                self.end = count;
                Ok(count == 0)
            }
            Err(fault) if fault.kind() == ErrorKind::Interrupted => Ok(false),
            Err(_) => Err(SourceFault::Read),
        }
    }

    /// Moves bytes of the buffer to the end of `line`: those before the first line feed, which is dropped, or
    /// all of them if there is no line feed. Returns whether there was one. The error means that an
    /// allocation failed.
    pub(crate) fn move_line(&mut self, line: &mut Vec<u8>) -> Result<bool, SourceFault>
        ensures { IfOk result (λ ended.
            MovesLine self.old line.old.items ended line.new.items self.new) }
    {
        let bytes = &self.space[self.start..self.end];
        match first_feed(bytes) {
            Some(at) => {
                push(line, &bytes[..at])?;
                self.start += at + 1;
                Ok(true)
            }
            None => {
                push(line, bytes)?;
                self.start = self.end;
                Ok(false)
            }
        }
    }
}

/// Appends a part to a line. The error means that an allocation failed.
fn push(line: &mut Vec<u8>, part: &[u8]) -> Result<(), SourceFault>
    ensures { OnOk result (line.new.items ≡ line.old.items ++ part.now) }
{
    line.extend_from_slice(part)
        .map_err(|_| SourceFault::OutOfMemory)
}

/// Returns the index of the first line feed.
fn first_feed(bytes: &[u8]) -> Option<usize>
    ensures { result ≡ position (λ byte. byte == 10) bytes.now }
{
    memchr(b'\n', bytes)
}
