ghost use Rattle.std.specs.Prelude.{◌≡◌, ◌+◌, ◌<◌, ◌≤◌, ◌^◌, [], IfOk, IsTrue, OnOk, length, vec_len};
ghost use Rattle.std.specs.Io.KnownBytes.{IsAtEnd, Keeps, prepend_known};
ghost use Rattle.line_chunks.specs.Pending.{bytes_of};
ghost use Rattle.line_chunks.specs.Reading.{IsFilled};
ghost use Rattle.line_chunks.specs.Skipping.{TakesLong};

use crate::long_line::LongLine;
use crate::pending::Pending;
use batch::{MOST_READS, READ_SIZE};
use lanes::SourceFault;
use set_line::MOST_BYTES;
use std::alloc::Global;
use std::io::{ErrorKind, Read};

/// A line that has more bytes than this, before its line feed, is too long to be set, even if the last one is a
/// carriage return that belongs to the line ending.
const LONGEST: usize = MOST_BYTES + 1;

/// A reader, and its bytes that aren't in a chunk yet.
#[derive(Drop)]
pub(crate) struct Input<R> {
    pub reader: R,
    /// The room of one read.
    pub room: Vec<u8>,
    pub pending: Pending,
    pub alloc: Global,
}

/// What the pending bytes are after some reads.
#[derive(Clone, Copy)]
pub(crate) enum Filling {
    /// They have whole lines.
    Lines,
    /// They are all bytes up to the end of the reader, which don't end with a line feed.
    End,
    /// They are the beginning of a line that is too long, for which so many reads are left.
    Long(u32),
}

/// A line that is too long.
#[derive(Clone, Copy)]
pub(crate) enum Skipped {
    /// It was followed by a line feed.
    ToFeed(LongLine),
    /// It was followed by the end of the reader.
    ToEnd(LongLine),
}

impl<R: Read> Input<R> {
    /// Returns this reader, of which nothing was read. This allocates no memory.
    pub(crate) fn new(alloc: Global, reader: R) -> Self
        ensures text { prepend_known (bytes_of result.pending) (R.remaining result.reader) ≡ R.remaining reader }
    {
        Input {
            reader,
            room: Vec::new(alloc),
            pending: Pending::new(alloc),
            alloc,
        }
    }

    /// Makes the room of one read if there is none.
    fn make_room(&mut self) -> Result<(), SourceFault>
        ensures room { OnOk result (vec_len self.new.room ≡ 4096) }
        ensures pending { self.new.pending ≡ self.old.pending }
        ensures reader { self.new.reader ≡ self.old.reader }
    {
        if self.room.len() == READ_SIZE {
            return Ok(());
        }
        match Vec::from_elem(self.alloc, 0, READ_SIZE) {
            Ok(room) => self.room = room,
            Err(_) => return Err(SourceFault::OutOfMemory),
        }
        Ok(())
    }

    /// Reads once. Returns whether the reader is at its end. There must be no whole lines. A read that is
    /// interrupted gives no bytes.
    fn read(&mut self) -> Result<bool, SourceFault>
        requires { self.old.pending.lines ≡ [] }
        ensures text { OnOk result (Keeps (prepend_known (bytes_of self.old.pending) (R.remaining self.old.reader))
            (prepend_known (bytes_of self.new.pending) (R.remaining self.new.reader))) }
        ensures few { OnOk result (length (bytes_of self.new.pending) ≤ length (bytes_of self.old.pending) + 4096) }
        ensures end { IfOk result (λ at_end. IsTrue at_end
            → (self.new.pending ≡ self.old.pending) × IsAtEnd (R.remaining self.new.reader)) }
    {
        self.make_room()?;
        let room = self.room.as_mut_slice();
        match self.reader.read(room) {
            Ok(0) => Ok(true),
            Ok(count) => match self.pending.append(&room[..count]) {
                Ok(()) => Ok(false),
                Err(_) => Err(SourceFault::OutOfMemory),
            },
            Err(fault) if fault.kind() == ErrorKind::Interrupted => Ok(false),
            Err(_) => Err(SourceFault::Read),
        }
    }

    /// Reads until there are whole lines, or the beginning of a line that is too long, or the reader is at its end.
    /// There must be no whole lines.
    pub(crate) fn fill(&mut self) -> Result<Filling, SourceFault>
        requires { self.old.pending.lines ≡ [] }
        ensures text { OnOk result (Keeps (prepend_known (bytes_of self.old.pending) (R.remaining self.old.reader))
            (prepend_known (bytes_of self.new.pending) (R.remaining self.new.reader))) }
        ensures filled { IfOk result (λ filled. IsFilled filled self.new.pending (R.remaining self.new.reader)) }
    {
        for reads in 0..MOST_READS {
            if self.pending.rest_len() > LONGEST {
                return Ok(Filling::Long(MOST_READS - reads));
            }
            if self.read()? {
                return Ok(Filling::End);
            }
            if self.pending.has_lines() {
                return Ok(Filling::Lines);
            }
        }
        Err(SourceFault::ReadBound)
    }

    /// Reads up to the line feed or the end behind a line that is too long, whose beginning is pending, with at most
    /// this many reads. The bytes of the line aren't kept.
    pub(crate) fn skip(&mut self, reads: u32) -> Result<Skipped, SourceFault>
        requires none { self.old.pending.lines ≡ [] }
        requires long { 65536 < length self.old.pending.rest }
        requires small { length self.old.pending.rest < 2 ^ 63 }
        ensures { IfOk result (λ skipped. TakesLong
            (prepend_known (bytes_of self.old.pending) (R.remaining self.old.reader)) skipped
            (prepend_known (bytes_of self.new.pending) (R.remaining self.new.reader))) }
    {
        let mut line = LongLine::new();
        self.pending.skip_rest(&mut line);
        for _ in 0..reads {
            if self.read()? {
                return Ok(Skipped::ToEnd(line));
            }
            if self.pending.has_lines() {
                self.pending.skip_line(&mut line);
                return Ok(Skipped::ToFeed(line));
            }
            self.pending.skip_rest(&mut line);
        }
        Err(SourceFault::ReadBound)
    }
}
