ghost use Rattle.std.specs.Prelude.{◌≡◌, ◌≢◌, ◌+◌, ◌<◌, ◌^◌, [], IfOk, Ok, Some, length};
ghost use Rattle.std.specs.Io.KnownBytes.{IsAtEnd};
ghost use Rattle.line_chunks.specs.Reading.{ReadsFrom, gives_chunk};
ghost use Rattle.line_chunks.specs.declared.chunk_reader.ChunkReaderState.TheVariants.{Open};

use crate::Chunk;
use crate::cutting::count_feeds;
use crate::input::{Filling, Input, Skipped};
use batch::ItemSource;
use lanes::SourceFault;
use std::alloc::Global;
use std::io::Read;
use std::snapshot::Snapshot;

/// How far a reader has been read.
#[derive(Clone, Copy, Drop)]
pub(crate) enum ChunkReaderState {
    /// It may have more bytes.
    Open,
    /// Its end was reached.
    AtEnd,
    /// An error occurred: it isn't read again.
    Failed(SourceFault),
}

/// A source of chunks that reads the lines of a reader. Each line feed ends a line; the bytes after the last one are
/// a line unless there are none. A chunk has all lines that one read completes, or at most a given number of them: it
/// is never held back while the reader waits. Once more than 65,536 bytes of a line were read without its end, only
/// its length is kept. After an error each later call returns the same error, and the lines that weren't in a chunk
/// are lost.
#[derive(Drop)]
pub struct ChunkReader<R> {
    input: Input<R>,
    state: ChunkReaderState,
    /// Whether lines may end with CR LF.
    crlf: bool,
    /// The largest number of lines in a chunk.
    most: usize,
    /// The line number of the next line. It isn't right any more if it would have more than 64 bits.
    next: u64,
    made_of: Snapshot<R>,
}

impl<R: Read> ChunkReader<R> {
    /// Returns a source of the lines of this reader, in chunks of at most `most` lines, but at least one. If `crlf` is
    /// true, one carriage return before a line feed belongs to the line ending. The first line has the line number 1.
    /// Nothing is read yet, and no memory is allocated.
    pub fn new(alloc: Global, reader: R, crlf: bool, most: usize) -> Self
        ensures { ReadsFrom R.remaining crlf reader result }
    {
        let made_of = Snapshot::of(&reader);
        ChunkReader {
            input: Input::new(alloc, reader),
            state: ChunkReaderState::Open,
            crlf,
            most,
            next: 1,
            made_of,
        }
    }

    /// Returns the line number of the first of this many lines, and numbers the lines after them.
    fn number(&mut self, lines: u64) -> u64
        requires { lines + 1 < 2 ^ 64 }
        ensures fits { result + lines < 2 ^ 64 }
        ensures first { self.old.next + lines < 2 ^ 64 → result ≡ self.old.next }
        ensures next { self.new.next ≡ result + lines }
        ensures input { self.new.input ≡ self.old.input }
        ensures state { self.new.state ≡ self.old.state }
        ensures crlf { self.new.crlf ≡ self.old.crlf }
        ensures origin { self.new.made_of.value ≡ self.old.made_of.value }
    {
        let first = match self.next.checked_add(lines) {
            Some(_) => self.next,
            None => 0,
        };
        self.next = first + lines;
        first
    }

    /// Returns a chunk of whole lines, of which there must be some.
    fn whole_lines(&mut self) -> Result<Chunk, SourceFault>
        requires open { self.old.state ≡ Open }
        requires lines { self.old.input.pending.lines ≢ [] }
        ensures gives { IfOk result (λ chunk. gives_chunk R.remaining self.old (Ok (Some chunk)) self.new) }
        ensures origin { self.new.made_of.value ≡ self.old.made_of.value }
    {
        let alloc = self.input.alloc;
        let Ok(bytes) = self.input.pending.take_lines(alloc, self.most) else {
            return Err(SourceFault::OutOfMemory);
        };
        let first = self.number(count_feeds(bytes.as_slice()));
        Ok(Chunk::of_lines(first, self.crlf, bytes))
    }

    /// Returns a chunk of the bytes after the last line feed, or `None` if there are none. The reader must be at its
    /// end.
    fn last_line(&mut self) -> Result<Option<Chunk>, SourceFault>
        requires open { self.old.state ≡ Open }
        requires none { self.old.input.pending.lines ≡ [] }
        requires end { IsAtEnd (R.remaining self.old.input.reader) }
        ensures gives { IfOk result (λ given. gives_chunk R.remaining self.old (Ok given) self.new) }
        ensures origin { self.new.made_of.value ≡ self.old.made_of.value }
    {
        self.state = ChunkReaderState::AtEnd;
        if self.input.pending.rest_len() == 0 {
            return Ok(None);
        }
        let alloc = self.input.alloc;
        let Ok(bytes) = self.input.pending.take_rest(alloc) else {
            return Err(SourceFault::OutOfMemory);
        };
        let first = self.number(1);
        Ok(Some(Chunk::of_lines(first, self.crlf, bytes)))
    }

    /// Returns a chunk of a line that is too long, whose beginning is pending.
    fn long_line(&mut self, reads: u32) -> Result<Chunk, SourceFault>
        requires open { self.old.state ≡ Open }
        requires none { self.old.input.pending.lines ≡ [] }
        requires long { 65536 < length self.old.input.pending.rest }
        requires small { length self.old.input.pending.rest < 2 ^ 63 }
        ensures gives { IfOk result (λ chunk. gives_chunk R.remaining self.old (Ok (Some chunk)) self.new) }
        ensures origin { self.new.made_of.value ≡ self.old.made_of.value }
    {
        match self.input.skip(reads)? {
            Skipped::ToFeed(line) => {
                let first = self.number(1);
                Ok(Chunk::of_length(first, line.length(self.crlf)))
            }
            Skipped::ToEnd(line) => {
                self.state = ChunkReaderState::AtEnd;
                let first = self.number(1);
                Ok(Chunk::of_length(first, line.length(false)))
            }
        }
    }

    /// Returns the next chunk, or `None` if no line is left. The reader must be open.
    fn next_chunk(&mut self) -> Result<Option<Chunk>, SourceFault>
        requires { self.old.state ≡ Open }
        ensures gives { IfOk result (λ given. gives_chunk R.remaining self.old (Ok given) self.new) }
        ensures origin { self.new.made_of.value ≡ self.old.made_of.value }
    {
        if self.input.pending.has_lines() {
            return Ok(Some(self.whole_lines()?));
        }
        match self.input.fill()? {
            Filling::Lines => Ok(Some(self.whole_lines()?)),
            Filling::End => self.last_line(),
            Filling::Long(reads) => Ok(Some(self.long_line(reads)?)),
        }
    }
}

impl<R: Read> ItemSource<Chunk> for ChunkReader<R> {
    ghost use Rattle.line_chunks.specs.Reading.{gives_chunk};

    ghost next_gives = { gives_chunk R.remaining };

    ghost Origin = { R };

    ghost origin = { λ source. source.made_of.value };

    fn next_item(&mut self) -> Result<Option<Chunk>, SourceFault> {
        match self.state {
            ChunkReaderState::Open => match self.next_chunk() {
                Ok(chunk) => Ok(chunk),
                Err(fault) => {
                    self.state = ChunkReaderState::Failed(fault);
                    Err(fault)
                }
            },
            ChunkReaderState::AtEnd => Ok(None),
            ChunkReaderState::Failed(fault) => Err(fault),
        }
    }

    /// Returns whether the next call reads nothing.
    fn is_ready(&self) -> bool {
        self.input.pending.has_lines()
    }
}
