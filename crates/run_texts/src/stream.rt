//! Collects the output of a batch in a buffer, and writes it as the results arrive.
ghost use Rattle.std.specs.Prelude.{◌≡◌, ◌<◌, [], length, is_ok, IfOk, OnOk};
ghost use Rattle.batch.specs.Events.{Answered, Ended, Gets, Keeps as KeepsGiven};
ghost use Rattle.run_texts.specs.RunText.{head_text};
ghost use Rattle.run_texts.specs.StreamState.{AreCounts, IsStreamOf, MovesOut, StreamStart};

use crate::buffer::{FULL, ROOM};
use crate::record::push_head;
use crate::record_count::RecordCount;
use crate::writing::write_some;
use batch::Refusal;
use lanes::LaneEnd;
use line_chunks::{ChunkText, LineCounts};
use set_line::Version;
use std::alloc::{AllocError, Global};
use std::io::Write;

/// The output of a batch: the writer, and a buffer with the lines that weren't written yet.
#[derive(Drop)]
pub(crate) struct Stream<'a, W> {
    pub out: &'a mut W,
    pub buffer: Vec<u8>,
    pub counts: Vec<RecordCount>,
    pub lines: LineCounts,
    pub version: Version,
}

/// Writes the buffer, and empties it. After an error the bytes that weren't written are still in the buffer.
#[tactic(auto, using(crate::proofs::StreamLemmas::moves))]
pub(crate) fn write_buffer<W: Write>(buffer: &mut Vec<u8>, out: &mut W) -> Result<(), Refusal>
    ensures emptied { OnOk result (buffer.new.items ≡ []) }
    ensures goes { MovesOut (W.contents out.old) buffer.old.items
        (W.contents out.new) buffer.new.items }
{
    let done = write_some(buffer.as_slice(), out);
    let rest = buffer.len() - done;
    if rest == 0 {
        buffer.clear();
        return Ok(());
    }
    buffer.copy_within(done.., 0);
    buffer.truncate(rest);
    Err(Refusal::Output)
}

/// Returns a buffer with the first line of the record format, if it has one.
pub(crate) fn first_buffer(alloc: Global, version: Version) -> Result<Vec<u8>, Refusal>
    ensures head { IfOk result (λ buffer. buffer.items ≡ head_text version) }
{
    let mut buffer = Vec::with_capacity(alloc, ROOM).map_err(|_| Refusal::OutOfMemory)?;
    push_head(version, &mut buffer)?;
    Ok(buffer)
}

/// Returns the counts of this many lanes without results.
pub(crate) fn no_answers(alloc: Global, lanes: usize) -> Result<Vec<RecordCount>, AllocError>
    ensures lanes { IfOk result (λ counts. length counts.items ≡ lanes) }
    ensures none { IfOk result (λ counts. AreCounts [] 0 counts.items) }
{
    let mut counts = Vec::with_capacity(alloc, lanes)?;
    for _ in 0..lanes {
        counts.push(RecordCount::new())?;
    }
    Ok(counts)
}

impl<W: Write> Stream<'_, W> {
    /// Writes the buffer, and empties it. After an error the bytes that weren't written are still in the
    /// buffer.
    pub fn write_out(&mut self) -> Result<(), Refusal>
        ensures same { (self.new.out.ghost_name ≡ self.old.out.ghost_name)
            × (self.new.version ≡ self.old.version)
            × (self.new.counts ≡ self.old.counts) }
        ensures emptied { OnOk result (self.new.buffer.items ≡ []) }
        ensures goes { MovesOut (W.contents self.old.out.now) self.old.buffer.items
            (W.contents self.new.out.now) self.new.buffer.items }
    {
        write_buffer(&mut self.buffer, &mut *self.out)
    }

    /// Writes the buffer if it is full.
    fn make_room(&mut self) -> Result<(), Refusal>
        ensures lanes { length self.new.counts.items ≡ length self.old.counts.items }
        ensures given { (start : StreamStart)
            → KeepsGiven (IsStreamOf W.contents start) self.old self.new }
    {
        if self.buffer.len() < FULL {
            return Ok(());
        }
        self.write_out()
    }

    /// Takes the text of the next chunk of the source with this index, and appends it to the buffer. A full
    /// buffer is written first.
    pub fn take(&mut self, lane: usize, chunk: &ChunkText) -> Result<(), Refusal>
        requires { lane < length self.old.counts.items }
        ensures lanes { length self.new.counts.items ≡ length self.old.counts.items }
        ensures given { (start : StreamStart) → Gets (IsStreamOf W.contents start)
            self.old (lane, Answered chunk.now) (is_ok result) self.new }
    {
        self.make_room()?;
        let mut count = self.counts[lane];
        count.push_chunk(chunk, &mut self.buffer)?;
        self.counts[lane] = count;
        self.lines.add(chunk.counts());
        Ok(())
    }

    /// Takes the end of the source with this index, and appends its end line to the buffer. A full buffer is
    /// written first.
    pub fn end(&mut self, lane: usize, end: LaneEnd) -> Result<(), Refusal>
        requires { lane < length self.old.counts.items }
        ensures lanes { length self.new.counts.items ≡ length self.old.counts.items }
        ensures given { (start : StreamStart) → Gets (IsStreamOf W.contents start)
            self.old (lane, Ended end) (is_ok result) self.new }
    {
        self.make_room()?;
        let count = self.counts[lane];
        count.push_end(lane, end, self.version, &mut self.buffer)?;
        Ok(())
    }

    /// Writes the buffer and flushes the writer, unless the buffer is empty.
    pub fn flush(&mut self) -> Result<(), Refusal>
        ensures lanes { length self.new.counts.items ≡ length self.old.counts.items }
        ensures emptied { OnOk result (self.new.buffer.items ≡ []) }
        ensures given { (start : StreamStart)
            → KeepsGiven (IsStreamOf W.contents start) self.old self.new }
    {
        if self.buffer.is_empty() {
            return Ok(());
        }
        self.write_out()?;
        self.out.flush().map_err(|_| Refusal::Output)
    }
}
