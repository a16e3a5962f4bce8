//! The output of a source, kept in memory until the batch is done.
ghost use Rattle.std.specs.Prelude.{◌≡◌, ◌+◌, ◌<◌, ◌^◌, ◌++◌, [], IfErr, OnErr, OnOk};
ghost use Rattle.std.specs.Io.KnownBytes.{Appends};
ghost use Rattle.std.specs.List.{concat};
ghost use Rattle.batch.specs.declared.collector.Refusal.TheVariants.{OutOfMemory as NoMemory};
ghost use Rattle.run_texts.specs.LaneText.{chunk_lines};
ghost use Rattle.run_texts.specs.RunText.{end_text, why_of};

use crate::ToolFault;
use crate::buffer::{FULL, OutputBuffer, ROOM};
use crate::record_count::{RecordCount, RefusedCount};
use crate::writing::write_text;
use batch::Refusal;
use lanes::LaneEnd;
use line_chunks::ChunkText;
use set_line::Version;
use std::alloc::{AllocError, Global};
use std::io::Write;
use std::marker::Model;
use std::mem;

/// The output of a source, in buffers. Texts are appended to the last one.
#[derive(Drop)]
pub(crate) struct LaneText {
    full: Vec<OutputBuffer>,
    last: Vec<u8>,
    count: RecordCount,
}

impl Model for LaneText {
    ghost use Rattle.std.specs.Prelude.{◌++◌};
    ghost use Rattle.std.specs.List.{concat};
    ghost use Rattle.run_texts.specs.LaneText.{LaneTextValue};

    ghost Value = { LaneTextValue };

    ghost view = { λ lane. record {
      text = concat lane.full.items ++ lane.last.items;
      records = lane.count.records;
      refused = lane.count.refused;
    } };
}

impl RefusedCount for LaneText {
    ghost refused = { λ lane. lane.refused };

    fn refused(&self) -> u64 {
        self.count.refused
    }
}

/// Writes buffers in order, and frees each when it is written.
fn write_buffers<W: Write>(full: Vec<OutputBuffer>, out: &mut W) -> Result<(), ToolFault>
    ensures written { OnOk result (Appends (W.contents out.old) (W.contents out.new)
        (concat full.items)) }
    ensures fault { IfErr result (λ fault. fault ≡ ToolFault.Write) }
{
    for buffer in full {
        write_text(buffer.as_slice(), out)?;
    }
    Ok(())
}

impl LaneText {
    /// Returns the empty output of a lane. This allocates no memory.
    pub fn new(alloc: Global) -> Self
        ensures { result ≡ record { text = []; records = 0; refused = 0 } }
    {
        LaneText {
            full: Vec::new(alloc),
            last: Vec::new(alloc),
            count: RecordCount::new(),
        }
    }

    /// Begins a new buffer. The output is unchanged, also if an allocation fails.
    fn begin_buffer(&mut self) -> Result<(), AllocError>
        ensures as_before { self.new ≡ self.old }
        ensures few { 1 + self.new.records < 2 ^ 64 }
    {
        let alloc = *self.last.allocator();
        let begun = Vec::with_capacity(alloc, ROOM)?;
        let full = OutputBuffer::new(mem::replace(&mut self.last, begun));
        match self.full.push(full) {
            Ok(()) => Ok(()),
            Err(failed) => {
                self.last = failed.value.into_vec();
                Err(AllocError)
            }
        }
    }

    /// Begins a new buffer if the last one is full. The output is unchanged, also if an allocation fails.
    fn make_room(&mut self) -> Result<(), Refusal>
        ensures as_before { self.new ≡ self.old }
        ensures few { 1 + self.new.records < 2 ^ 64 }
        ensures refusal { IfErr result (λ refusal. refusal ≡ NoMemory) }
    {
        if self.last.len() < FULL {
            return Ok(());
        }
        self.begin_buffer().map_err(|_| Refusal::OutOfMemory)
    }

    /// Appends the records of the next chunk, and counts them. After an error the output and the counts are
    /// unchanged.
    pub fn take(&mut self, chunk: &ChunkText) -> Result<(), Refusal>
        ensures taken { OnOk result (self.new ≡ record {
          text = self.old.text ++ concat (chunk_lines chunk.now);
          records = self.old.records + chunk.now.lines;
          refused = self.old.refused + chunk.now.refused;
        }) }
        ensures as_before { OnErr result (self.new ≡ self.old) }
        ensures refusal { IfErr result (λ refusal. refusal ≡ NoMemory) }
        ensures few { 1 + self.new.records < 2 ^ 64 }
    {
        self.make_room()?;
        self.count.push_chunk(chunk, &mut self.last)
    }

    /// Appends the end line of the lane with this index. After an error the output is unchanged.
    pub fn end(&mut self, lane: usize, end: LaneEnd, version: Version) -> Result<(), Refusal>
        requires { lane + 1 < 2 ^ 64 }
        ensures ended { OnOk result (self.new ≡ record {
          text = self.old.text ++ end_text (lane + 1) version (why_of end) self.old.records;
          records = self.old.records;
          refused = self.old.refused;
        }) }
        ensures as_before { OnErr result (self.new ≡ self.old) }
        ensures refusal { IfErr result (λ refusal. refusal ≡ NoMemory) }
        ensures few { 1 + self.new.records < 2 ^ 64 }
    {
        self.count.push_end(lane, end, version, &mut self.last)
    }

    /// Writes the output, and frees its memory.
    pub fn write<W: Write>(self, out: &mut W) -> Result<(), ToolFault>
        ensures written { OnOk result (Appends (W.contents out.old) (W.contents out.new) self.text) }
        ensures fault { IfErr result (λ fault. fault ≡ ToolFault.Write) }
    {
        let LaneText {
            full,
            last,
            count: _,
        } = self;
        write_buffers(full, out)?;
        write_text(last.as_slice(), out)?;
        Ok(())
    }
}
