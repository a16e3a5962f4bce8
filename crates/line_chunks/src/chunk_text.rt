ghost use Rattle.std.specs.Prelude.{◌≡◌};
ghost use Rattle.line_chunks.specs.ChunkText.{IsChunkText, chunk_text};

use crate::{Chunk, LineCounts, RecordMaker};
use lanes::Made;
use std::marker::Model;
use std::snapshot::Snapshot;

/// The number of lines, and the number of refused lines among them.
#[derive(Clone, Copy)]
pub(crate) struct LineCount {
    pub lines: u64,
    pub refused: u64,
}

/// The records of the lines of a chunk, the number of these lines, and the number of refused lines among
/// them. An invariant of the type states that these are the defined ones (`chunk_text`) for the chunk, the
/// settings, the number of the source, the encoding and the record format, which the contract of a text names.
#[derive(Drop)]
pub struct ChunkText {
    text: Vec<u8>,
    count: LineCount,
    /// The numbers of lines by reason, which no clause states.
    counts: LineCounts,
    maker: Snapshot<RecordMaker>,
    chunk: Snapshot<Chunk>,
}

impl Model for ChunkText {
    ghost use Rattle.line_chunks.specs.ChunkText.{ChunkTextValue, IsChunkText};

    ghost Value = { ChunkTextValue };

    ghost view = { λ t. record {
      maker = t.maker.value;
      chunk = t.chunk.value;
      text = t.text.items;
      lines = t.count.lines;
      refused = t.count.refused;
    } };

    ghost invariant = { λ t. IsChunkText (record {
      maker = t.maker.value;
      chunk = t.chunk.value;
      text = t.text.items;
      lines = t.count.lines;
      refused = t.count.refused;
    }) };
}

impl ChunkText {
    /// Returns the text of a chunk, whose lines the maker has counted.
    pub(crate) fn new(maker: &RecordMaker, chunk: &Chunk, text: Vec<u8>, count: LineCount) -> Self
        requires text { text.items ≡ (chunk_text maker.now chunk.now).text }
        requires lines { count.lines ≡ (chunk_text maker.now chunk.now).lines }
        requires refused { count.refused ≡ (chunk_text maker.now chunk.now).refused }
        ensures { result ≡ chunk_text maker.now chunk.now }
    {
        ChunkText {
            text,
            count,
            counts: maker.counts,
            maker: Snapshot::of(maker),
            chunk: Snapshot::of(chunk),
        }
    }

    /// Returns the records.
    pub fn text(&self) -> &[u8]
        ensures value { result.now ≡ self.now.text }
        ensures right { IsChunkText self.now }
    {
        self.text.as_slice()
    }

    /// Returns the number of lines.
    pub fn lines(&self) -> u64
        ensures value { result ≡ self.now.lines }
        ensures right { IsChunkText self.now }
    {
        self.count.lines
    }

    /// Returns the number of refused lines.
    pub fn refused(&self) -> u64
        ensures value { result ≡ self.now.refused }
        ensures right { IsChunkText self.now }
    {
        self.count.refused
    }

    /// Returns the numbers of lines that were set, and that were refused for each reason.
    pub fn counts(&self) -> &LineCounts {
        &self.counts
    }
}

/// A text is right if it is the defined one for its chunk.
impl Made for ChunkText {
    ghost use Rattle.line_chunks.specs.ChunkText.{IsChunkText};

    ghost is_right = { IsChunkText };

    fn show_right(&self) {
        let _ = self.lines();
    }
}
