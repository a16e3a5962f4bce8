ghost use Rattle.std.specs.Prelude.{◌≡◌, ◌+◌, ◌<◌, ◌^◌, ◌∷◌, [], length, map};
ghost use Rattle.line_chunks.specs.Chunks.{cut, lines_within, too_long};
ghost use Rattle.set_line.specs.Returns.{lines_in};

use std::marker::Model;

/// The lines of a chunk, as they were read.
#[derive(Drop)]
pub(crate) enum Contents {
    /// The bytes of some lines, with their line feeds.
    Lines(Vec<u8>),
    /// The length of one line that is too long to be set, without its line feed.
    TooLong(usize),
}

/// Whole lines of a source, as they were read together, and the line number of the first of them. Of a line that
/// is too long to be set, a chunk of its own has the length.
#[derive(Drop)]
pub struct Chunk {
    pub(crate) first: u64,
    /// Whether lines may end with CR LF.
    pub(crate) crlf: bool,
    pub(crate) contents: Contents,
}

impl Model for Chunk {
    ghost use Rattle.std.specs.Prelude.{◌+◌, ◌<◌, ◌^◌, length};
    ghost use Rattle.line_chunks.specs.Chunks.{ChunkValue, lines_within};

    ghost Value = { ChunkValue };

    ghost view = { λ chunk. record { first = chunk.first; lines = lines_within chunk.crlf chunk.contents } };

    ghost invariant = { λ chunk. chunk.first + length (lines_within chunk.crlf chunk.contents) < 2 ^ 64 };
}

impl Chunk {
    /// Returns a chunk of the lines in these bytes, the first of which has this line number. If `crlf` is true,
    /// lines may end with CR LF.
    pub fn of_lines(first: u64, crlf: bool, bytes: Vec<u8>) -> Self
        requires { first + length (lines_in crlf bytes.items) < 2 ^ 64 }
        ensures { result ≡ record { first = first; lines = map cut (lines_in crlf bytes.items) } }
    {
        Chunk {
            first,
            crlf,
            contents: Contents::Lines(bytes),
        }
    }

    /// Returns a chunk of one line of this length, which is too long to be set.
    pub fn of_length(first: u64, length: usize) -> Self
        requires { first + 1 < 2 ^ 64 }
        ensures { result ≡ record { first = first; lines = too_long length ∷ [] } }
    {
        Chunk {
            first,
            crlf: false,
            contents: Contents::TooLong(length),
        }
    }

    /// Returns the number of bytes that the chunk keeps of its lines.
    pub(crate) fn byte_len(&self) -> usize {
        match &self.contents {
            Contents::Lines(bytes) => bytes.len(),
            Contents::TooLong(_) => 0,
        }
    }
}
