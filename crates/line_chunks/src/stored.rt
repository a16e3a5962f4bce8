//! Chunks and their texts as items of messages: a message has one.
use crate::{Chunk, ChunkText};
use lanes::Stored;

/// The number of bytes above which a chunk is large.
const LARGE_CHUNK: usize = 8192;

/// The number of bytes above which a text is large: those of the usual text of a chunk of that many bytes.
const LARGE_TEXT: usize = 98_304;

impl Stored for Chunk {
    type Slots = Option<Chunk>;

    fn is_large(&self) -> bool {
        self.byte_len() > LARGE_CHUNK
    }
}

impl Stored for ChunkText {
    type Slots = Option<ChunkText>;

    fn is_large(&self) -> bool {
        self.text().len() > LARGE_TEXT
    }
}
