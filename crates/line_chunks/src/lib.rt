//! Chunks: lines that were read together, and the text of their records.
#![tactic(auto)]

pub use chunk::Chunk;
pub use chunk_reader::ChunkReader;
pub use chunk_text::ChunkText;
pub use line_counts::LineCounts;
pub use record_maker::RecordMaker;

mod chunk;
mod chunk_reader;
mod chunk_text;
mod cutting;
mod input;
mod line_counts;
mod long_line;
mod pending;
mod record_maker;
mod stored;
