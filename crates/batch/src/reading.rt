//! How much a source reads.

/// The largest number of bytes of one read.
pub const READ_SIZE: usize = 4096;

/// The largest number of reads for one line.
pub const MOST_READS: u32 = 1_048_576;
