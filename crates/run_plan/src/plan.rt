use crate::UpTo;

/// The number of slots of each ring of a lane, one for each message: 1 to 65,536.
pub type Capacity = UpTo<65_536>;

/// The number of lines in a full block, which is sent as one message: 1 to 8.
pub type Block = UpTo<8>;

/// The largest number of threads that set lines: 1 to 16.
pub type Workers = UpTo<16>;

/// The layout of the lanes and threads of a batch.
#[derive(Clone, Copy, Debug, PartialEq, Eq)]
pub struct Plan {
    /// The number of slots of each ring of a lane.
    pub capacity: Capacity,
    /// The number of lines in a full block.
    pub block: Block,
    /// The largest number of threads that set lines. A batch starts at most one for each lane.
    pub workers: Workers,
}
