//! The layout of a lane.
use run_plan::{Block, Capacity};

/// Returns the capacity and the block of a lane; `None` if a number is out of its range.
pub fn sizes(capacity: usize, block: usize) -> Option<(Capacity, Block)> {
    Some((Capacity::new(capacity)?, Block::new(block)?))
}
