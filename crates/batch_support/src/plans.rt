//! Layouts of batches.
use batch::{Plan, Workers};
use test_support::sizes;

/// Returns a plan with this capacity, this block and this many workers.
pub fn plan(capacity: usize, block: usize, workers: usize) -> Result<Plan, &'static str> {
    plan_of(capacity, block, workers).ok_or("a plan out of range")
}

/// Returns the plan with the smallest rings and two workers.
pub fn small_plan() -> Option<Plan> {
    plan_of(1, 1, 2)
}

fn plan_of(capacity: usize, block: usize, workers: usize) -> Option<Plan> {
    let (capacity, block) = sizes(capacity, block)?;
    Some(Plan {
        capacity,
        block,
        workers: Workers::new(workers)?,
    })
}
