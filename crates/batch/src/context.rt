//! The context of a batch.
use crate::Plan;
use crate::lane_count::LaneCount;
use crate::threads::signals::Signals;
use std::alloc::Global;

/// The values that the functions that start the threads of a batch share.
#[derive(Drop)]
pub(crate) struct Context<'a, R, G> {
    pub rt: &'a R,
    pub gate: &'a G,
    pub signals: Signals,
    pub alloc: Global,
    pub plan: Plan,
    /// The number of lanes of each source.
    pub lanes: LaneCount,
}
