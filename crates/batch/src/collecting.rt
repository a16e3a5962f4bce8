//! The collecting thread: it takes the results of the lanes and gives them to a collector.

pub(crate) mod collector_thread;
pub(crate) mod lane_taker;
