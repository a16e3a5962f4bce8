//! Makes results of the items of many sources in one batch. Each source has a thread and one or more lanes, through
//! which its items go to workers, and the results to a collector.
//!
//! [`run_items`] makes results of items of any type, with several lanes for a source, and gives the results to a
//! [`Collector`] as they come.
#![tactic(auto)]

pub use collector::{Collector, Refusal};
pub use gate::{Gate, NoGate, Stage};
pub use item_source::ItemSource;
pub use reading::{MOST_READS, READ_SIZE};
pub use run_end::{ClosedLane, RunEnd};
pub use run_fault::RunFault;
pub use run_plan::{Plan, Workers};
pub use running_items::{ItemOptions, MOST_SOURCES, run_items};

mod collecting;
mod collector;
mod context;
mod gate;
mod item_source;
mod lane;
mod lane_count;
mod not_started;
mod reading;
mod run_end;
mod run_fault;
mod running_items;
mod threads;
