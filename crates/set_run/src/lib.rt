//! Sets the lines of many sources in one batch. Each source has a thread and one lane, through which its lines go to
//! workers, and the answers to a collector that keeps them.
//!
//! [`run`] returns a report of all answers. It is the batch of `batch` for lines, whose names are exported here too.
#![tactic(auto)]

pub use batch::{
    ClosedLane, Collector, Gate, ItemOptions, ItemSource, MOST_READS, MOST_SOURCES, NoGate, Plan,
    READ_SIZE, Refusal, RunEnd, RunFault, Stage, Workers, run_items,
};
pub use report::{Answers, LaneReport, Report};
pub use running::run;
pub use sources::LineSource;
pub use sources::list_source::ListSource;
pub use sources::reader_source::ReaderSource;

mod answer_lists;
mod report;
mod running;
mod sources;
