//! The plan of a batch: the slots of its rings, the lines in a message, and the threads that set lines; and how a line
//! is set and recorded: its step limit, the policy for missing characters, and the format of its record. Each number
//! is in its range.
//!
//! Also what the crates of lines and those of lanes both need: [`OutOfMemory`], and the traits of the items and results
//! of a lane, [`Stored`] and [`Made`]. They are here because only the crate of a trait or of a type can implement the
//! trait for the type.
#![tactic(auto)]

pub use limit::Limit;
pub use made::Made;
pub use out_of_memory::OutOfMemory;
pub use plan::{Block, Capacity, Plan, Workers};
pub use policy::Policy;
pub use slots::{InlineSlots, Slots, Stored};
pub use up_to::UpTo;
pub use version::Version;

mod limit;
mod made;
mod out_of_memory;
mod plan;
mod policy;
mod slots;
mod up_to;
mod version;
