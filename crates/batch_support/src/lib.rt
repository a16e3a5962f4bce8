//! Shared by the crates of tests of batches: sources and gates that fail or count, and plans.
#![tactic(auto)]

mod gates;
mod plans;
mod sources;

pub use gates::CountingGate;
pub use plans::{plan, small_plan};
pub use sources::{FailingSource, source_of, with_terms};
