//! Shared by the crates of tests: sample fonts, lines and terms, and readers and writers that fail, trickle
//! or count.
#![tactic(auto)]

pub mod fonts;
pub mod items;
mod lines;
mod readers;
mod sizing;
pub mod terms;
mod writers;

pub use lines::{line, lines_of, lines_of_source, repeated_line};
pub use readers::{ReadCounts, TricklingReader};
pub use sizing::sizes;
pub use writers::FailingWriter;
