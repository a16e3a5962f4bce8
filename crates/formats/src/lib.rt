//! The formats of the output: of the records of lines, of the listing of a font, and of its pairs.
#![tactic(auto)]

pub use listing::{ListLayout, OutputFormat};
pub use pairs::{PairsFormat, PairsLayout};
pub use record_format::RecordFormat;

mod listing;
mod pairs;
mod record_format;
