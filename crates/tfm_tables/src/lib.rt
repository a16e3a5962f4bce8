//! Reads a whole TeX Font Metric (TFM) file as a font. `Font::read` refuses a file that has a font
//! error with its first one, and otherwise accepts it, unless an allocation fails. The methods of an
//! accepted `Font` return its data and allocate no memory. `FontMetrics` is a font without the tables that
//! only setting needs; it is read in the same way, with the same errors, in less time and memory.
#![tactic(auto)]

pub use fault::{FontFault, Part};
pub use font::Font;
pub use font_metrics::FontMetrics;
pub use left_side::LeftSide;
pub use metrics::Metrics;
pub use step::Step;
pub use tag::Tag;

mod checks;
mod fault;
mod font;
mod font_metrics;
mod header;
mod left_side;
mod metrics;
mod pairs;
mod step;
mod tables;
mod tag;
