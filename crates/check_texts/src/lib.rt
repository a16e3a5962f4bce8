//! Makes the texts that `check` prints: the verdict on a font, with the rules of TeX that an accepted font breaks and
//! what TFtoPL reports about it, and the numbers of fonts.
#![tactic(auto)]

pub use looping::endless_pair;
pub use tally::{Tally, summary_line};
pub use verdict::Verdict;
pub use verdict_lines::verdict_text;
pub use warning::Warning;
pub use warnings::strict_warnings;

mod looping;
mod rules;
mod tally;
mod verdict;
mod verdict_lines;
mod warning;
mod warnings;
