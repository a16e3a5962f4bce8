//! The lowest layer of a TeX Font Metric (TFM) file: its twelve counts, its words of four bytes, its
//! fix_words and their scaling, and its design size. [`push_number`] writes the numbers in the output of the
//! crates above.
//!
//! Only [`push_number`] allocates memory. Every call whose `requires` holds returns, whatever the bytes are.
#![tactic(auto)]

pub use count::Count;
pub use count_fault::CountFault;
pub use counts::Counts;
pub use decimal::push_number;
pub use design::{DesignFault, design_size};
pub use fix_word::FixWord;
pub use size::Size;
pub use table::Table;
pub use word::word_at;

mod count;
mod count_fault;
mod counts;
mod decimal;
mod design;
mod fix_word;
mod numbers;
mod size;
mod table;
mod word;
