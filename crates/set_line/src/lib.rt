//! Sets lines of text with a font, and writes the record of each result.
//!
//! [`set_bytes`] sets a line given as a slice, with a list of items that is used again for the next line;
//! [`append_items`] makes the texts of these items, and [`append_set`] or [`append_refusal`] appends the record of
//! the result. [`set`] and [`record`] do the same for an owned [`Line`], whose [`Answer`] keeps the line and its
//! settings.
#![tactic(auto)]

pub use answer::Answer;
pub use cutting::{at_first_feed, lines, next_line};
pub use items::Items;
pub use laws::cut_at_feeds;
pub use line::Line;
pub use outcome::{LineRefusal, Outcome};
pub use portions::set_stretch;
pub use records::items_text::{append_items, append_uncoded};
pub use records::record_number::RecordNumber;
pub use records::record_text::{SetText, append_refusal, append_set, record};
pub use records::text_refusal::TextRefusal;
pub use records::writing::write_item_text;
pub use run_plan::{Limit, OutOfMemory, Policy, Version};
pub use setting::{MOST_BYTES, find_refusal, set, set_bytes};
pub use terms::Terms;
pub use width::total_width;

mod answer;
mod cutting;
mod items;
mod laws;
mod line;
mod outcome;
mod portions;
mod records;
mod setting;
mod terms;
mod width;
