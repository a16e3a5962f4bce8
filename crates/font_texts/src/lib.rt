//! Makes texts about a font: its counts and design size, its listing, its full listing, its pairs, and its first error.
#![tactic(auto)]

pub use all_listing::list_all_text;
pub use appending::{push_escaped_text, push_hex, push_json_string};
pub use counts::counts_text;
pub use fault_words::{Numbered, number_of};
pub use formats::{ListLayout, OutputFormat, PairsFormat, PairsLayout};
pub use listing::{list_file_text, list_text};
pub use pair::Pair;
pub use pair_lines::pairs_text;
pub use pairing::pairs;

mod all_listing;
mod appending;
mod character_fields;
mod counts;
mod fault_words;
mod fields;
mod listing;
mod pair;
mod pair_characters;
mod pair_lines;
mod pairing;
mod rows;
