//! Encodings of TeX's fonts.
#![tactic(auto)]

pub use characters::character_at;
pub use encoded_line::EncodedLine;
pub use encoding::Encoding;
pub use lines::{EncodeFault, encode_line, utf8_fault};
pub use lookup::codes_of;
pub use parts::{Part, Parts};
pub use places::{Place, Places};
pub use texts::codes_in_text;
pub use vector::Vector;

mod characters;
mod cutting;
mod decoding;
mod encoded_line;
mod encoding;
mod lines;
mod lookup;
mod parts;
mod places;
mod tables;
mod texts;
mod vector;
mod vector_characters;
mod vector_codes;
mod vector_tables;
