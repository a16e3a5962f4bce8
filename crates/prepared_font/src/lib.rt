//! A font at a size as a table of bytes, in memory of the caller. [`prepare`] writes the table, and
//! [`PreparedFont::open`] reads it in place. The bytes may be at any address, with any alignment, and may be
//! copied, stored, mapped and shared by threads and processes. Every method of `PreparedFont` returns for
//! any bytes; the results are those of the font if the bytes are as `prepare` wrote them.
#![tactic(auto)]

pub use prepared_font::PreparedFont;
pub use preparing::{prepare, table_length};

mod layout;
mod prepared_font;
mod preparing;
mod putting;
