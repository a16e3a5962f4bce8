//! Reads the size of a font from a text, such as `12pt`, `10.95pt`, `4mm` or `655360`, as TeX reads a
//! dimension and rounds it; and writes a length in a unit.
//!
//! Only [`push_length`] allocates memory, and every call returns.
#![tactic(auto)]

pub use length_unit::LengthUnit;
pub use lengths::push_length;
pub use reading::{is_plain, read_size};

mod decimals;
mod digits;
mod length_unit;
mod lengths;
mod reading;
mod units;
