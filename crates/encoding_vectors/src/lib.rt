//! Reads encoding vectors of dvips: files `.enc`, which give each of the 256 codes of a font the name of a
//! glyph.
//!
//! Only `unknown_names` allocates memory. Every call returns.
#![tactic(auto)]

pub use fault::VectorFault;
pub use reading::{MOST_BYTES, read_vector};
pub use unknown::unknown_names;

mod bytes;
mod fault;
mod glyphs;
mod lines;
mod names;
mod numbers;
mod reading;
mod scanning;
mod unknown;
