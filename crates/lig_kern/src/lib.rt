//! Sets a run of characters with the lig/kern program of a font: the result is the exact list of
//! characters and kerns that the program defines, including its effect at both boundaries (The
//! METAFONTbook, Appendix F).
#![tactic(auto)]

pub use action::Action;
pub use byte_range::ByteRange;
pub use ends::Ends;
pub use item::Item;
pub use matching::{first_match, ligature};
pub use plainly::{Plain, plain_action};
pub use run_item::RunItem;
pub use setting::{set_run_of, set_word};
pub use symbol::Symbol;
pub use word_fault::WordFault;
pub use word_font::WordFont;

mod action;
mod ahead;
mod beginning;
mod byte_range;
mod ends;
mod item;
mod matching;
mod placed_symbol;
mod plainly;
mod run_item;
mod setting;
mod symbol;
mod walking;
mod word_fault;
mod word_font;
