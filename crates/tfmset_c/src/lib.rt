//! The library for C: functions without state that are passed the bytes of a font and of a text.
//! `include/tfmset.h` describes them to their callers.
#![tactic(auto)]

pub use characters::{TfmsetCharacter, tfmset_characters};
pub use check::{TfmsetFault, tfmset_check, tfmset_fault_text};
pub use encode::{TfmsetEncoded, tfmset_encode};
pub use font::{TfmsetAbout, tfmset_font, tfmset_header_text, tfmset_parameters};
pub use lines::{TfmsetCounts, TfmsetItem, TfmsetLine};
pub use options::TfmsetOptions;
pub use pairs::{TfmsetPair, tfmset_pairs};
pub use preparing::tfmset_prepare;
pub use records::{TfmsetForm, tfmset_records};
pub use refusal::tfmset_refusal_text;
pub use set::{tfmset_set, tfmset_widths};
pub use size::tfmset_size;
pub use span::{TfmsetPlaced, TfmsetSpan};
pub use spanning::{tfmset_span_items, tfmset_spans};
pub use version::tfmset_version;

mod arrays;
mod characters;
mod check;
mod encode;
mod filling;
mod font;
mod lines;
mod options;
mod pairs;
mod preparing;
mod reading;
mod records;
mod refusal;
mod set;
mod size;
mod span;
mod spanning;
mod version;
