//! Sets spans of a text with a font, without line feeds and without spaces: each span is one run, which has
//! the boundaries that its edges state, and perhaps a hyphen at its end (The METAFONTbook, Appendix F;
//! tex.web, sections 906 to 916).
//!
//! [`SpanSetter`] returns the width of a span and keeps its list for the next one; [`place_span`] returns
//! the items of a span, each with the bytes of the text that it comes from.
#![tactic(auto)]

pub use lig_kern::ByteRange;
pub use outcome::{SpanOutcome, SpanRefusal, SpanSize};
pub use placed_item::PlacedItem;
pub use refusing::MOST_CODES;
pub use setting::{SpanSetter, place_span};
pub use span::Span;

mod outcome;
mod placed_item;
mod refusing;
mod setting;
mod span;
