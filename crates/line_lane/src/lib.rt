//! The lane of lines: an item is a [`Line`](set_line::Line), its result the [`Answer`](set_line::Answer) with the
//! settings of the lane, and the maker a [`LineMaker`].
//!
//! The types and calls are those of `lanes`. Here they have the names of the endpoints of a lane of lines.
#![tactic(auto)]

pub use endpoints::{Feeder, OfferFault, Open, Setter, Taker, Took};
pub use lanes::{
    Block, Capacity, InlineSlots, LaneEnd, Made, Making, Slots, SourceEnd, SourceFault, Stored,
    Turn, settle,
};
pub use line_maker::LineMaker;
pub use opening::open;

mod endpoints;
mod line_maker;
mod opening;
