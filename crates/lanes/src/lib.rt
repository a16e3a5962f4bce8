//! The lane of one source: items are fed to a [`Feeder`], a [`Setter`] makes their results, and a [`Taker`]
//! returns these in order. A ring, which is a bounded queue with one producer and one consumer, connects each
//! of these endpoints with the next, so that each may be in a thread of its own.
//!
//! The maker of a lane, a [`Making`], states what an item is and which result is made of it.
#![tactic(auto)]

pub use ending::{LaneEnd, SourceEnd};
pub use fault::SourceFault;
pub use feeder::Feeder;
pub use making::Making;
pub use offer_fault::OfferFault;
pub use opening::open;
pub use run_plan::{Block, Capacity, InlineSlots, Made, Slots, Stored};
pub use setter::Setter;
pub use settling::{Open, settle};
pub use taker::Taker;
pub use took::Took;
pub use turn::Turn;

mod block_size;
mod ending;
mod fault;
mod feeder;
mod making;
mod meeting;
mod message;
mod offer_fault;
mod opening;
mod receiver;
mod sender;
mod setter;
mod settling;
mod taker;
mod took;
mod turn;
