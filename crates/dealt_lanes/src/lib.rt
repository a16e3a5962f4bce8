//! Several lanes for one source, so that several threads can set its lines: a [`Dealer`] deals the items of
//! the source over the lanes in turn, and a [`Gatherer`] takes the results of the lanes in the same turn. The
//! setters of the lanes are between them, and each may be in a thread of its own.
#![tactic(auto)]

pub use dealer::Dealer;
pub use gatherer::Gatherer;
pub use opening::open_shared;
pub use settling::settle_lanes;
pub use shared::Shared;

mod dealer;
mod feeding;
mod gatherer;
mod opening;
mod settling;
mod shared;
mod taking;
mod turn;
