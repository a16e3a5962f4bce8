//! How a batch with a collector ended.
use crate::Refusal;
use lanes::LaneEnd;

/// A source whose results a collector received, and the end of its lane.
#[derive(Drop)]
pub struct ClosedLane<S> {
    /// The source, as its thread returned it.
    pub source: S,
    /// How its lane ended, or `None` if the collector didn't receive the end, because it refused the end or
    /// something before it.
    pub end: Option<LaneEnd>,
}

/// How a batch with a collector ended.
#[derive(Drop)]
pub struct RunEnd<S> {
    /// The closed lane of each source, in the order of the sources.
    pub lanes: Vec<ClosedLane<S>>,
    /// The refusal of the collector, if any. If there is none, each lane has its end.
    pub refusal: Option<Refusal>,
}
