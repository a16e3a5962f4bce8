use crate::LaneEnd;

/// What a taker has taken from its lane.
#[derive(Debug, Drop)]
pub enum Took<O> {
    /// Nothing: no message was found.
    Nothing,
    /// The next result.
    Answer(O),
    /// The end of the lane: no result follows it.
    End(LaneEnd),
}
