/// The result of one round over the lanes, or of one visit to a lane.
#[derive(Clone, Copy, PartialEq, Eq)]
pub(crate) enum Progress {
    /// Nothing is left to do.
    Done,
    /// Something was done.
    Made,
    /// Nothing could be done yet.
    None,
}
