/// The left one of two neighbours, whose lig/kern program is searched for a match.
#[derive(Clone, Copy, Debug, PartialEq, Eq)]
pub enum LeftSide {
    /// The left boundary: the virtual element before the first character of a run.
    Boundary,
    /// The character with this code.
    Char(u8),
}
