/// A symbol of a run: a boundary, or a character by its code.
#[derive(Clone, Copy, Debug, PartialEq, Eq)]
pub enum Symbol {
    /// The left boundary, before the first character of the run.
    Left,
    /// A character, by its code.
    Char(u8),
    /// The right boundary, after the last character of the run.
    Right,
}
