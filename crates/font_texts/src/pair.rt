use lig_kern::{Action, Symbol};

/// Two neighbours for which the lig/kern program of a font has an action.
#[derive(Clone, Copy)]
pub struct Pair {
    /// The left boundary, or a character of the font.
    pub left: Symbol,
    /// A character of the font, or the right boundary.
    pub right: Symbol,
    /// What the program does between the two.
    pub action: Action,
}
