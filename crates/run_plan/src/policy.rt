/// The missing-character policy: what happens if a line has a byte other than the space (32) that the font
/// has no character for.
#[derive(Clone, Copy, Debug, PartialEq, Eq)]
pub enum Policy {
    /// The line is refused.
    Refuse,
    /// The byte is skipped, and is an item of the line.
    Skip,
}
