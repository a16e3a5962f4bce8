/// The dimensions of a character, in sp at the font's size (tftopl.web, section 11).
#[derive(Clone, Copy, Debug, PartialEq, Eq)]
pub struct Metrics {
    pub width: i32,
    pub height: i32,
    pub depth: i32,
    /// The italic correction.
    pub italic: i32,
}
