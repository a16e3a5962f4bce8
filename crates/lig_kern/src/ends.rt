/// What stands before and after the codes of a run, and where they begin.
#[derive(Clone, Copy, Debug, PartialEq, Eq)]
pub struct Ends {
    /// The byte offset of the first code in the text from which the run is taken.
    pub offset: usize,
    /// Whether the left boundary precedes the codes.
    pub left: bool,
    /// The code of one more character after them, which comes from no byte of the text.
    pub hyphen: Option<u8>,
    /// Whether the right boundary follows if the font has a right boundary character.
    pub right: bool,
}
