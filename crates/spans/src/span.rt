/// A part of a text that is set as one run. Every byte of it is a character code, including 10 and 32.
#[derive(Clone, Copy, Debug, PartialEq, Eq)]
pub struct Span {
    /// The byte offset of the first code in the text.
    pub offset: usize,
    /// The number of codes.
    pub length: usize,
    /// The left edge: whether the left boundary of the font precedes the codes.
    pub left: bool,
    /// The right edge: whether the right boundary of the font follows the codes and the hyphen.
    pub right: bool,
    /// The code that is set after the last one as part of the same run, as the pre-break text is that TeX makes when it
    /// hyphenates a word (tex.web, sections 913 to 916).
    pub hyphen: Option<u8>,
}
