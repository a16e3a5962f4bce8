use encodings::Encoding;
use set_line::Terms;

/// How the lines of a source are set and recorded. The format of the records is that of the writer.
#[derive(Clone, Copy)]
pub struct RecordOf<'a> {
    /// The settings of the lines.
    pub terms: &'a Terms,
    /// The encoding of the font, for lines in UTF-8. Without one, each byte of a line is a code.
    pub encoding: Option<Encoding<'a>>,
    /// The number of the source.
    pub source: u64,
}

/// A line of a source.
#[derive(Clone, Copy)]
pub struct SourceLine<'a> {
    /// The line number.
    pub number: u64,
    /// Whether it is the first line of its source: with an encoding, a byte order mark at its front is then
    /// left out.
    pub first: bool,
    /// Its bytes, without the line feed.
    pub bytes: &'a [u8],
}
