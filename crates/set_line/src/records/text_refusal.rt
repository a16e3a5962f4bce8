use crate::LineRefusal;

/// The reason of a refusal in a record. A line in UTF-8 has two more than a line of bytes.
#[derive(Clone, Copy, Debug, PartialEq, Eq)]
pub enum TextRefusal {
    /// A line of codes is refused.
    Line(LineRefusal),
    /// The line isn't UTF-8: the byte offset at which no character begins, from 0.
    NotUtf8(usize),
    /// A character has no codes in the encoding: its byte offset, from 0, and the character.
    Uncoded { offset: usize, character: char },
}
