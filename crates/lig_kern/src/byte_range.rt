/// A range of the bytes of a text, from `start` to before `end`. It is empty if both are equal.
#[derive(Clone, Copy, Debug, PartialEq, Eq)]
pub struct ByteRange {
    /// The byte offset of its first byte in the text.
    pub start: usize,
    /// The byte offset after its last byte.
    pub end: usize,
}
