/// The numbers in front of a record.
#[derive(Clone, Copy, Debug, PartialEq, Eq)]
pub struct RecordNumber {
    /// The number of the source.
    pub source: u64,
    /// The line number in this source.
    pub line: u64,
}
