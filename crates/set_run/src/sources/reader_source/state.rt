use lanes::SourceFault;

/// How far a reader has been read.
#[derive(Clone, Copy, Drop)]
pub(crate) enum ReaderState {
    /// It may have more bytes.
    Open,
    /// Its end was reached.
    AtEnd,
    /// An error occurred: it isn't read again.
    Failed(SourceFault),
}
