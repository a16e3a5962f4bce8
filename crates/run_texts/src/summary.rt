ghost use Rattle.std.specs.Prelude.{◌≡◌};
ghost use Rattle.run_texts.specs.Endings.{summary_status};

/// The summary of a batch.
#[derive(Clone, Copy, Debug, PartialEq, Eq)]
pub struct Summary {
    /// The number of refused lines, or 2^64 - 1 if it is larger.
    pub refused: u64,
    /// A read of some source failed, or a line needed too many reads.
    pub read_failed: bool,
    /// An allocation failed in a source or a setter.
    pub memory: bool,
}

/// Returns the exit status after the output was written: 5 if an allocation failed; otherwise 4 if a source
/// wasn't read to its end; otherwise 1 if a line was refused; otherwise 0.
pub fn status(summary: &Summary) -> u8
    ensures { result ≡ summary_status summary.now }
{
    if summary.memory {
        5
    } else if summary.read_failed {
        4
    } else if summary.refused > 0 {
        1
    } else {
        0
    }
}
