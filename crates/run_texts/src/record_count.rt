ghost use Rattle.std.specs.Prelude.{◌≡◌, ◌≤◌, ◌<◌, ◌+◌, ◌^◌, ℕ};

/// The number of records of a lane so far, and the number of refused lines among them.
#[derive(Clone, Copy)]
pub(crate) struct RecordCount {
    /// The number of records.
    pub records: u64,
    /// The number of refused lines among them.
    pub refused: u64,
    ghost within: { refused ≤ records },
    ghost few: { 1 + records < 2 ^ 64 },
}

/// A lane whose refused lines are counted.
pub(crate) trait RefusedCount {
    /// The number of refused lines.
    ghost refused: { Self → ℕ };

    /// Returns the number of refused lines.
    fn refused(&self) -> u64
        ensures { result ≡ refused self.now };
}

impl RefusedCount for RecordCount {
    ghost refused = { λ count. count.refused };

    fn refused(&self) -> u64 {
        self.refused
    }
}
