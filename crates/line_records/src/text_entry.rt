ghost use Rattle.std.specs.Prelude.{◌≤◌, ◌^◌};
ghost use Rattle.line_records.specs.Additions.{IsWithin};

/// The number of bytes that are copied for each text. It is fixed, because a copy of 32 bytes needs no loop.
pub(crate) const BYTES: usize = 32;

/// What a skipped item adds to a tally besides 1. A tally is the number of items, plus this number for each skipped
/// one, so that a step adds both numbers with one instruction.
pub(crate) const SKIPPED: usize = 1 << 32;

/// The text and the sums of what a byte adds to a line after a symbol. The numbers are as wide as those that
/// they are added to, so that each is added by one instruction. An entry has 64 bytes.
#[derive(Clone, Copy)]
pub(crate) struct TextEntry {
    /// The text, and unused bytes after it.
    pub text: [u8; BYTES],
    /// The number of bytes of the text.
    pub length: usize,
    pub steps: usize,
    /// The tally of the items.
    pub tally: usize,
    /// The width of the items, in sp.
    pub width: i64,
    ghost within: { length ≤ 32 },
    ghost few: { steps ≤ 1 },
    ghost at_most: { tally ≤ 2 ^ 34 },
    ghost narrow: { IsWithin (2 ^ 40) width },
}
