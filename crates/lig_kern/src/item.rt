/// An element of the result of a line. The result of a run has characters and kerns only. Amounts are
/// in scaled points (sp).
#[derive(Clone, Copy, Debug, PartialEq, Eq)]
pub enum Item {
    /// A character, by its code, and its width.
    Char { code: u8, width: i32 },
    /// A kern of this amount, which may be negative.
    Kern(i32),
    /// A space of the line (byte 32), with its width.
    Space(i32),
    /// A byte that is a missing character of the font and was skipped. It has no width.
    Skipped(u8),
}
