/// How far a line is written. The row is a `usize` so that there are no unused bytes between the fields: they
/// would be copied in each step.
#[derive(Clone, Copy)]
pub(crate) struct LineState {
    /// The row of the current symbol in the table, below 256.
    pub row: usize,
    /// The number of bytes of the text.
    pub length: usize,
    /// The number of steps.
    pub steps: usize,
    /// The number of items, plus [`SKIPPED`] for each skipped one.
    ///
    /// [`SKIPPED`]: crate::text_entry::SKIPPED
    pub tally: usize,
    /// The width of the items, in sp.
    pub width: i64,
}
