use line_records::LineResult;
use set_line::{LineRefusal, TextRefusal};

/// The numbers of lines that were set, and that were refused for each reason, and of characters that were skipped. Sums
/// saturate at 2^64 - 1.
#[derive(Clone, Copy, Debug, Default)]
pub struct LineCounts {
    pub set: u64,
    pub too_long: u64,
    /// The number of lines that aren't UTF-8.
    pub encoding: u64,
    pub uncoded: u64,
    pub missing: u64,
    pub steps: u64,
    /// The number of characters that were skipped, in lines that were set.
    pub skipped: u64,
    /// The number of lines that were set in which characters were skipped.
    pub lines_with_skipped: u64,
}

/// Adds to a number of lines or characters.
fn add(count: &mut u64, more: u64) {
    *count = count.saturating_add(more);
}

impl LineCounts {
    /// Counts a line with this result.
    pub fn count(&mut self, line: LineResult) {
        let count = match line {
            LineResult::Set(sums) => {
                if sums.skipped > 0 {
                    add(&mut self.skipped, sums.skipped as u64);
                    add(&mut self.lines_with_skipped, 1);
                }
                &mut self.set
            }
            LineResult::Refused(TextRefusal::Line(LineRefusal::TooLong(_))) => &mut self.too_long,
            LineResult::Refused(TextRefusal::NotUtf8(_)) => &mut self.encoding,
            LineResult::Refused(TextRefusal::Uncoded { .. }) => &mut self.uncoded,
            LineResult::Refused(TextRefusal::Line(LineRefusal::Missing { .. })) =>
                &mut self.missing,
            LineResult::Refused(TextRefusal::Line(LineRefusal::Steps(_))) => &mut self.steps,
        };
        add(count, 1);
    }

    /// Adds the numbers of further lines.
    pub fn add(&mut self, more: &LineCounts) {
        add(&mut self.set, more.set);
        add(&mut self.too_long, more.too_long);
        add(&mut self.encoding, more.encoding);
        add(&mut self.uncoded, more.uncoded);
        add(&mut self.missing, more.missing);
        add(&mut self.steps, more.steps);
        add(&mut self.skipped, more.skipped);
        add(&mut self.lines_with_skipped, more.lines_with_skipped);
    }
}
