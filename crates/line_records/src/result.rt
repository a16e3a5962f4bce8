ghost use Rattle.std.specs.Prelude.{◌≡◌, Result};
ghost use Rattle.lig_kern.specs.Result.{Setting};
ghost use Rattle.set_line.specs.declared.records.text_refusal.TextRefusal.{TextRefusal as TextRefusalValue};
ghost use Rattle.line_records.specs.Results.{IsResult, is_refused};

use set_line::TextRefusal;

/// The width, the number of steps and the numbers of items of a line that is set.
#[derive(Clone, Copy, Debug)]
pub struct Sums {
    /// The width of the items, in sp.
    pub width: i64,
    /// The number of steps.
    pub steps: u32,
    /// The number of items.
    pub items: usize,
    /// The number of characters that were skipped, which are items, too.
    pub skipped: usize,
}

/// The result of a line, without its items.
#[derive(Clone, Copy, Debug)]
pub enum LineResult {
    /// The line was set.
    Set(Sums),
    /// The line was refused.
    Refused(TextRefusal),
}

impl LineResult {
    /// Returns whether the line was refused.
    pub fn is_refused(self) -> bool
        ensures { (line : Result Setting TextRefusalValue) → IsResult line self → result ≡ is_refused line }
    {
        matches!(self, LineResult::Refused(_))
    }
}
