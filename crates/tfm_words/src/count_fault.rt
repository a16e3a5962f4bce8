ghost use Rattle.std.specs.Prelude.{Some};
ghost use Rattle.tfm_words.specs.FaultTexts.{count_fault_text};

use crate::{Count, Table};
use std::fmt;
use thiserror::Error;

/// The first error in the counts of a TFM file, in the order of these variants. `Truncated` is checked
/// twice: before all others for the 24 bytes of the counts, and after all others for the whole file
/// (tftopl.web, sections 20 and 21; the order is this project's own).
#[derive(Clone, Copy, Debug, PartialEq, Eq, Error)]
pub enum CountFault {
    /// The file has fewer than `need` bytes: 24, or `4 * lf`.
    Truncated { need: usize },
    /// This count is 2^15 or more. It is the first such count in the file's order.
    CountRange(Count),
    /// `bc` is above `ec + 1`, or `ec` is above 255.
    CharRange,
    /// `lh` is below 2: the header lacks the check sum or the design size.
    HeaderShort,
    /// This table has no entries. It is the first such table among those of widths, heights, depths and
    /// italic corrections.
    EmptyTable(Table),
    /// `ne` is above 256.
    TooManyRecipes,
    /// `lf` isn't 6 (the number of words that contain the counts) plus the lengths of the ten tables.
    LengthEquation,
}

impl fmt::Display for CountFault {
    ghost output = { λ fault. Some (count_fault_text fault) };

    #[tactic(auto, unfolding(crate::specs::FaultTexts::count_fault_text))]
    fn fmt<W: fmt::Write>(&self, f: &mut fmt::Formatter<W>) -> fmt::Result {
        match self {
            CountFault::Truncated { need } => write!(f, "truncated, {need} bytes needed"),
            CountFault::CountRange(count) => write!(f, "count {count} out of range"),
            CountFault::CharRange => f.write_str("character range"),
            CountFault::HeaderShort => f.write_str("header too short"),
            CountFault::EmptyTable(table) => write!(f, "table {table} is empty"),
            CountFault::TooManyRecipes => f.write_str("more than 256 recipes"),
            CountFault::LengthEquation => f.write_str("length equation"),
        }
    }
}
