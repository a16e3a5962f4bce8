ghost use Rattle.std.specs.Prelude.{◌≡◌, Some};
ghost use Rattle.tfm_words.specs.Counts.{AreCountsOf};
ghost use Rattle.tfm_words.specs.DesignSize.{design_size_of};
ghost use Rattle.tfm_words.specs.FaultTexts.{design_fault_text};

use crate::{Counts, FixWord, Size, word_at};
use std::fmt;
use thiserror::Error;

/// 1.0 as a fix_word: as a design size, 1 pt.
const ONE_POINT: i32 = 0x10_0000;

/// The error in the design size of a TFM file.
#[derive(Clone, Copy, Debug, PartialEq, Eq, Error)]
pub enum DesignFault {
    /// The design size is below 1 pt, or negative.
    DesignSize,
}

impl fmt::Display for DesignFault {
    ghost output = { λ fault. Some (design_fault_text fault) };

    #[tactic(auto, unfolding(crate::specs::FaultTexts::design_fault_text))]
    fn fmt<W: fmt::Write>(&self, f: &mut fmt::Formatter<W>) -> fmt::Result {
        match self {
            DesignFault::DesignSize => f.write_str("design size"),
        }
    }
}

/// Returns the design size of a TFM file, which is the size that the font was drawn for. It is the
/// second word of the header, a number of points in units of 2^-20, rounded down to whole sp. The
/// error is `DesignSize` for a design size below 1 pt, which includes negative numbers (tex.web,
/// section 568).
pub fn design_size(bytes: &[u8], counts: &Counts) -> Result<Size, DesignFault>
    requires { AreCountsOf bytes.now counts.now }
    ensures { result ≡ design_size_of bytes.now }
{
    let FixWord(units) = FixWord::of(word_at(bytes, 7));
    if units < ONE_POINT {
        return Err(DesignFault::DesignSize);
    }
    Size::new(units as u32 / 16).ok_or(DesignFault::DesignSize)
}
