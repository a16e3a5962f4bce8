//! Reads the font of a call, and defines the codes for other failures than a lack of room.
ghost use Rattle.std.specs.Prelude.{◌≡◌, ◌≤◌, IfOk, IfErr};
ghost use Rattle.tfmset_c.specs.Reading.{IsDenial, IsOpened, denial_number};

use std::alloc::Global;
use tfm_tables::{Font, FontFault, FontMetrics};
use tfm_words::Size;

/// The font is refused.
pub const REFUSED: u32 = 1;
/// An allocation failed.
pub const MEMORY: u32 = 2;
/// An argument is out of range.
pub const RANGE: u32 = 4;

/// The largest size, in sp.
pub const MOST_SIZE: u32 = 134_217_727;

/// The reason why no font was read.
#[derive(Clone, Copy, Debug)]
pub enum Denial {
    /// An allocation failed.
    Memory,
    /// The font is refused; this is its first error.
    Refused(FontFault),
}

impl Denial {
    /// Returns the code that reports this reason: 1 or 2.
    pub fn code(self) -> u32
        ensures { result ≡ denial_number self }
    {
        match self {
            Denial::Memory => MEMORY,
            Denial::Refused(_) => REFUSED,
        }
    }
}

/// Reads the font in these bytes, without the tables that are needed only to set lines. `size` is in sp, and
/// 0 is the design size. Returns a `Denial` if the font is refused, or an allocation fails.
#[tactic(auto, using(crate::proofs::ReadingLemmas::opened), unfolding(crate::specs::Reading::asked_size))]
pub fn read_metrics(alloc: Global, bytes: &[u8], size: u32) -> Result<FontMetrics, Denial>
    requires { size ≤ 134217727 }
    ensures ok { IfOk result (IsOpened bytes.now size) }
    ensures denied { IfErr result (IsDenial bytes.now) }
{
    match FontMetrics::read(alloc, bytes, Size::new(size)) {
        Ok(font) => Ok(font),
        Err(FontFault::OutOfMemory) => Err(Denial::Memory),
        Err(fault) => Err(Denial::Refused(fault)),
    }
}

/// Reads the font in these bytes as `read_metrics` does, and makes the tables that are needed to set lines.
pub fn read_font(alloc: Global, bytes: &[u8], size: u32) -> Result<Font, Denial>
    requires { size ≤ 134217727 }
    ensures ok { IfOk result (IsOpened bytes.now size) }
    ensures denied { IfErr result (IsDenial bytes.now) }
{
    let metrics = read_metrics(alloc, bytes, size)?;
    match Font::new(alloc, metrics) {
        Ok(font) => Ok(font),
        Err(_) => Err(Denial::Memory),
    }
}
