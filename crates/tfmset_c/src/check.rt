//! `tfmset_check` and `tfmset_fault_text`: check a font.
ghost use Rattle.std.specs.Prelude.{◌≡◌, ◌≢◌, ◌≤◌, ◌⊎◌, IfOk, Some, None};
ghost use Rattle.std.specs.Option.{option_map};
ghost use Rattle.tfm_tables.specs.Acceptance.{font_fault_of};
ghost use Rattle.tfmset_c.specs.Arrays.{IsListed};
ghost use Rattle.tfmset_c.specs.Faults.{count_fault_told, fault_text_of, fault_told};

use crate::arrays::{DONE, report};
use crate::reading::{Denial, MEMORY, read_metrics};
use font_texts::Numbered;
use std::alloc::{AllocError, Global};
use tfm_tables::FontFault;
use tfm_words::CountFault;

/// The first error of a font.
#[repr(C)]
#[derive(Clone, Copy, Debug, PartialEq, Eq)]
pub struct TfmsetFault {
    /// Errors 1 and 8: the number of bytes needed. 10 and 11: a character code. 13: the index of an entry in
    /// its table, starting at 0, or the number of a parameter, starting at 1. 14: the address of an
    /// instruction. Otherwise 0.
    pub place: usize,
    /// The number of the error, from 1 to 14 (docs/ERRORS.md).
    pub number: u32,
    /// Error 2: a count. 5, 10, 12 and 13: a table. 14: a part of an instruction. Counts and tables are
    /// numbered in the order of the file, and parts in the order of the checks, each starting at 0. Otherwise
    /// 0.
    pub named: u32,
}

fn fault(number: u32, named: u32, place: usize) -> TfmsetFault
    ensures { result ≡ record { number = number; named = named; place = place } }
{
    TfmsetFault {
        place,
        number,
        named,
    }
}

/// Returns an error of the counts as C gets it.
#[tactic(auto, unfolding(crate::specs::Faults::count_fault_told))]
fn count_fault_for_c(first: CountFault) -> TfmsetFault
    ensures { result ≡ count_fault_told first }
{
    match first {
        CountFault::Truncated { need } => fault(if need == 24 { 1 } else { 8 }, 0, need),
        CountFault::CountRange(count) => fault(2, count as u32, 0),
        CountFault::CharRange => fault(3, 0, 0),
        CountFault::HeaderShort => fault(4, 0, 0),
        CountFault::EmptyTable(table) => fault(5, table as u32, 0),
        CountFault::TooManyRecipes => fault(6, 0, 0),
        CountFault::LengthEquation => fault(7, 0, 0),
    }
}

/// Returns a font error as C gets it. A failed allocation isn't a font error, and gets number 0.
#[tactic(auto, unfolding(crate::specs::Faults::fault_told))]
fn fault_for_c(first: FontFault) -> TfmsetFault
    ensures { result ≡ fault_told first }
{
    match first {
        FontFault::Counts(counts) => count_fault_for_c(counts),
        FontFault::Design(_) => fault(9, 0, 0),
        FontFault::CharIndex { code, table } => fault(10, table as u32, usize::from(code)),
        FontFault::LigStart(code) => fault(11, 0, usize::from(code)),
        FontFault::FirstNotZero(table) => fault(12, table as u32, 0),
        FontFault::FixWordRange { table, index } => fault(13, table as u32, index),
        FontFault::Step { index, part } => fault(14, part as u32, index),
        FontFault::OutOfMemory => fault(0, 0, 0),
    }
}

/// Checks a font. Returns: 0 if the font is accepted; 1 if it is refused, with its first error in `told`; 2 if an
/// allocation fails. After every code except 1 `told` is unchanged.
#[unsafe(no_mangle)]
pub extern "C" fn tfmset_check(alloc: Global, font: &[u8], told: &mut TfmsetFault) -> u32
    ensures answers { result ≤ 2 }
    ensures accepted { result ≢ 1 → font_fault_of font.now ≡ None }
    ensures refused { result ≡ 1 → option_map fault_told (font_fault_of font.now) ≡ Some told.new }
    ensures kept { result ≢ 1 → told.new ≡ told.old }
{
    match read_metrics(alloc, font, 0) {
        Ok(_) => DONE,
        Err(denial) => {
            if let Denial::Refused(fault) = denial {
                *told = fault_for_c(fault);
            }
            denial.code()
        }
    }
}

/// Returns the text of the first error of a font, which is empty for an accepted font. The error means that an
/// allocation failed.
fn fault_text(alloc: Global, font: &[u8]) -> Result<Vec<u8>, AllocError>
    ensures { IfOk result (λ text. text.items ≡ fault_text_of font.now) }
{
    match read_metrics(alloc, font, 0) {
        Err(Denial::Refused(fault)) => Ok(Numbered(fault).to_string(alloc)?.into_bytes()),
        Err(Denial::Memory) | Ok(_) => Ok(Vec::new(alloc)),
    }
}

/// Reports the text of the first error of a font, its number and its description as the program prints them, in the
/// array `text`. The text of an accepted font is empty. Returns: 0 after success; 2 if an allocation fails, with
/// nothing changed; 3 if `text` is too short, which is then unchanged. `count` is the number of bytes.
#[unsafe(no_mangle)]
pub extern "C" fn tfmset_fault_text(
    alloc: Global,
    font: &[u8],
    text: &mut [u8],
    count: &mut usize,
) -> u32
    ensures answers { (result ≡ 0) ⊎ ((result ≡ 2) ⊎ (result ≡ 3)) }
    ensures told { IsListed (fault_text_of font.now) result count.old count.new text.old text.new }
{
    match fault_text(alloc, font) {
        Ok(told) => report(&told, text, count),
        Err(_) => MEMORY,
    }
}
