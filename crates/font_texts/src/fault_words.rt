//! The text of a font error: its number and its description.
ghost use Rattle.std.specs.Prelude.{◌≡◌, Some};
ghost use Rattle.font_texts.specs.FaultWords.{count_fault_number, fault_number, fault_words};

use std::fmt;
use tfm_tables::FontFault;
use tfm_words::CountFault;

/// A font error, which `Display` writes with its number before it. The numbers 1 to 14 are in the order in
/// which a font is checked; 15 means that an allocation failed. A file that ends within its counts has number
/// 1, and a file that ends after its counts has number 8.
#[derive(Clone, Copy)]
pub struct Numbered(pub FontFault);

impl fmt::Display for Numbered {
    ghost output = { λ numbered. Some (fault_words numbered.0) };

    #[tactic(auto, unfolding(crate::specs::FaultWords::fault_words))]
    fn fmt<W: fmt::Write>(&self, f: &mut fmt::Formatter<W>) -> fmt::Result {
        let fault = self.0;
        let number = number_of(fault);
        write!(f, "{number} {fault}")
    }
}

/// Returns the number of a font error, as [`Numbered`] writes it.
#[tactic(auto, unfolding(crate::specs::FaultWords::fault_number))]
pub fn number_of(fault: FontFault) -> u8
    ensures { result ≡ fault_number fault }
{
    match fault {
        FontFault::Counts(fault) => count_number_of(fault),
        FontFault::Design(_) => 9,
        FontFault::CharIndex { .. } => 10,
        FontFault::LigStart(_) => 11,
        FontFault::FirstNotZero(_) => 12,
        FontFault::FixWordRange { .. } => 13,
        FontFault::Step { .. } => 14,
        FontFault::OutOfMemory => 15,
    }
}

#[tactic(auto, unfolding(crate::specs::FaultWords::count_fault_number))]
fn count_number_of(fault: CountFault) -> u8
    ensures { result ≡ count_fault_number fault }
{
    match fault {
        CountFault::Truncated { need } => { if need == 24 { 1 } else { 8 } }
        CountFault::CountRange(_) => 2,
        CountFault::CharRange => 3,
        CountFault::HeaderShort => 4,
        CountFault::EmptyTable(_) => 5,
        CountFault::TooManyRecipes => 6,
        CountFault::LengthEquation => 7,
    }
}
