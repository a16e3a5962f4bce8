//! The codes of characters as tables, from which they are looked up.
ghost use Rattle.std.specs.Prelude.{◌≡◌};
ghost use Rattle.encodings.specs.Codes.{is_apart as is_apart_in};
ghost use Rattle.encodings.specs.Lookup.{others_in, singles_in};

use crate::Encoding;
use crate::tables::latin1::{LATIN1_OTHERS, LATIN1_SINGLE};
use crate::tables::ly1::{LY1_OTHERS, LY1_SINGLE};
use crate::tables::ot1::{OT1_OTHERS, OT1_SINGLE};
use crate::tables::t1::{T1_OTHERS, T1_SINGLE};

mod latin1;
mod ly1;
mod ot1;
mod t1;

/// In a table of single codes, the mark of a character that has several codes or none.
pub(crate) const X: u16 = 256;

/// The index of the entry of U+2000 in a table of single codes.
pub(crate) const PUNCTUATION: usize = 384;

/// The single codes of the characters up to U+017F, and of those from U+2000 to U+203F, which include quotation
/// marks and dashes.
pub(crate) type SingleCodes = [u16; 448];

/// A character, the number of its codes, and these codes with zeros after them.
pub(crate) type OtherCodes = (char, u8, [u8; 3]);

/// Returns whether a character is set apart from its neighbours: the soft hyphen or the non-breaking hyphen.
pub(crate) fn is_apart(character: char) -> bool
    ensures { result ≡ is_apart_in character }
{
    character == '\u{AD}' || character == '\u{2011}'
}

/// Returns the table of single codes.
#[tactic(auto, unfolding(crate::specs::Lookup::singles_in))]
pub(crate) fn single_codes<'a>(encoding: Encoding<'a>) -> &'a SingleCodes
    ensures { result.now ≡ singles_in encoding.entry }
{
    match encoding {
        Encoding::Ot1 => &OT1_SINGLE,
        Encoding::T1 => &T1_SINGLE,
        Encoding::Ly1 => &LY1_SINGLE,
        Encoding::Latin1 => &LATIN1_SINGLE,
        Encoding::Vector(vector) => &vector.singles,
    }
}

/// Returns the codes of all other characters that have any; those of a vector aren't in a table.
#[tactic(auto, unfolding(crate::specs::Lookup::others_in))]
pub(crate) fn other_codes(encoding: Encoding) -> &'static [OtherCodes]
    ensures { result.now ≡ others_in encoding.entry }
{
    match encoding {
        Encoding::Ot1 => &OT1_OTHERS,
        Encoding::T1 => &T1_OTHERS,
        Encoding::Ly1 => &LY1_OTHERS,
        Encoding::Latin1 => &LATIN1_OTHERS,
        Encoding::Vector(_) => &[],
    }
}
