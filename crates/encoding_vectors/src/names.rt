//! The characters of names.
ghost use Rattle.std.specs.Prelude.{◌≡◌};
ghost use Rattle.encoding_vectors.specs.Names.{character_of};

use crate::glyphs::listed_digits;
use crate::numbers::{numbered_character, written_character};

/// Returns the character of a glyph's name, or `None` if it has none.
#[tactic(auto, unfolding(crate::specs::Names::character_of))]
pub(crate) fn character_of(name: &[u8]) -> Option<char>
    ensures { result ≡ character_of name.now }
{
    match numbered_character(name) {
        Some(character) => Some(character),
        None => written_character(listed_digits(name)?),
    }
}
