//! Takes the characters of a text one after the other.
ghost use Rattle.std.specs.Prelude.{◌≡◌, ◌<◌, ◌++◌, ◌∷◌, [], length, IfSome, MatchOption};
ghost use Rattle.std.specs.Char.{encode_utf8};
ghost use Rattle.std.specs.Str.{chars};

use std::str;

/// Splits a text after its first character. Returns `None` for an empty text.
#[tactic(auto, using(crate::proofs::PlaceLemmas::first_character))]
pub(crate) fn split_first(text: &str) -> Option<(char, &str)>
    ensures cut { MatchOption result (length text.now ≡ 0)
        (λ cut. text.now ≡ encode_utf8 cut.0 ++ cut.1.now) }
    ensures shorter { IfSome result (λ cut. length cut.1.now < length text.now) }
    ensures decoded { MatchOption result (chars text.now ≡ [])
        (λ cut. chars text.now ≡ cut.0 ∷ chars cut.1.now) }
{
    let mut characters = text.chars();
    let first = characters.next()?;
    Some((first, characters.as_str()))
}

/// Returns the number of bytes of a character that begins with this byte.
fn character_len(first: u8) -> usize {
    match first {
        0..=0x7F => 1,
        0x80..=0xDF => 2,
        0xE0..=0xEF => 3,
        _ => 4,
    }
}

/// Splits a text after its first character. Returns `None` if no character begins at its front. The text need
/// not be UTF-8 after this character.
#[tactic(auto, using(crate::proofs::PlaceLemmas::cut_character))]
pub(crate) fn split_character(text: &[u8]) -> Option<(char, &[u8])>
    ensures { IfSome result (λ cut. text.now ≡ encode_utf8 cut.0 ++ cut.1.now) }
{
    let len = character_len(*text.first()?);
    let (front, _) = text.split_at_checked(len)?;
    let front = str::from_utf8(front).ok()?;
    let (character, _) = split_first(front)?;
    let (_, rest) = text.split_at(character.len_utf8());
    Some((character, rest))
}
