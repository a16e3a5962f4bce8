//! Looks up the codes of a character in a vector.
ghost use Rattle.std.specs.Prelude.{◌≡◌, [], ◌∷◌, None, Some, MatchOption};
ghost use Rattle.encodings.specs.Codes.{codes_beside, listed_codes};
ghost use Rattle.encodings.specs.Vectors.{substitute_of, unbroken, vector_characters};

use crate::Vector;
use crate::lookup::only;
use crate::vector_characters::lowest_code;

/// Returns the codes of the no-break space and of the soft hyphen, which are the same in every vector.
fn unbroken_codes(character: char) -> Option<&'static [u8]>
    ensures { MatchOption result (codes_beside unbroken character ≡ None)
        (λ codes. codes_beside unbroken character ≡ Some codes.now) }
{
    match character {
        '\u{A0}' => Some(only(b' ')),
        '\u{AD}' => Some(b""),
        _ => None,
    }
}

/// Returns the character as which this one is set in a vector that doesn't have it, if there is one.
fn substitute(character: char) -> Option<char>
    ensures { result ≡ substitute_of character }
{
    match character {
        '\'' => Some('’'),
        '`' => Some('‘'),
        '\u{2010}' | '\u{2011}' => Some('-'),
        '\u{2012}' => Some('–'),
        '\u{2015}' => Some('—'),
        _ => None,
    }
}

/// Returns the lowest code of a character, or if there is none, that of the character as which it is set.
#[tactic(auto, using(crate::proofs::VectorLemmas::coded))]
fn code_in_vector(characters: &[u32; 256], character: char) -> Option<u8>
    requires { codes_beside unbroken character ≡ None }
    ensures { MatchOption result (listed_codes characters.now character ≡ None)
        (λ code. listed_codes characters.now character ≡ Some (code ∷ [])) }
{
    match lowest_code(characters, u32::from(character)) {
        Some(code) => Some(code),
        None => lowest_code(characters, u32::from(substitute(character)?)),
    }
}

/// Returns the codes of a character where the characters by code have these numbers.
#[tactic(auto, using(crate::proofs::VectorLemmas::listed_fixed))]
pub(crate) fn codes_in_vector(characters: &[u32; 256], character: char) -> Option<&'static [u8]>
    ensures { MatchOption result (listed_codes characters.now character ≡ None)
        (λ codes. listed_codes characters.now character ≡ Some codes.now) }
{
    match unbroken_codes(character) {
        Some(codes) => Some(codes),
        None => Some(only(code_in_vector(characters, character)?)),
    }
}

/// Returns the codes of a character in a vector. Most characters have the code that is tried first.
#[tactic(auto, using(crate::proofs::VectorLemmas::hints))]
pub(crate) fn codes_by_hint(vector: &Vector, character: char) -> Option<&'static [u8]>
    ensures { MatchOption result
        (listed_codes (vector_characters vector.now.characters) character ≡ None)
        (λ codes. listed_codes (vector_characters vector.now.characters) character ≡ Some codes.now) }
{
    let hint = vector.hints[character as usize % 1024];
    if vector.characters[usize::from(hint)] == u32::from(character) {
        return Some(only(hint));
    }
    codes_in_vector(&vector.characters, character)
}
