//! The characters of a vector by code.
ghost use Rattle.std.specs.Prelude.{◌≡◌, ◌<◌, position, nat_eq};
ghost use Rattle.encodings.specs.Vectors.{given_at as given_in, given_characters, is_at_own as is_at_own_in, is_fixed as is_fixed_in, is_place as is_place_in, is_quoted as is_quoted_in, number_at as number_in, numbers_of, own_at as own_in, own_characters, unless_fixed as unless_fixed_number};

use crate::characters::X;
use std::char;

/// Returns the number of the character that a list gives a code, or the mark of a code without one.
fn number_at(characters: &[Option<char>], code: usize) -> u32
    ensures { result ≡ number_in characters.now code }
{
    match characters.get(code) {
        Some(Some(character)) => u32::from(*character),
        Some(None) | None => X,
    }
}

/// Returns the numbers of the characters that a list gives the 256 codes.
#[tactic(auto, using(crate::proofs::VectorLemmas::filled))]
pub(crate) fn numbers(characters: &[Option<char>]) -> [u32; 256]
    ensures { result ≡ numbers_of characters.now }
{
    let mut numbers = [X; 256];
    for code in 0..256 {
        numbers[code] = number_at(characters, code);
    }
    numbers
}

/// Returns whether a character has the same codes in every vector: the space, the no-break space or the soft
/// hyphen.
fn is_fixed(character: char) -> bool
    ensures { result ≡ is_fixed_in character }
{
    character == ' ' || character == '\u{A0}' || character == '\u{AD}'
}

/// Returns a number, or the mark if it isn't that of a character, or is that of a fixed one.
#[tactic(auto, using(crate::proofs::VectorLemmas::unless))]
fn unless_fixed(number: u32) -> u32
    ensures { result ≡ unless_fixed_number number }
{
    match char::from_u32(number) {
        Some(character) if !is_fixed(character) => number,
        _ => X,
    }
}

/// Returns the number of the character at a code, also if a lower code has it.
#[tactic(auto, unfolding(crate::specs::Vectors::given_at))]
fn given_at(numbers: &[u32; 256], code: usize) -> u32
    requires { code < 256 }
    ensures { result ≡ given_in numbers.now code }
{
    if code == 10 {
        return X;
    }
    if code == 32 {
        return 0x20;
    }
    unless_fixed(numbers[code])
}

/// Returns the numbers of the characters at the 256 codes where a list gives them these.
#[tactic(auto, using(crate::proofs::VectorLemmas::given_filled))]
pub(crate) fn given_numbers(numbers: &[u32; 256]) -> [u32; 256]
    ensures { result ≡ given_characters numbers.now }
{
    let mut given = [X; 256];
    for code in 0..256 {
        given[code] = given_at(numbers, code);
    }
    given
}

/// Returns the lowest code of the character with a number.
#[tactic(auto, using(crate::proofs::VectorLemmas::searched))]
pub(crate) fn lowest_code(characters: &[u32; 256], number: u32) -> Option<u8>
    ensures { result ≡ position (λ each. nat_eq each number) characters.now }
{
    for code in 0..256 {
        if characters[code] == number {
            return Some(code as u8);
        }
    }
    None
}

/// Returns whether the code that is the number of a character has this character.
fn is_at_own(characters: &[u32; 256], number: u32) -> bool
    ensures { result ≡ is_at_own_in characters.now number }
{
    (number as usize) < 256 && characters[number as usize] == number
}

/// Returns whether a code sets the character there: the code that is the character's number, if the character is
/// there, and otherwise its lowest code.
#[tactic(auto, using(crate::proofs::VectorLemmas::places))]
fn is_place(characters: &[u32; 256], code: usize) -> bool
    requires { code < 256 }
    ensures { result ≡ is_place_in characters.now code }
{
    let number = characters[code];
    if number as usize == code {
        return true;
    }
    if is_at_own(characters, number) {
        return false;
    }
    match lowest_code(characters, number) {
        Some(lowest) => usize::from(lowest) == code,
        None => false,
    }
}

/// Returns whether a character is `'` or a grave accent, and the characters have ’ or ‘, as which it is then set.
fn is_quoted(characters: &[u32; 256], number: u32) -> bool
    ensures { result ≡ is_quoted_in characters.now number }
{
    match number {
        0x27 => lowest_code(characters, 0x2019).is_some(),
        0x60 => lowest_code(characters, 0x2018).is_some(),
        _ => false,
    }
}

/// Returns the number of the character at a code, or the mark if the code doesn't set it.
#[tactic(auto, using(crate::proofs::VectorLemmas::own))]
fn own_at(characters: &[u32; 256], code: usize) -> u32
    requires { code < 256 }
    ensures { result ≡ own_in characters.now code }
{
    let number = characters[code];
    if is_place(characters, code) && !is_quoted(characters, number) {
        return number;
    }
    X
}

/// Returns the numbers of the characters, each at the code that sets it alone.
#[tactic(auto, using(crate::proofs::VectorLemmas::own_filled))]
pub(crate) fn own_numbers(characters: &[u32; 256]) -> [u32; 256]
    ensures { result ≡ own_characters characters.now }
{
    let mut own = [X; 256];
    for code in 0..256 {
        own[code] = own_at(characters, code);
    }
    own
}

/// Returns for each number of ten bits a code that is tried first for characters with these lowest bits.
pub(crate) fn hints(numbers: &[u32; 256]) -> [u8; 1024] {
    let mut hints = [0; 1024];
    for code in 0..256 {
        hints[numbers[code] as usize % 1024] = code as u8;
    }
    hints
}
