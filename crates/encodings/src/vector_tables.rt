//! Makes the table of single codes of a vector.
ghost use Rattle.std.specs.Prelude.{◌≡◌, ◌<◌, Some};
ghost use Rattle.encodings.specs.VectorTables.{character_indexed as character_with, single_at as single_in, single_of, single_with as single_with_in, singles_of};

use crate::tables::{PUNCTUATION, SingleCodes, X, is_apart};
use crate::vector_codes::codes_in_vector;
use std::char;

/// Returns the character whose entry has an index.
fn character_indexed(index: usize) -> Option<char>
    requires { index < 448 }
    ensures { result ≡ Some (character_with index) }
{
    if index < PUNCTUATION {
        return char::from_u32(index as u32);
    }
    char::from_u32(0x2000 + (index - PUNCTUATION) as u32)
}

/// Returns the code if these are a single one, and the mark of none or several otherwise.
fn single_or_mark(codes: &[u8]) -> u16
    ensures { result ≡ single_of (Some codes.now) }
{
    match codes {
        [code] => u16::from(*code),
        _ => X,
    }
}

/// Returns the entry of a character where the characters by code have these numbers.
fn single_with(characters: &[u32; 256], character: char) -> u16
    ensures { result ≡ single_with_in characters.now character }
{
    match codes_in_vector(characters, character) {
        Some(codes) if !is_apart(character) => single_or_mark(codes),
        _ => X,
    }
}

/// Returns the entry with an index.
fn single_at(characters: &[u32; 256], index: usize) -> u16
    requires { index < 448 }
    ensures { result ≡ single_in characters.now index }
{
    match character_indexed(index) {
        Some(character) => single_with(characters, character),
        None => X,
    }
}

/// Returns the table of single codes where the characters by code have these numbers.
#[tactic(auto, using(crate::proofs::TableLemmas::table_filled))]
pub(crate) fn singles(characters: &[u32; 256]) -> SingleCodes
    ensures { result ≡ singles_of characters.now }
{
    let mut singles = [X; 448];
    for index in 0..448 {
        singles[index] = single_at(characters, index);
    }
    singles
}
