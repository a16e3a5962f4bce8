//! Looks up the codes of a character.
ghost use Rattle.std.specs.Prelude.{◌≡◌, ◌≤◌, true, [], ◌∷◌, None, Some, MatchOption, get_or};
ghost use Rattle.encodings.specs.Codes.{codes_beside, codes_of as codes_of_character};
ghost use Rattle.encodings.specs.Lookup.{index_of, rows_of, singles_in};

use crate::Encoding;
use crate::tables::{OtherCodes, PUNCTUATION, other_codes, single_codes};
use crate::vector_codes::codes_by_hint;

/// Every code, at its own index.
static CODES: [u8; 256] = [
    0, 1, 2, 3, 4, 5, 6, 7, 8, 9, 10, 11, 12, 13, 14, 15, 16, 17, 18, 19, 20, 21, 22, 23, 24, 25,
    26, 27, 28, 29, 30, 31, 32, 33, 34, 35, 36, 37, 38, 39, 40, 41, 42, 43, 44, 45, 46, 47, 48, 49,
    50, 51, 52, 53, 54, 55, 56, 57, 58, 59, 60, 61, 62, 63, 64, 65, 66, 67, 68, 69, 70, 71, 72, 73,
    74, 75, 76, 77, 78, 79, 80, 81, 82, 83, 84, 85, 86, 87, 88, 89, 90, 91, 92, 93, 94, 95, 96, 97,
    98, 99, 100, 101, 102, 103, 104, 105, 106, 107, 108, 109, 110, 111, 112, 113, 114, 115, 116,
    117, 118, 119, 120, 121, 122, 123, 124, 125, 126, 127, 128, 129, 130, 131, 132, 133, 134, 135,
    136, 137, 138, 139, 140, 141, 142, 143, 144, 145, 146, 147, 148, 149, 150, 151, 152, 153, 154,
    155, 156, 157, 158, 159, 160, 161, 162, 163, 164, 165, 166, 167, 168, 169, 170, 171, 172, 173,
    174, 175, 176, 177, 178, 179, 180, 181, 182, 183, 184, 185, 186, 187, 188, 189, 190, 191, 192,
    193, 194, 195, 196, 197, 198, 199, 200, 201, 202, 203, 204, 205, 206, 207, 208, 209, 210, 211,
    212, 213, 214, 215, 216, 217, 218, 219, 220, 221, 222, 223, 224, 225, 226, 227, 228, 229, 230,
    231, 232, 233, 234, 235, 236, 237, 238, 239, 240, 241, 242, 243, 244, 245, 246, 247, 248, 249,
    250, 251, 252, 253, 254, 255,
];

/// Returns a code as a list of codes.
#[tactic(auto, using(crate::proofs::TableLemmas::code_alone))]
pub(crate) fn only(code: u8) -> &'static [u8]
    ensures { result.now ≡ code ∷ [] }
{
    let at = usize::from(code);
    &CODES[at..at + 1]
}

/// Returns the codes in the row of a character, or `None` if there is no such row.
fn codes_in_row(rows: &[OtherCodes], character: char) -> Option<&[u8]>
    ensures { MatchOption result (codes_beside (rows_of rows.now) character ≡ None)
        (λ codes. codes_beside (rows_of rows.now) character ≡ Some codes.now) }
{
    for (other, count, codes) in rows {
        if *other == character {
            return Some(&codes[..usize::from(*count).min(3)]);
        }
    }
    None
}

/// Returns the index of a character in a table of single codes, or the number of entries for a character that
/// isn't in the table.
fn index_of(character: char) -> usize
    ensures { result ≡ index_of character }
{
    let number = character as usize;
    if number < PUNCTUATION {
        return number;
    }
    if 0x2000 <= number && number < 0x2040 {
        return PUNCTUATION + (number - 0x2000);
    }
    448
}

/// Returns the code of a character that has a single code in the table.
fn single_code(encoding: Encoding, character: char) -> Option<u8>
    ensures { MatchOption result (256 ≤ get_or (singles_in encoding.entry) (index_of character) 256)
        (λ code. get_or (singles_in encoding.entry) (index_of character) 256 ≡ code) }
{
    let single = *single_codes(encoding).get(index_of(character))?;
    u8::try_from(single).ok()
}

/// Returns the codes of a character that has no single code in the table.
#[tactic(auto, using(crate::proofs::TableLemmas::found))]
fn other_codes_of(encoding: Encoding, character: char) -> Option<&'static [u8]>
    requires { 256 ≤ get_or (singles_in encoding) (index_of character) 256 }
    ensures { MatchOption result (codes_of_character encoding.entry character ≡ None)
        (λ codes. codes_of_character encoding.entry character ≡ Some codes.now) }
{
    match encoding {
        Encoding::Ot1 | Encoding::T1 | Encoding::Ly1 | Encoding::Latin1 => {
            codes_in_row(other_codes(encoding), character)
        }
        Encoding::Vector(vector) => codes_by_hint(vector, character),
    }
}

/// Returns the codes of a character in an encoding, or `None` if it has none. The soft hyphen has an empty list of
/// codes; in an encoded line it is a break.
#[tactic(auto, using(crate::proofs::TableLemmas::found))]
pub fn codes_of(encoding: Encoding, character: char) -> Option<&'static [u8]>
    ensures { MatchOption result (codes_of_character encoding.entry character ≡ None)
        (λ codes. codes_of_character encoding.entry character ≡ Some codes.now) }
{
    match single_code(encoding, character) {
        Some(code) => Some(only(code)),
        None => other_codes_of(encoding, character),
    }
}
