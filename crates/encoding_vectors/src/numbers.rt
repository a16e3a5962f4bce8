//! Characters whose numbers are in their names.
ghost use Rattle.std.specs.Prelude.{◌≡◌, ◌<◌, ◌≤◌, ◌^◌, IfSome, MatchOption, None, Some, true, false, length, option_and_then};
ghost use Rattle.std.specs.Char.{digit_value};
ghost use Rattle.encoding_vectors.specs.Names.{as_character, digits_of_name, hex_number as hex_number_of, is_upper_hex, numbered_character, written_character};

use std::char;

/// Returns the value of a hexadecimal digit in upper case, or `None` for any other byte.
fn upper_hex_digit(byte: u8) -> Option<u32>
    ensures digit { MatchOption result (is_upper_hex byte ≡ false) (λ digit. is_upper_hex byte ≡ true) }
    ensures value { IfSome result (λ digit. digit ≡ digit_value byte) }
    ensures small { IfSome result (λ digit. digit < 16) }
{
    match byte {
        b'0'..=b'9' => Some(u32::from(byte - b'0')),
        b'A'..=b'F' => Some(u32::from(byte - b'A') + 10),
        _ => None,
    }
}

/// Returns the number that hexadecimal digits in upper case write, or `None` if there is any other byte.
fn hex_number(digits: &[u8]) -> Option<u32>
    requires { length digits.now ≤ 6 }
    ensures { result ≡ hex_number_of digits.now }
{
    let mut number = 0;
    for digit in digits {
        number = 16 * number + upper_hex_digit(*digit)?;
    }
    Some(number)
}

/// Returns the part of a name that has to be a number, if the name has the form `uniXXXX`, or `uXXXX` to
/// `uXXXXXX`.
fn digits_of(name: &[u8]) -> Option<&[u8]>
    ensures digits { MatchOption result (digits_of_name name.now ≡ None)
        (λ digits. digits_of_name name.now ≡ Some digits.now) }
    ensures few { IfSome result (λ digits. length digits.now ≤ 6) }
{
    if name.len() == 7 && &name[..3] == b"uni".as_slice() {
        return Some(&name[3..]);
    }
    if name.len() < 5 || name.len() > 7 || name[0] != b'u' {
        return None;
    }
    Some(&name[1..])
}

/// Returns the character whose number hexadecimal digits in upper case write, or `None` if they write none.
#[tactic(auto, unfolding(crate::specs::Names::written_character))]
pub(crate) fn written_character(digits: &[u8]) -> Option<char>
    requires { length digits.now ≤ 6 }
    ensures { result ≡ written_character digits.now }
{
    char::from_u32(hex_number(digits)?)
}

/// Returns the character whose number a name states, or `None` if it states none.
#[tactic(auto, unfolding(crate::specs::Names::numbered_character))]
pub(crate) fn numbered_character(name: &[u8]) -> Option<char>
    ensures { result ≡ numbered_character name.now }
{
    written_character(digits_of(name)?)
}
