//! The number of a character.
ghost use Rattle.std.specs.Prelude.{◌≡◌, ◌≤◌, ◌++◌, OnErr, OnOk, vec_capacity};
ghost use Rattle.tfm_words.specs.Appending.{HasNoRoomFor, StaysInFront};
ghost use Rattle.set_line.specs.Record.{character_text, digit_at as digit_in, digits_of, zeros_in_front};

use crate::Version;
use std::alloc::AllocError;
use tfm_words::push_number;

/// Returns the hexadecimal digit of a number at a power of 16; those above 9 are capitals.
fn digit_at(number: u32, power: u32) -> u8
    requires { 1 ≤ power }
    ensures { result ≡ digit_in number power }
{
    let value = (number / power % 16) as u8;
    if value < 10 {
        b'0' + value
    } else {
        b'A' + (value - 10)
    }
}

/// Returns the number of zeros before the last four of six hexadecimal digits.
fn zeros(number: u32) -> usize
    ensures value { result ≡ zeros_in_front number }
    ensures few { result ≤ 2 }
{
    if number < 0x1_0000 {
        return 2;
    }
    if number < 0x10_0000 { 1 } else { 0 }
}

/// Appends bytes, and then at least four hexadecimal digits of a number.
#[tactic(auto, using(tfm_words::proofs::AppendingLemmas::fronts), unfolding(crate::specs::Record::digits_of))]
fn push_digits(text: &mut Vec<u8>, before: &[u8], number: u32) -> Result<(), AllocError>
    ensures front { StaysInFront text.old.items text.new.items }
    ensures pushed { OnOk result (text.new.items ≡ text.old.items ++ before.now ++ digits_of number) }
    ensures grows { vec_capacity text.old ≤ vec_capacity text.new }
    ensures full { OnErr result (HasNoRoomFor text.old (before.now ++ digits_of number)) }
{
    let digits = [
        digit_at(number, 0x10_0000),
        digit_at(number, 0x1_0000),
        digit_at(number, 0x1000),
        digit_at(number, 0x100),
        digit_at(number, 0x10),
        digit_at(number, 1),
    ];
    text.extend_from_slice(before)?;
    text.extend_from_slice(&digits[zeros(number)..])
}

/// Appends bytes, and then the number of a character in a format. After an error some of the bytes may have been
/// appended.
pub(crate) fn push_character(
    text: &mut Vec<u8>,
    before: &[u8],
    character: char,
    version: Version,
) -> Result<(), AllocError>
    ensures front { StaysInFront text.old.items text.new.items }
    ensures pushed { OnOk result (text.new.items
        ≡ text.old.items ++ before.now ++ character_text version character) }
    ensures grows { vec_capacity text.old ≤ vec_capacity text.new }
    ensures full { OnErr result (HasNoRoomFor text.old (before.now ++ character_text version character)) }
{
    if version.is_json() {
        return push_number(text, before, u32::from(character));
    }
    push_digits(text, before, u32::from(character))
}
