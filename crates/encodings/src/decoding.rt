//! Reads the characters of a text, and appends their numbers to a line.
ghost use Rattle.std.specs.Prelude.{◌≡◌, ◌<◌, ◌≤◌, ◌++◌, ◌∷◌, true, [], length, take, IfSome, IsTrue, OnOk, OnSome};
ghost use Rattle.std.specs.List.{list_all};
ghost use Rattle.encodings.specs.Decoding.{IsIndexed, IsRead, IsSingle, is_plain as is_plain_in};
ghost use Rattle.encodings.specs.Lines.{break_number, numbers_of};

use crate::cutting::split_character;
use crate::tables::{PUNCTUATION, SingleCodes, is_apart, single_codes};
use crate::{EncodedLine, Encoding, codes_of};
use std::alloc::AllocError;

/// Returns whether a byte is an ASCII character whose only code, in this table, is the byte itself.
pub(crate) fn is_plain(singles: &SingleCodes, byte: u8) -> bool
    ensures { result ≡ is_plain_in singles.now byte }
{
    byte < 128 && singles[usize::from(byte)] == u16::from(byte)
}

/// Returns the number of bytes at the front of a text that are plain.
fn plain_len(singles: &SingleCodes, text: &[u8]) -> usize
    ensures within { result ≤ length text.now }
    ensures plain { list_all (is_plain_in singles.now) (take result text.now) ≡ true }
{
    let mut len = 0;
    while len < text.len() && is_plain(singles, text[len]) {
        len += 1;
    }
    len
}

/// Appends the plain bytes at the front of a text as they are, which is faster. Returns the text after them, or
/// `None` if an allocation fails.
#[tactic(auto, using(crate::proofs::DecodingLemmas::plain))]
fn push_plain<'a>(encoding: Encoding, text: &'a [u8], line: &mut EncodedLine) -> Option<&'a [u8]>
    ensures { IfSome result (λ rest. IsRead encoding.entry text.now rest.now line.old line.new) }
{
    let (plain, rest) = text.split_at(plain_len(single_codes(encoding), text));
    line.push_codes(plain).ok()?;
    Some(rest)
}

/// Returns whether a byte is a later one of a character of several bytes.
fn is_later(byte: u8) -> bool
    ensures above { IsTrue result → 0x80 ≤ byte }
    ensures below { IsTrue result → byte < 0xC0 }
{
    0x80 <= byte && byte < 0xC0
}

/// Returns the index of the character at the front of a text in a table of single codes, and the number of its
/// bytes. Returns `None` if no character begins there that is in the table. The text need not be UTF-8 after it.
#[tactic(auto, using(crate::proofs::DecodingLemmas::fronts))]
fn indexed_front(text: &[u8]) -> Option<(usize, usize)>
    ensures { IfSome result (λ found. IsIndexed text.now found.0 found.1) }
{
    match text {
        [byte, ..] if *byte < 0x80 => Some((usize::from(*byte), 1)),
        [first, second, ..] if 0xC2 <= *first && *first <= 0xC5 && is_later(*second) => Some((
            64 * usize::from(*first - 0xC0) + usize::from(*second - 0x80),
            2,
        )),
        [0xE2, 0x80, third, ..] if is_later(*third) => {
            Some((PUNCTUATION + usize::from(*third - 0x80), 3))
        }
        _ => None,
    }
}

/// Returns the code of the character at the front of a text if it has a single one in this table, and the number
/// of its bytes.
#[tactic(auto, using(crate::proofs::DecodingLemmas::single_made))]
fn single_front(singles: &SingleCodes, text: &[u8]) -> Option<(u8, usize)>
    ensures { IfSome result (λ found. IsSingle singles.now text.now found.0 found.1) }
{
    let (index, len) = indexed_front(text)?;
    let code = u8::try_from(singles[index]).ok()?;
    Some((code, len))
}

/// Appends the codes of the characters at the front of a text that have single codes. Returns the text after
/// them, or `None` if an allocation fails.
#[tactic(auto, using(crate::proofs::DecodingLemmas::singles))]
fn push_singles<'a>(encoding: Encoding, text: &'a [u8], line: &mut EncodedLine) -> Option<&'a [u8]>
    ensures { IfSome result (λ rest. IsRead encoding.entry text.now rest.now line.old line.new) }
{
    let singles = single_codes(encoding);
    let mut rest = text;
    while let Some((code, len)) = single_front(singles, rest) {
        line.push_code(code).ok()?;
        let (_, after) = rest.split_at(len);
        rest = after;
    }
    Some(rest)
}

/// Appends the codes of a character between breaks.
fn push_apart(codes: &[u8], line: &mut EncodedLine) -> Result<(), AllocError>
    ensures { OnOk result (line.new ≡ line.old ++ break_number ∷ codes.now ++ break_number ∷ []) }
{
    line.push_break()?;
    line.push_codes(codes)?;
    line.push_break()
}

/// Appends the numbers of a character.
#[tactic(auto, unfolding(crate::specs::Lines::numbers_of))]
fn push_numbers(
    encoding: Encoding,
    character: char,
    line: &mut EncodedLine,
) -> Result<(), AllocError>
    ensures { OnOk result (line.new ≡ line.old ++ numbers_of encoding.entry character) }
{
    match codes_of(encoding, character) {
        Some(codes) if is_apart(character) => push_apart(codes, line),
        Some(codes) => line.push_codes(codes),
        None => line.push_gap(character),
    }
}

/// Appends the numbers of the character at the front of a text. Returns the text after it, or `None` if no
/// character begins there or an allocation fails.
#[tactic(auto, using(crate::proofs::DecodingLemmas::characters))]
fn push_character<'a>(
    encoding: Encoding,
    text: &'a [u8],
    line: &mut EncodedLine,
) -> Option<&'a [u8]>
    ensures shorter { IfSome result (λ rest. length rest.now < length text.now) }
    ensures read { IfSome result (λ rest. IsRead encoding.entry text.now rest.now line.old line.new) }
{
    let (character, rest) = split_character(text)?;
    push_numbers(encoding, character, line).ok()?;
    Some(rest)
}

/// Appends the numbers of the characters at the front of a text up to one that has no single code, and those of
/// this one. Returns the text after it, or `None` if no character begins there or an allocation fails.
#[tactic(auto, using(crate::proofs::DecodingLemmas::reading))]
fn push_front<'a>(encoding: Encoding, text: &'a [u8], line: &mut EncodedLine) -> Option<&'a [u8]>
    ensures shorter { IfSome result (λ rest. 0 < length text.now → length rest.now < length text.now) }
    ensures read { IfSome result (λ rest. IsRead encoding.entry text.now rest.now line.old line.new) }
{
    let text = push_plain(encoding, text, line)?;
    let text = push_singles(encoding, text, line)?;
    if text.is_empty() {
        return Some(text);
    }
    push_character(encoding, text, line)
}

/// Appends the numbers of a text. Returns `None` if it isn't UTF-8 or an allocation fails.
#[tactic(auto, using(crate::proofs::DecodingLemmas::texts))]
pub(crate) fn push_text(encoding: Encoding, text: &[u8], line: &mut EncodedLine) -> Option<()>
    ensures { OnSome result (IsRead encoding.entry text.now [] line.old line.new) }
{
    let mut rest = text;
    while !rest.is_empty() {
        rest = push_front(encoding, rest, line)?;
    }
    Some(())
}
