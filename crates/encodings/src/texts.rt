//! The codes of the characters of a text of several lines.
ghost use Rattle.std.specs.Prelude.{◌≡◌, ◌≤◌, None, Some, MatchOption, IsTrue, length, take, true};
ghost use Rattle.std.specs.List.{list_all};
ghost use Rattle.encodings.specs.Texts.{is_kept as is_kept_in, text_codes};

use crate::decoding::is_plain;
use crate::tables::{SingleCodes, X};
use crate::{Encoding, codes_of};

/// Returns the codes of a character of a text, or `None` if it has none. The line feed is kept.
pub fn codes_in_text(encoding: Encoding, character: char) -> Option<&'static [u8]>
    ensures { MatchOption result (text_codes encoding.entry character ≡ None)
        (λ codes. text_codes encoding.entry character ≡ Some codes.now) }
{
    if character == '\n' {
        return Some(b"\n");
    }
    codes_of(encoding, character)
}

/// Returns whether a byte is a line feed, or an ASCII character whose only code, in this table, is the byte itself.
/// For a line feed the table is read first: compilers then test for it only if the entry differs.
fn is_kept(singles: &SingleCodes, byte: u8) -> bool
    ensures { result ≡ is_kept_in singles.now byte }
{
    is_plain(singles, byte) || (singles[usize::from(byte)] == X && byte == b'\n')
}

/// Returns whether a text begins with four bytes that are kept.
fn begins_kept(singles: &SingleCodes, text: &[u8]) -> bool
    ensures long { IsTrue result → 4 ≤ length text.now }
    ensures kept { IsTrue result → list_all (is_kept_in singles.now) (take 4 text.now) ≡ true }
{
    match text {
        [first, second, third, fourth, ..] => {
            is_kept(singles, *first)
                && is_kept(singles, *second)
                && is_kept(singles, *third)
                && is_kept(singles, *fourth)
        }
        _ => false,
    }
}

/// Returns a number of bytes at the front of a text that are kept. They are counted in fours, which is faster.
#[tactic(auto, using(crate::proofs::TextLemmas::fours))]
fn fours_kept(singles: &SingleCodes, text: &[u8]) -> usize
    ensures within { result ≤ length text.now }
    ensures kept { list_all (is_kept_in singles.now) (take result text.now) ≡ true }
{
    let mut len = 0;
    while begins_kept(singles, &text[len..]) {
        len += 4;
    }
    len
}

/// Returns the number of bytes at the front of a text that are kept.
pub(crate) fn kept_len(singles: &SingleCodes, text: &[u8]) -> usize
    ensures within { result ≤ length text.now }
    ensures kept { list_all (is_kept_in singles.now) (take result text.now) ≡ true }
{
    let mut len = fours_kept(singles, text);
    while len < text.len() && is_kept(singles, text[len]) {
        len += 1;
    }
    len
}
