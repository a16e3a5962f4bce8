//! Headers of several lengths.
use super::same;
use super::samples::read;
use std::process::Abort;
use test_support::fonts::header;

/// The letters of the texts.
const LETTERS: &[u8; 39] = b"ABCDEFGHIJKLMNOPQRSTUVWXYZabcdefghijklm";

/// The length byte of both texts, the flag, and the number of words after the first two. Then what is read: the
/// lengths of the coding scheme and the family, and whether the font is seven-bit safe.
type Row = ((u8, u8, usize), Option<usize>, Option<usize>, Option<bool>);

static HEADERS: [Row; 15] = [
    ((8, 0, 0), None, None, None),
    ((8, 0, 9), None, None, None),
    ((8, 0, 10), Some(8), None, None),
    ((8, 0, 14), Some(8), None, None),
    ((8, 0, 15), Some(8), Some(8), None),
    ((8, 0, 16), Some(8), Some(8), Some(false)),
    ((8, 0, 19), Some(8), Some(8), Some(false)),
    ((0, 127, 16), Some(0), Some(0), Some(false)),
    ((1, 128, 16), Some(1), Some(1), Some(true)),
    ((19, 255, 16), Some(19), Some(19), Some(true)),
    ((20, 0, 16), Some(20), Some(19), Some(false)),
    ((39, 0, 16), Some(39), Some(19), Some(false)),
    ((40, 0, 16), Some(39), Some(19), Some(false)),
    ((41, 0, 19), Some(39), Some(19), Some(false)),
    ((255, 0, 16), Some(39), Some(19), Some(false)),
];

/// Letters as the coding scheme and the family, both with this length, this flag and face 234.
fn texts_of(length: u8, flag: u8) -> [u8; 76] {
    let mut texts = [0; 76];
    texts[0] = length;
    texts[1..40].copy_from_slice(LETTERS);
    texts[40] = length;
    texts[41..60].copy_from_slice(&LETTERS[..19]);
    texts[60] = flag;
    texts[63] = 234;
    texts
}

/// The text is there, and is this many of the letters; or it isn't there.
fn is_text(found: Option<&[u8]>, length: Option<usize>) -> bool {
    match (found, length) {
        (Some(text), Some(length)) => LETTERS.get(..length).is_some_and(|wanted| text == wanted),
        (found, length) => found.is_none() && length.is_none(),
    }
}

/// The font has the texts, the flag and the face of a row.
fn has_header<R: Abort + AllocGlobal>(rt: &R, (case, coding, family, seven_bit): Row) {
    let (length, flag, words) = case;
    let texts = texts_of(length, flag);
    let font = read(rt, &header(&texts[..4 * words.min(19)]), &[], None);
    let has_texts = (
        is_text(font.coding(), coding),
        is_text(font.family(), family),
    );
    let found = (has_texts, font.seven_bit(), font.face());
    let face = if seven_bit.is_some() { Some(234) } else { None };
    same(rt, &found, &((true, true), seven_bit, face), &case);
}

#[test]
fn headers(rt: HostRuntime) {
    for row in &HEADERS {
        has_header(&rt, *row);
    }
}
