//! `tfmset_encode`: turns a text in UTF-8 into the codes of a font.
ghost use Rattle.std.specs.Prelude.{◌≡◌, ◌≤◌, ◌<◌, ◌+◌, ◌*◌, ◌^◌, ◌↔◌, ◌⊎◌, true, false, None, Option, Some, length, map, IfErr, IfOk, IfSome, MatchOption};
ghost use Rattle.encodings.specs.declared.encoding.Encoding.{Encoding as EncodingValue};
ghost use Rattle.encodings.specs.Texts.{codes_at, offsets_at, uncoded_at};
ghost use Rattle.tfmset_c.specs.Arrays.{ArePut, IsFilled};
ghost use Rattle.tfmset_c.specs.Encoded.{AreCodesTold, AreFilled, HaveRoom, IsCounted, IsEncodingTold, IsFaultTold, IsNoEncoding, TextCodes, codes_told, encoding_named_told, fault_told, offsets_from, uncoded_told};

use crate::arrays::{DONE, NO_ROOM, has_room, put_list};
use crate::reading::RANGE;
use encoding_vectors::read_vector;
use encodings::{Encoding, Place, Places, Vector, codes_in_text, utf8_fault};
use std::str;

/// The text isn't UTF-8.
const NOT_UTF8: u32 = 5;

/// A character that has no codes.
#[repr(C)]
#[derive(Clone, Copy, Debug, PartialEq, Eq)]
pub struct TfmsetUncoded {
    /// The byte offset in the text at which it begins.
    pub offset: usize,
    /// Its number in Unicode.
    pub character: u32,
}

/// The result of a text in UTF-8.
#[repr(C)]
#[derive(Clone, Copy, Debug, Default, PartialEq, Eq)]
pub struct TfmsetEncoded {
    /// Codes 0 and 3: the number of codes. Otherwise 0.
    pub count: usize,
    /// Codes 0 and 3: the number of characters that have no codes. Otherwise 0.
    pub uncoded: usize,
    /// Code 5: the byte offset in the text at which no character begins. Otherwise 0.
    pub offset: usize,
}

/// Returns the encoding of this name: `None` within `Some` is that of bytes, each of which is a code. Returns
/// `None` if no encoding has this name.
#[tactic(auto, using(encodings::proofs::NameLemmas::no_encoding), unfolding(crate::specs::Encoded::encoding_named_told))]
fn named_encoding(name: &[u8]) -> Option<Option<Encoding<'static>>>
    ensures { result ≡ encoding_named_told name.now }
{
    if name == b"bytes".as_slice() {
        return Some(None);
    }
    let name = str::from_utf8(name).ok()?;
    Some(Some(Encoding::from_name(name)?))
}

/// Returns the encoding that these bytes state: that of a name, or of a vector, which is then put into `vector`.
/// Returns `None` if they are neither.
#[tactic(auto, using(crate::proofs::EncodedLemmas::stated))]
pub fn encoding_of<'a>(bytes: &[u8], vector: &'a mut Option<Vector>) -> Option<Option<Encoding<'a>>>
    ensures told { MatchOption result (IsNoEncoding bytes.now) (IsEncodingTold bytes.now) }
    ensures stated { IfSome result (λ _. IsNoEncoding bytes.now → ⊥) }
{
    match named_encoding(bytes) {
        Some(encoding) => Some(encoding),
        None => match read_vector(bytes) {
            Ok(characters) => {
                let made = Vector::of_characters(&characters);
                Some(Some(Encoding::Vector(vector.insert(made))))
            }
            Err(_) => None,
        },
    }
}

/// Returns a character that has no codes as C gets it.
fn uncoded_for_c(place: Place) -> TfmsetUncoded
    ensures { result ≡ uncoded_told place }
{
    TfmsetUncoded {
        offset: place.offset,
        character: u32::from(place.character),
    }
}

/// Writes offsets that begin with `first` and grow by `step` into an array.
fn write_offsets(offsets: &mut [usize], first: usize, step: usize)
    requires { first + step * length offsets.old < 2 ^ 64 }
    ensures { offsets.new ≡ offsets_from first step (length offsets.old) }
{
    for index in 0..offsets.len() {
        offsets[index] = first + step * index;
    }
}

/// Writes `count` offsets that begin with `first` and grow by `step`, starting at index `at`, if the array has room for
/// all of them. Returns the index after them, at most 2^64 - 1.
#[tactic(auto, using(crate::proofs::EncodedLemmas::placing))]
fn put_offsets(offsets: &mut [usize], at: usize, first: usize, step: usize, count: usize) -> usize
    requires { first + step * count < 2 ^ 64 }
    ensures { ArePut (offsets_from first step count) at result offsets.old offsets.new }
{
    if at <= offsets.len() && count <= offsets.len() - at {
        write_offsets(&mut offsets[at..at + count], first, step);
    }
    at.saturating_add(count)
}

/// Writes the codes of characters, their offsets, and the characters that have no codes, while there is room. Returns
/// the numbers of codes and of characters that have none, and the number of offsets, at most 2^64 - 1.
#[tactic(auto, using(crate::proofs::EncodedLemmas::filling))]
fn fill_codes(
    encoding: Encoding,
    places: Places<'_>,
    codes: &mut [u8],
    offsets: &mut [usize],
    uncoded: &mut [TfmsetUncoded],
) -> (TfmsetEncoded, usize)
    ensures codes { IsFilled (codes_at encoding.entry places.entry) result.0.count codes.old codes.new }
    ensures offsets { IsFilled (offsets_at encoding.entry places.entry) result.1 offsets.old offsets.new }
    ensures uncoded { IsFilled (map uncoded_told (uncoded_at encoding.entry places.entry)) result.0.uncoded
        uncoded.old uncoded.new }
    ensures fault { result.0.offset ≡ 0 }
{
    let mut places = places;
    let mut counts = TfmsetEncoded::default();
    let mut placed = 0;
    loop {
        let (first, kept) = places.take_kept(encoding);
        counts.count = put_list(codes, counts.count, kept);
        placed = put_offsets(offsets, placed, first, 1, kept.len());
        let Some(place) = places.next() else {
            return (counts, placed);
        };
        match codes_in_text(encoding, place.character) {
            Some(made) => {
                counts.count = put_list(codes, counts.count, made);
                placed = put_offsets(offsets, placed, place.offset, 0, made.len());
            }
            None => counts.uncoded = put_list(uncoded, counts.uncoded, &[uncoded_for_c(place)]),
        }
    }
}

/// Writes what becomes of a text into the arrays, while there is room. Without an encoding its bytes are the codes.
/// The error is the offset at which the text isn't UTF-8, and nothing is written.
#[tactic(auto, using(crate::proofs::EncodedLemmas::texts))]
fn fill(
    encoding: Option<Encoding>,
    text: &[u8],
    codes: &mut [u8],
    offsets: &mut [usize],
    uncoded: &mut [TfmsetUncoded],
) -> Result<(TfmsetEncoded, usize), usize>
    ensures sound { IfOk result (λ _. fault_told encoding.entry text.now ≡ None) }
    ensures ok { IfOk result (λ filled. AreFilled (codes_told encoding.entry text.now) filled.0 filled.1
        codes.old codes.new offsets.old offsets.new uncoded.old uncoded.new) }
    ensures few { IfOk result (λ filled. filled.0.count + filled.0.uncoded ≤ length text.now) }
    ensures fault { IfErr result (λ offset. fault_told encoding.entry text.now ≡ Some offset) }
    ensures kept { IfErr result (λ _. (codes.new ≡ codes.old) × (offsets.new ≡ offsets.old)
        × (uncoded.new ≡ uncoded.old)) }
{
    let Some(encoding) = encoding else {
        let counts = TfmsetEncoded {
            count: put_list(codes, 0, text),
            uncoded: 0,
            offset: 0,
        };
        return Ok((counts, put_offsets(offsets, 0, 0, 1, text.len())));
    };
    match Places::of_line(true, text) {
        Some(places) => Ok(fill_codes(encoding, places, codes, offsets, uncoded)),
        None => match utf8_fault(text) {
            Some(offset) => Err(offset),
            None => unreachable!(),
        },
    }
}

/// Returns whether the arrays have room for all elements. An array of offsets whose length is 0 gets none.
#[tactic(auto, using(crate::proofs::EncodedLemmas::rooms))]
fn have_room(
    counts: TfmsetEncoded,
    placed: usize,
    codes: &[u8],
    offsets: &[usize],
    uncoded: &[TfmsetUncoded],
) -> bool
    ensures fits { (told : TextCodes) → IsCounted told counts placed → result ≡ true
        → HaveRoom told (length codes.now) (length offsets.now) (length uncoded.now) }
    ensures lacks { (told : TextCodes) → IsCounted told counts placed → result ≡ false
        → HaveRoom told (length codes.now) (length offsets.now) (length uncoded.now) → ⊥ }
{
    has_room(counts.count, codes.len())
        && (offsets.is_empty() || has_room(placed, offsets.len()))
        && has_room(counts.uncoded, uncoded.len())
}

/// Turns a text in UTF-8 into the codes of a font, and writes them into the front of `codes`. `encoding` is the
/// name of the font's encoding: `bytes`, `ot1`, `t1`, `ly1` or `latin1`; with `bytes` the text is copied. If it
/// isn't a name, it is an encoding vector: the contents of a file `.enc`. Line feeds are kept, and a byte order mark
/// at the front of the text is left out.
///
/// For each code `offsets` has the byte offset in the text of the character that it comes from, unless its length is
/// 0. A character that has no codes is left out, and is in `uncoded`.
///
/// Returns: 0 after success, where the other elements of the arrays are unchanged; 3 if an array is too short, where
/// `report` has the numbers of codes and of characters without codes, and the contents of the arrays are unspecified;
/// 4 if `encoding` is neither a name nor a vector, where nothing is changed; 5 if the text isn't UTF-8, where the
/// arrays are unchanged, and `report` has the offset. Arrays as long as the text are always long enough. No memory is
/// allocated.
#[unsafe(no_mangle)]
pub extern "C" fn tfmset_encode(
    encoding: &[u8],
    text: &[u8],
    codes: &mut [u8],
    offsets: &mut [usize],
    uncoded: &mut [TfmsetUncoded],
    report: &mut TfmsetEncoded,
) -> u32
    ensures answers { (result ≡ 0) ⊎ ((3 ≤ result) × (result ≤ 5)) }
    ensures range { (result ≡ 4) ↔ IsNoEncoding encoding.now }
    ensures told { (result ≡ 4) ⊎ ((told : Option EncodingValue) × IsEncodingTold encoding.now told
        × AreCodesTold (codes_told told text.now) result report.new codes.old codes.new
        offsets.old offsets.new uncoded.old uncoded.new
        × IsFaultTold (fault_told told text.now) result report.new) }
    ensures few { (result ≡ 0) ⊎ (result ≡ 3) → report.new.count + report.new.uncoded ≤ length text.now }
    ensures kept { (result ≡ 4) ⊎ (result ≡ 5) → (codes.new ≡ codes.old) × (offsets.new ≡ offsets.old)
        × (uncoded.new ≡ uncoded.old) }
    ensures unknown { result ≡ 4 → report.new ≡ report.old }
{
    let mut vector = None;
    let Some(encoding) = encoding_of(encoding, &mut vector) else {
        return RANGE;
    };
    match fill(encoding, text, codes, offsets, uncoded) {
        Ok((counts, placed)) => {
            *report = counts;
            if have_room(counts, placed, codes, offsets, uncoded) {
                return DONE;
            }
            NO_ROOM
        }
        Err(offset) => {
            *report = TfmsetEncoded {
                offset,
                ..TfmsetEncoded::default()
            };
            NOT_UTF8
        }
    }
}
