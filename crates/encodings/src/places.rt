//! The characters of a line, with their places.
ghost use Rattle.std.specs.Prelude.{◌≡◌, ◌≤◌, true, false, length, MatchOption};
ghost use Rattle.std.specs.Str.{is_utf8};
ghost use Rattle.encodings.specs.Decoding.{IsTextOf, begins_with_mark};
ghost use Rattle.encodings.specs.Lines.{places_of};
ghost use Rattle.encodings.specs.Texts.{IsKeptFront};

use crate::Encoding;
use crate::cutting::split_first;
use crate::tables::single_codes;
use crate::texts::kept_len;
use std::marker::Model;
use std::str;

/// A character of a line.
#[derive(Clone, Copy, Debug, PartialEq, Eq)]
pub struct Place {
    /// The byte offset at which it begins, starting at 0.
    pub offset: usize,
    /// The character.
    pub character: char,
}

/// The characters of a line in UTF-8 that are still to come, in order.
#[derive(Drop)]
pub struct Places<'a> {
    rest: &'a str,
    offset: usize,
}

impl<'a> Model for Places<'a> {
    ghost use Rattle.std.specs.Prelude.{◌≤◌, ◌+◌, ◌^◌, List, length};
    ghost use Rattle.std.specs.Str.{chars};
    ghost use Rattle.encodings.specs.declared.places.Place.{Place};
    ghost use Rattle.encodings.specs.Lines.{places_from};

    ghost Value = { List Place };

    ghost view = { λ p. places_from p.offset (chars p.rest.now) };

    ghost invariant = { λ p. p.offset + length p.rest.now ≤ 2 ^ 63 };
}

/// Returns whether a line begins with a byte order mark.
fn has_mark(line: &[u8]) -> bool
    ensures { result ≡ begins_with_mark line.now }
{
    3 <= line.len() && line[0] == 0xEF && line[1] == 0xBB && line[2] == 0xBF
}

/// Returns a line without the byte order mark at its front, if it is the first line of its source.
#[tactic(auto, using(crate::proofs::PlaceLemmas::marks))]
pub(crate) fn after_mark(first: bool, line: &[u8]) -> &[u8]
    ensures within { length result.now ≤ length line.now }
    ensures text { IsTextOf first line.now result.now }
{
    if first && has_mark(line) {
        let (_, text) = line.split_at(3);
        return text;
    }
    line
}

impl<'a> Places<'a> {
    /// Returns the characters of a line. `first` states that it is the first line of its source: a byte order
    /// mark at its front is then left out. Returns `None` if the line isn't UTF-8.
    #[tactic(auto, using(crate::proofs::PlaceLemmas::decoded))]
    pub fn of_line(first: bool, line: &'a [u8]) -> Option<Self>
        ensures { MatchOption result (is_utf8 line.now ≡ false)
            (λ places. (is_utf8 line.now ≡ true) × (places ≡ places_of first line.now)) }
    {
        let text = after_mark(first, line);
        match str::from_utf8(text) {
            Ok(rest) => Some(Places {
                rest,
                offset: line.len() - text.len(),
            }),
            Err(_) => None,
        }
    }

    /// Takes characters at the front whose only code is the byte that they are, as most of ASCII, and line feeds.
    /// This is faster than taking one after the other. Returns the offset of the first one, and their bytes.
    #[tactic(auto, using(crate::proofs::TextLemmas::front))]
    pub fn take_kept(&mut self, encoding: Encoding) -> (usize, &'a [u8])
        ensures { IsKeptFront encoding.entry result.0 result.1.now self.old self.new }
    {
        let offset = self.offset;
        let len = kept_len(single_codes(encoding), self.rest.as_bytes());
        let (kept, rest) = self.rest.split_at(len);
        self.rest = rest;
        self.offset = offset + len;
        (offset, kept.as_bytes())
    }
}

impl<'a> Iterator for Places<'a> {
    ghost use Rattle.std.specs.Iterator.{YieldsFirst, item_count};

    type Item = Place;

    ghost next_gives = { YieldsFirst (λ rest. rest) };

    ghost remaining = { item_count (λ rest. rest) };

    fn next(&mut self) -> Option<Place> {
        let (character, rest) = split_first(self.rest)?;
        let offset = self.offset;
        self.rest = rest;
        self.offset = offset + character.len_utf8();
        Some(Place { offset, character })
    }
}
