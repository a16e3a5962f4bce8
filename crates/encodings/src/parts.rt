ghost use Rattle.std.specs.Prelude.{◌≡◌, ◌+◌, length};
ghost use Rattle.encodings.specs.Encoded.{AreBetween, with_gaps};
ghost use Rattle.encodings.specs.Parts.{parts_of, uncoded_after};
ghost use Rattle.encodings.specs.Visited.{value_of};

use std::marker::Model;

/// A part of an encoded line.
#[derive(Clone, Copy)]
pub struct Part<'a> {
    /// Its codes.
    pub codes: &'a [u8],
    /// The character after them: one that has no codes, or a soft hyphen for a break. The last part has none.
    pub gap: Option<char>,
}

impl<'a> Part<'a> {
    /// Returns the character without codes after the codes. After a break, and in the last part, there is none: the
    /// right boundary may follow the codes.
    pub fn uncoded(&self) -> Option<char>
        ensures { result ≡ uncoded_after (value_of self.now) }
    {
        match self.gap? {
            '\u{AD}' => None,
            character => Some(character),
        }
    }
}

/// The parts of an encoded line that are still to be visited, in order.
#[derive(Drop)]
pub struct Parts<'a> {
    /// The codes of these parts, or `None` after the last part.
    codes: Option<&'a [u8]>,
    /// The number of codes before them.
    from: usize,
    /// The gaps between them, each after the number of codes before it in the whole line.
    gaps: &'a [(usize, char)],
}

impl<'a> Model for Parts<'a> {
    ghost use Rattle.std.specs.Prelude.{List, IfSome};
    ghost use Rattle.encodings.specs.Encoded.{AreLeft, parts_left};
    ghost use Rattle.encodings.specs.Parts.{PartValue};

    ghost Value = { List PartValue };

    ghost view = { λ p. parts_left p.codes p.from p.gaps.now };

    ghost invariant = { λ p. IfSome p.codes (AreLeft p.from p.gaps.now) };
}

impl<'a> Parts<'a> {
    /// Returns the parts of a line with these codes and gaps.
    pub(crate) fn new(codes: &'a [u8], gaps: &'a [(usize, char)]) -> Self
        requires { AreBetween 0 (length codes.now) gaps.now }
        ensures { result ≡ parts_of (with_gaps 0 codes.now gaps.now) }
    {
        Parts {
            codes: Some(codes),
            from: 0,
            gaps,
        }
    }

    /// Returns the only part of a line of these codes.
    pub fn of_codes(codes: &'a [u8]) -> Self
        ensures { result ≡ parts_of codes.now }
    {
        Parts::new(codes, &[])
    }
}

impl<'a> Iterator for Parts<'a> {
    type Item = Part<'a>;

    ghost use Rattle.std.specs.Iterator.{YieldsFirstBy, item_count};
    ghost use Rattle.encodings.specs.Visited.{value_of};

    ghost next_gives = { YieldsFirstBy value_of (λ parts. parts) };

    ghost remaining = { item_count (λ parts. parts) };

    fn next(&mut self) -> Option<Part<'a>> {
        let codes = self.codes?;
        let [(at, character), gaps @ ..] = self.gaps else {
            self.codes = None;
            return Some(Part { codes, gap: None });
        };
        let (codes, rest) = codes.split_at(*at - self.from);
        self.codes = Some(rest);
        self.from = *at;
        self.gaps = gaps;
        Some(Part {
            codes,
            gap: Some(*character),
        })
    }
}
