ghost use Rattle.std.specs.Prelude.{◌≡◌, ◌+◌, ◌++◌, ◌∷◌, [], filter, OnOk};
ghost use Rattle.encodings.specs.Lines.{break_number, has_gaps, is_code};
ghost use Rattle.encodings.specs.Parts.{parts_of};

use crate::Parts;
use std::alloc::{AllocError, Global};
use std::marker::Model;

/// A line as the codes of a font, with the characters that have no codes, and with breaks, at which a run ends and
/// another one begins. It can be used again for another line, and keeps its memory.
///
/// Contracts see it as numbers: a code as itself, a character without codes as 256 and its own number, and a break
/// as the number of a soft hyphen, which always has codes.
#[derive(Drop)]
pub struct EncodedLine {
    codes: Vec<u8>,
    /// The characters that have no codes, and a soft hyphen for each break, each after the number of codes before it.
    gaps: Vec<(usize, char)>,
}

impl Model for EncodedLine {
    ghost use Rattle.std.specs.Prelude.{◌≡◌, List, ℕ, length, true};
    ghost use Rattle.std.specs.List.{list_all};
    ghost use Rattle.encodings.specs.Encoded.{AreBetween, with_gaps};
    ghost use Rattle.encodings.specs.Lines.{is_code};

    ghost Value = { List ℕ };

    ghost view = { λ l. with_gaps 0 l.codes.items l.gaps.items };

    ghost invariant = { λ l. AreBetween 0 (length l.codes.items) l.gaps.items × (list_all is_code l.codes.items ≡ true) };
}

impl EncodedLine {
    /// Returns an empty line. This allocates no memory.
    pub fn new(alloc: Global) -> Self
        ensures { result ≡ [] }
    {
        EncodedLine {
            codes: Vec::new(alloc),
            gaps: Vec::new(alloc),
        }
    }

    /// Makes the line empty, and keeps its memory.
    pub(crate) fn clear(&mut self)
        ensures { self.new ≡ [] }
    {
        self.codes.clear();
        self.gaps.clear();
    }

    /// Appends codes.
    #[tactic(auto, using(crate::proofs::EncodedLemmas::pushed))]
    pub(crate) fn push_codes(&mut self, codes: &[u8]) -> Result<(), AllocError>
        ensures { OnOk result (self.new ≡ self.old ++ codes.now) }
    {
        self.codes.extend_from_slice(codes)
    }

    /// Appends a code.
    #[tactic(auto, using(crate::proofs::EncodedLemmas::pushed))]
    pub(crate) fn push_code(&mut self, code: u8) -> Result<(), AllocError>
        ensures { OnOk result (self.new ≡ self.old ++ code ∷ []) }
    {
        self.codes.push(code)?;
        Ok(())
    }

    /// Appends a character that has no codes.
    #[tactic(auto, using(crate::proofs::EncodedLemmas::pushed))]
    pub(crate) fn push_gap(&mut self, character: char) -> Result<(), AllocError>
        ensures { OnOk result (self.new ≡ self.old ++ (256 + character) ∷ []) }
    {
        self.gaps.push((self.codes.len(), character))?;
        Ok(())
    }

    /// Appends a break.
    pub(crate) fn push_break(&mut self) -> Result<(), AllocError>
        ensures { OnOk result (self.new ≡ self.old ++ break_number ∷ []) }
    {
        self.push_gap('\u{AD}')
    }

    /// Returns whether the line has a character without codes or a break.
    pub fn has_gaps(&self) -> bool
        ensures { result ≡ has_gaps self.now }
    {
        !self.gaps.as_slice().is_empty()
    }

    /// Returns the codes of the line, in order.
    pub fn codes(&self) -> &[u8]
        ensures { result.now ≡ filter is_code self.now }
    {
        self.codes.as_slice()
    }

    /// Returns the parts of the line, which end with its characters without codes and its breaks.
    pub fn parts(&self) -> Parts<'_>
        ensures { result ≡ parts_of self.now }
    {
        Parts::new(&self.codes, &self.gaps)
    }
}
