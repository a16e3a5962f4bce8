//! The symbols of a run that follow the current one, each with its place.
ghost use Rattle.std.specs.Prelude.{◌≡◌, ◌+◌, ◌<◌, ◌^◌, [], ◌∷◌, length, drop, OnOk, if◌then◌else◌};
ghost use Rattle.std.specs.List.{slice_get};
ghost use Rattle.lig_kern.specs.Walking.{symbols_ahead};

use crate::Symbol;
use crate::placed_symbol::PlacedSymbol;
use smallvec::SmallVec;
use std::alloc::{AllocError, Global};
use std::marker::Model;

/// The symbols ahead of the current one, in this order: the characters that ligature operations have put
/// there (`pending`, whose last one is the next symbol), the codes of the run that are left, the hyphen, and
/// the right boundary if `right` is true.
#[derive(Drop)]
pub(crate) struct SymbolsAhead<'a> {
    pending: SmallVec<PlacedSymbol, 4>,
    /// The codes that are left.
    rest: &'a [u8],
    /// The byte offset of the first of them in the text.
    at: usize,
    hyphen: Option<u8>,
    right: bool,
}

impl<'a> Model for SymbolsAhead<'a> {
    ghost use Rattle.std.specs.Prelude.{List, length, ◌+◌, ◌<◌, ◌^◌};
    ghost use Rattle.lig_kern.specs.declared.placed_symbol.PlacedSymbol.{PlacedSymbol};
    ghost use Rattle.lig_kern.specs.Walking.{symbols_ahead};

    ghost Value = { List PlacedSymbol };

    ghost view = { λ a. symbols_ahead a.pending.items a.rest.now a.at a.hyphen a.right };

    ghost invariant = { λ a. a.at + length a.rest.now < 2 ^ 64 };
}

impl<'a> SymbolsAhead<'a> {
    /// Returns codes, of which the first is at this offset of a text, as the symbols ahead, followed by the
    /// hyphen and, if `right` is true, by the right boundary. `alloc` provides the memory for characters that
    /// are put ahead later.
    #[tactic(auto, unfolding(crate::specs::Walking::symbols_ahead))]
    pub fn new(
        alloc: Global,
        codes: &'a [u8],
        at: usize,
        hyphen: Option<u8>,
        right: bool,
    ) -> SymbolsAhead<'a>
        requires { at + length codes.now < 2 ^ 64 }
        ensures { result ≡ symbols_ahead [] codes.now at hyphen right }
    {
        SymbolsAhead {
            pending: SmallVec::new(alloc),
            rest: codes,
            at,
            hyphen,
            right,
        }
    }

    /// Returns the next symbol, or `None` if no symbol is left.
    #[tactic(auto, unfolding(crate::specs::Walking::symbols_ahead))]
    pub fn first(&self) -> Option<PlacedSymbol>
        ensures { result ≡ slice_get self.now 0 }
    {
        if let Some(pending) = self.pending.as_slice().last() {
            return Some(*pending);
        }
        if let Some(code) = self.rest.first() {
            return Some(PlacedSymbol::new(Symbol::Char(*code), self.at, self.at + 1));
        }
        if let Some(code) = self.hyphen {
            return Some(PlacedSymbol::new(Symbol::Char(code), self.at, self.at));
        }
        if self.right {
            Some(PlacedSymbol::new(Symbol::Right, self.at, self.at))
        } else {
            None
        }
    }

    /// Removes the next symbol; nothing changes if no symbol is left.
    #[tactic(auto, unfolding(crate::specs::Walking::symbols_ahead))]
    pub fn pass(&mut self)
        ensures { self.new ≡ drop 1 self.old }
    {
        if self.pending.pop().is_some() {
            return;
        }
        if !self.rest.is_empty() {
            self.rest = &self.rest[1..];
            self.at += 1;
        } else if self.hyphen.is_some() {
            self.hyphen = None;
        } else {
            self.right = false;
        }
    }

    /// Removes the next symbol unless it is kept.
    pub fn pass_unless(&mut self, kept: bool)
        ensures { self.new ≡ (if kept then self.old else drop 1 self.old) }
    {
        if !kept {
            self.pass();
        }
    }

    /// Puts a symbol before the next one.
    #[tactic(auto, unfolding(crate::specs::Walking::symbols_ahead))]
    pub fn put(&mut self, symbol: PlacedSymbol) -> Result<(), AllocError>
        ensures { OnOk result (self.new ≡ symbol ∷ self.old) }
    {
        self.pending.push(symbol)?;
        Ok(())
    }
}
