ghost use Rattle.std.specs.Prelude.{◌≡◌, ◌+◌, ◌^◌, ◌<◌, Bool, false, length, [], ◌∷◌, None, IfSome, MatchOption};
ghost use Rattle.lig_kern.specs.Places.{codes_ahead, symbols_at};

use crate::placed_symbol::PlacedSymbol;
use crate::{Ends, Symbol};

/// A run before its first step: the symbol that is current, and what follows it.
#[derive(Clone, Copy)]
pub(crate) struct Beginning<'a> {
    pub first: PlacedSymbol,
    /// The codes after the first symbol.
    pub codes: &'a [u8],
    /// The byte offset of the first of them in the text.
    pub at: usize,
    /// The hyphen after them.
    pub hyphen: Option<u8>,
}

impl<'a> Beginning<'a> {
    /// Returns a run of these codes before its first step, or `None` if it has no symbol but, perhaps, the right
    /// boundary.
    pub fn new(codes: &'a [u8], ends: Ends) -> Option<Self>
        requires { ends.offset + length codes.now < 2 ^ 64 }
        ensures fits { IfSome result (λ run. run.at + length run.codes.now < 2 ^ 64) }
        ensures same { (stands : Bool) → MatchOption result
            ((ends.left ≡ false) × (codes.now ≡ []) × (ends.hyphen ≡ None))
            (λ run. run.first ∷ codes_ahead run.codes.now run.at run.hyphen stands
            ≡ symbols_at codes.now ends stands) }
    {
        let at = ends.offset;
        if ends.left {
            return Some(Beginning {
                first: PlacedSymbol::new(Symbol::Left, at, at),
                codes,
                at,
                hyphen: ends.hyphen,
            });
        }
        if let Some(code) = codes.first() {
            return Some(Beginning {
                first: PlacedSymbol::new(Symbol::Char(*code), at, at + 1),
                codes: &codes[1..],
                at: at + 1,
                hyphen: ends.hyphen,
            });
        }
        let code = ends.hyphen?;
        Some(Beginning {
            first: PlacedSymbol::new(Symbol::Char(code), at, at),
            codes,
            at,
            hyphen: None,
        })
    }
}
