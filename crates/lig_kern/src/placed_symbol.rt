ghost use Rattle.std.specs.Prelude.{◌≡◌};
ghost use Rattle.lig_kern.specs.Places.{placed};

use crate::{ByteRange, Symbol};

/// A symbol of a run, with the bytes of the text that it comes from.
#[derive(Clone, Copy)]
pub(crate) struct PlacedSymbol {
    pub symbol: Symbol,
    pub place: ByteRange,
}

impl PlacedSymbol {
    /// Returns the symbol that comes from these bytes.
    pub fn new(symbol: Symbol, start: usize, end: usize) -> Self
        ensures { result ≡ placed symbol start end }
    {
        let place = ByteRange { start, end };
        PlacedSymbol { symbol, place }
    }
}

/// What the free room of a list contains.
impl Default for PlacedSymbol {
    fn default() -> Self {
        PlacedSymbol::new(Symbol::Left, 0, 0)
    }
}
