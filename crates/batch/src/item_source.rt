//! Sources of items.
ghost use Rattle.std.specs.Prelude.{◌≡◌, Option, Result};
ghost use Rattle.lanes.specs.declared.fault.SourceFault.{SourceFault as Fault};

use lanes::SourceFault;

/// A source of items, of which a [`Making`](lanes::Making) makes results.
///
/// For the proof: `next_gives` describes a call of `next_item`: it relates the source before the call to the
/// return value and the source after the call. `origin` is what the source was made from, and never changes.
pub trait ItemSource<I> {
    ghost next_gives: { Self → Result (Option I) Fault → Self → Type 0 };

    ghost Origin: { Type 0 };

    ghost origin: { Self → Origin };

    /// Returns the next item, or `None` if no item is left; or an error.
    fn next_item(&mut self) -> Result<Option<I>, SourceFault>
        ensures gives { next_gives self.old result self.new }
        ensures origin { origin self.new ≡ origin self.old };

    /// Returns whether `next_item` would return without waiting. The return value only decides when the
    /// workers are woken: if it is false, and items were fed since the last wake-up, the workers are woken
    /// before `next_item` is called. The default is true.
    fn is_ready(&self) -> bool {
        true
    }
}
