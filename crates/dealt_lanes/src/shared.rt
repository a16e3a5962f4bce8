//! Makers for several lanes.
ghost use Rattle.std.specs.Prelude.{◌≡◌, IfOk};

use lanes::Making;
use run_plan::OutOfMemory;

/// A maker from which others can be made that make the same results, one for each of several lanes.
pub trait Shared: Making {
    /// Returns another maker, which makes the same results. The error means that an allocation failed.
    fn share(&self) -> Result<Self, OutOfMemory>
        ensures { IfOk result (λ other. Self.makes other ≡ Self.makes self.now) };
}
