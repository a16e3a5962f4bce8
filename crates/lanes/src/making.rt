//! What a lane makes.
ghost use Rattle.std.specs.Prelude.{◌≡◌, ◌≤◌, IfOk, IfErr};

use crate::Stored;
use run_plan::OutOfMemory;
use std::alloc::Global;

/// Makes the results of a lane, one from each item.
pub trait Making: Drop {
    ghost use Rattle.std.specs.Prelude.{ℕ};

    /// An item, from which a result is made.
    type In: Stored;

    /// A result.
    type Out: Stored;

    /// The result of each item.
    ghost makes: { Self → Self.In → Self.Out };

    /// The number of slots of a message of items. A message of results has as many or more.
    ghost slots: { ℕ };

    /// Makes the result of an item. The error means that an allocation failed, and contains the unchanged
    /// item. In both cases the results of later items are as before.
    fn make(&mut self, alloc: Global, input: Self::In) -> Result<Self::Out, (Self::In, OutOfMemory)>
        ensures kept { makes self.new ≡ makes self.old }
        ensures made { IfOk result (λ out. out ≡ makes self.old input) }
        ensures back { IfErr result (λ failed. failed.0 ≡ input) };

    ghost fits: { (slots ≡ Self.In.Slots.SLOTS) × (slots ≤ Self.Out.Slots.SLOTS) };
}
