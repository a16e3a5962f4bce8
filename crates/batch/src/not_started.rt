//! A batch whose threads couldn't be started.
ghost use Rattle.std.specs.Prelude.{◌≡◌};
ghost use Rattle.batch.specs.declared.run_fault.RunFault.TheVariants.{TooManySources};

use crate::RunFault;

/// The error of a batch whose threads weren't all started, and its collector, which wasn't called.
#[derive(Drop)]
pub(crate) struct NotStarted<C> {
    pub collector: C,
    pub fault: RunFault,
    ghost short: { fault ≡ TooManySources → ⊥ },
}
