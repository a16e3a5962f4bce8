ghost use Rattle.std.specs.Prelude.{◌≡◌};
ghost use Rattle.batch.specs.declared.run_fault.RunFault.TheVariants.{OutOfMemory as NoMemory};

use std::alloc::AllocError;

/// The reason why a batch failed.
#[derive(Clone, Copy, Debug, PartialEq, Eq)]
pub enum RunFault {
    /// There are more than 64 sources.
    TooManySources,
    /// An allocation failed in the thread that called the batch.
    OutOfMemory,
    /// A thread couldn't be started.
    Thread,
}

impl From<AllocError> for RunFault {
    ghost from_gives = { λ error fault. fault ≡ NoMemory };

    fn from(_: AllocError) -> Self {
        RunFault::OutOfMemory
    }
}
