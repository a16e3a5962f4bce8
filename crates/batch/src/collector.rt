//! Collectors, which receive the results of a batch.
ghost use Rattle.std.specs.Prelude.{◌≡◌, ◌<◌, ℕ, List, Option, None, OnOk, is_ok};
ghost use Rattle.std.specs.Result.{result_err};
ghost use Rattle.batch.specs.declared.collector.Refusal.{Refusal as Refused};
ghost use Rattle.batch.specs.declared.collector.Refusal.TheVariants.{OutOfMemory as NoMemory};
ghost use Rattle.batch.specs.Events.{Answered, Ended, Event, Gets, Keeps};

use lanes::{LaneEnd, Made, Stored};
use std::alloc::AllocError;

/// The reason why a collector takes no more.
#[derive(Clone, Copy, Debug, PartialEq, Eq)]
pub enum Refusal {
    /// An allocation failed.
    OutOfMemory,
    /// Its output couldn't be written.
    Output,
}

impl From<AllocError> for Refusal {
    ghost from_gives = { λ error refusal. refusal ≡ NoMemory };

    fn from(_: AllocError) -> Self {
        Refusal::OutOfMemory
    }
}

/// Receives the results of a batch as they come, and the end of each lane after its results. For a collector
/// each source has one lane, with the number of the source, from 0, even if the batch deals the items of the
/// source over several. The results of one lane come in the order of the items of its source; the order among
/// different lanes isn't specified. All calls are made in the thread that called the batch.
///
/// After a refusal the collector isn't called again, and the batch is stopped. Before the thread sleeps, and
/// after the end of the last lane, it calls `about_to_wait`, so that the collector can write what it has
/// buffered.
pub trait Collector {
    /// A result.
    type Item: Made + Stored;

    /// The number of lanes that the collector can receive results of.
    ghost lanes: { Self → ℕ };

    /// Whether these events, in this order, are those that the collector has received.
    ghost given: { Self → List (Event Self.Item) → Type 0 };

    /// Whether this is the refusal of the collector, if it has refused anything.
    ghost refused: { Self → Option Refused → Type 0 };

    /// Whether nothing that the collector has received is still waiting to be written.
    ghost quiet: { Self → Type 0 };

    /// Receives the next result of a lane. A result that is refused doesn't count as received.
    fn take(&mut self, lane: usize, item: Self::Item) -> Result<(), Refusal>
        requires lane { lane < lanes self.old }
        requires willing { refused self.old None }
        ensures lanes { lanes self.new ≡ lanes self.old }
        ensures given { Gets given self.old (lane, Answered item) (is_ok result) self.new }
        ensures refused { refused self.new (result_err result) };

    /// Receives the end of a lane: no result of this lane follows. An end that is refused doesn't count as
    /// received.
    fn end(&mut self, lane: usize, end: LaneEnd) -> Result<(), Refusal>
        requires lane { lane < lanes self.old }
        requires willing { refused self.old None }
        ensures lanes { lanes self.new ≡ lanes self.old }
        ensures given { Gets given self.old (lane, Ended end) (is_ok result) self.new }
        ensures refused { refused self.new (result_err result) };

    /// Writes what the collector has buffered, if anything: no result is available, and the thread is about
    /// to sleep, or to wait for the end of the other threads.
    fn about_to_wait(&mut self) -> Result<(), Refusal>
        requires { refused self.old None }
        ensures quiet { OnOk result (quiet self.new) }
        ensures lanes { lanes self.new ≡ lanes self.old }
        ensures given { Keeps given self.old self.new }
        ensures refused { refused self.new (result_err result) };
}
