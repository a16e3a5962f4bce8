//! The thread of a worker: it sets the lines of its lanes.
ghost use Rattle.std.specs.List.{AllZip};
ghost use Rattle.lanes.specs.Ends.{SameSetter};

use crate::threads::backoff::Backoff;
use crate::threads::progress::Progress;
use crate::threads::signals::Signals;
use crate::threads::worker::{Worker, go_round};
use crate::{Gate, Stage};
use lanes::{Making, Setter};
use std::snapshot::Snapshot;
use std::sync::Wait;
use std::thread::Promise;

/// The promise of the thread of a worker, with its setters as they were when the thread started.
#[derive(Drop)]
pub(crate) struct WorkedFrom<M: Making>(pub Snapshot<Worker<Setter<M>>>);

impl<M: Making> Promise<Worker<Setter<M>>> for WorkedFrom<M> {
    ghost kept_by = { λ p r. AllZip SameSetter p.0.value r };
}

/// Does the work of a worker's thread: passes the start barrier, and gives turns to its lanes until all are
/// done or the batch is stopped.
pub(crate) fn work<R: Wait, G: Gate, M: Making>(
    rt: &R,
    gate: &G,
    signals: &Signals,
    number: usize,
    worker: Worker<Setter<M>>,
) -> Worker<Setter<M>>
    ensures { AllZip SameSetter worker result }
{
    gate.enter(Stage::Setter, number);
    let mut worker = worker;
    let mut backoff = Backoff::new();
    for _ in rt.forever() {
        match go_round(&mut worker, signals) {
            Progress::Done => return worker,
            Progress::Made => backoff.renew(),
            Progress::None => signals.wait_as_worker(rt, number, &mut backoff),
        }
    }
    unreachable!()
}
