//! The values that the threads of a batch share: the start flag, the stop flag, and for each thread a signal
//! that wakes it.
ghost use Rattle.std.specs.Prelude.{◌<◌};

use crate::threads::backoff::Backoff;
use crate::{MOST_SOURCES, Plan};
use crossbeam_utils::CachePadded;
use std::array;
use std::sync::Wait;
use std::sync::atomic::{AtomicBool, Ordering};
use std::thread::Parker;

/// The largest number of workers.
const MOST_WORKERS: usize = 16;

/// The largest number of items, or of moves, in a row before the thread at the other end is woken.
const MOST_AT_ONCE: usize = 512;

/// The wake-up of one thread. The wake-ups of different threads are in different cache lines.
#[derive(Drop)]
struct Bell {
    parker: CachePadded<Parker>,
}

impl Bell {
    fn new() -> Self {
        Bell {
            parker: CachePadded::new(Parker::new()),
        }
    }

    /// Wakes the thread if it sleeps. Otherwise its next sleep ends immediately.
    fn ring(&self) {
        self.parker.unpark();
    }

    /// Sleeps until the thread is woken, at most for the sleep time of `backoff`.
    fn sleep<R: Wait>(&self, rt: &R, backoff: &mut Backoff) {
        self.parker.park_timeout(rt, backoff.sleep_time());
    }
}

fn ring_all(bells: &[Bell]) {
    for bell in bells {
        bell.ring();
    }
}

/// The values that the threads of a batch share.
#[derive(Drop)]
pub(crate) struct Signals {
    start: AtomicBool,
    stop: AtomicBool,
    sources: [Bell; MOST_SOURCES],
    workers: [Bell; MOST_WORKERS],
    collector: Bell,
    threads: usize,
    /// The number of lanes of each source.
    lanes: usize,
    lines: usize,
    moves: usize,
    ghost some: { 0 < threads },
    ghost some_lanes: { 0 < lanes },
}

impl Signals {
    /// Returns the values for a batch of this plan, with this many workers and with this many lanes for each
    /// source.
    pub fn new(plan: &Plan, threads: usize, lanes: usize) -> Self {
        let half = (plan.capacity.get() / 2).max(1);
        let block = plan.block.get();
        Signals {
            start: AtomicBool::new(false),
            stop: AtomicBool::new(false),
            sources: array::from_fn(|_| Bell::new()),
            workers: array::from_fn(|_| Bell::new()),
            collector: Bell::new(),
            threads: threads.max(1),
            lanes: lanes.max(1),
            lines: half
                .saturating_mul(block)
                .saturating_mul(lanes)
                .min(MOST_AT_ONCE),
            moves: half
                .saturating_mul(block.saturating_add(2))
                .min(MOST_AT_ONCE),
        }
    }

    /// Returns the number of items after which a thread is woken: as many as the messages in half the slots
    /// of a ring have, times the number of lanes of a source, at most 512.
    pub fn lines_before_wake(&self) -> usize {
        self.lines
    }

    /// Returns the largest number of moves in one visit of a worker to a lane: as many as are needed to make
    /// the results of the messages in half the slots of a ring, at most 512.
    pub fn moves_per_visit(&self) -> usize {
        self.moves
    }

    /// Starts the batch, once all its threads are started: sets the start flag, and wakes the threads of the
    /// sources, which then begin to read.
    pub fn start(&self) {
        self.start.store(true, Ordering::SeqCst);
        ring_all(&self.sources);
    }

    /// Returns whether the batch has started or is stopped.
    pub fn is_started_or_stopped(&self) -> bool {
        self.start.load(Ordering::SeqCst) || self.is_stopped()
    }

    pub fn is_stopped(&self) -> bool {
        self.stop.load(Ordering::SeqCst)
    }

    /// Stops the batch: sets the stop flag, and wakes the threads of the sources and the workers. Each of
    /// them returns when it reads the flag.
    pub fn stop(&self) {
        self.stop.store(true, Ordering::SeqCst);
        ring_all(&self.sources);
        ring_all(&self.workers);
    }

    /// Returns the number of a lane of a source among all lanes of the batch.
    fn lane_number(&self, source: usize, lane: usize) -> usize {
        (source % MOST_SOURCES)
            .saturating_mul(self.lanes)
            .saturating_add(lane)
    }

    /// Returns the wake-up of the source of a lane.
    fn source_of(&self, lane: usize) -> &Bell {
        &self.sources[lane / self.lanes % MOST_SOURCES]
    }

    /// Returns the wake-up of the worker that has the setter of this lane.
    fn worker_of(&self, lane: usize) -> &Bell {
        &self.workers[lane % self.threads % MOST_WORKERS]
    }

    /// Wakes the workers of all lanes of a source.
    fn wake_workers(&self, source: usize) {
        for lane in 0..self.lanes {
            self.worker_of(self.lane_number(source, lane)).ring();
        }
    }

    /// Wakes the workers of all lanes of a source. The thread of the source calls it after it has fed several
    /// items, before it sleeps, before it requests an item from a source that isn't ready, and when it is
    /// done.
    pub fn lines_fed(&self, source: usize) {
        self.wake_workers(source);
    }

    /// Waits, in the thread of a source, until there may be a free slot: pauses, or wakes the workers of the
    /// source's lanes and sleeps.
    pub fn wait_as_source<R: Wait>(&self, rt: &R, source: usize, backoff: &mut Backoff) {
        if backoff.looks_again() {
            return;
        }
        self.lines_fed(source);
        self.sources[source % MOST_SOURCES].sleep(rt, backoff);
    }

    /// Waits, in the thread of a source, until the batch may have started: pauses or sleeps.
    pub fn wait_for_start<R: Wait>(&self, rt: &R, source: usize, backoff: &mut Backoff) {
        if !backoff.looks_again() {
            self.sources[source % MOST_SOURCES].sleep(rt, backoff);
        }
    }

    /// Wakes the thread of the lane's source and the collecting thread. A worker calls it after it has made
    /// moves in a lane.
    pub fn lines_set(&self, lane: usize) {
        self.source_of(lane).ring();
        self.collector.ring();
    }

    /// Waits, in the thread of a worker, until there may be items or free slots for results: pauses or
    /// sleeps.
    pub fn wait_as_worker<R: Wait>(&self, rt: &R, number: usize, backoff: &mut Backoff) {
        if !backoff.looks_again() {
            self.worker_of(number).sleep(rt, backoff);
        }
    }

    /// Wakes the workers of all lanes of a source if the collecting thread has taken or dropped results, or
    /// has taken the end, when it visited these lanes (`any`).
    pub fn answers_taken(&self, source: usize, any: bool) {
        if any {
            self.wake_workers(source);
        }
    }

    /// Sleeps, in the collecting thread, until there may be results.
    pub fn sleep_as_collector<R: Wait>(&self, rt: &R, backoff: &mut Backoff) {
        self.collector.sleep(rt, backoff);
    }
}
