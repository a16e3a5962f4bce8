//! The start barrier of the threads of a batch.

/// The task of a thread of a batch.
#[derive(Clone, Copy, Debug, PartialEq, Eq)]
pub enum Stage {
    /// It reads the lines of a source.
    Source,
    /// It sets the lines of some lanes.
    Setter,
    /// It collects the results of all sources.
    Collector,
}

/// A start barrier, which each thread of a batch passes once. The barrier may wait.
pub trait Gate {
    /// Passes the barrier. The thread of a source calls it with the number of its source, before it reads the
    /// first line; a worker with its own number, before its first turn; and the collecting thread with 0,
    /// after all threads were started and before it takes results. Numbers start at 0.
    fn enter(&self, stage: Stage, number: usize);
}

/// A start barrier that never waits.
#[derive(Clone, Copy, Debug, Drop)]
pub struct NoGate;

impl Gate for NoGate {
    fn enter(&self, _stage: Stage, _number: usize) {}
}
