//! A batch whose results are given to a collector.
ghost use Rattle.std.specs.Prelude.{◌≡◌, ◌+◌, ◌<◌, ◌≤◌, ◌⊎◌, [], None, Err, IfOk, IfErr, IsOk, map, vec_capacity, vec_len};
ghost use Rattle.batch.specs.declared.run_fault.RunFault.TheVariants.{TooManySources, OutOfMemory as NoMemory, Thread};
ghost use Rattle.batch.specs.Gathering.{Gathers};
ghost use Rattle.batch.specs.Closed.{AreBack, IsCollectedOf, IsWhole};

use crate::collecting::collector_thread::Collected;
use crate::collecting::lane_taker::LaneTaker;
use crate::context::Context;
use crate::lane::BatchLanes;
use crate::lane_count::LaneCount;
use crate::not_started::NotStarted;
use crate::threads::signals::Signals;
use crate::threads::spawning::start_sources;
use crate::threads::worker::Worker;
use crate::{ClosedLane, Collector, Gate, ItemSource, Plan, RunEnd, RunFault};
use dealt_lanes::Shared;
use lanes::{Making, Stored};
use std::alloc::{AllocError, Global};
use std::sync::Wait;
use std::thread;
use std::thread::{Scope, Threads};

/// The largest number of sources of a batch.
pub const MOST_SOURCES: usize = 64;

/// The options of a batch: its plan, the start barrier of its threads, and the largest number of lanes of a
/// source.
#[derive(Drop)]
pub struct ItemOptions<'a, G> {
    pub plan: Plan,
    pub gate: &'a G,
    pub lanes: usize,
}

/// Returns this many workers without setters. The error means that an allocation failed.
fn empty_workers<T: Drop>(alloc: Global, threads: usize) -> Result<Vec<Worker<T>>, AllocError>
    ensures made { IfOk result (λ workers. vec_len workers ≡ threads) }
    ensures none { threads ≡ 0 → IsOk result }
{
    let mut workers = Vec::new(alloc);
    for made in 0..threads {
        workers.push(Worker::new(alloc))?;
    }
    Ok(workers)
}

/// Returns the lanes of a batch before any lane is open, with the gatherers of other sources and with room
/// for all closed lanes. The error means that an allocation failed.
fn no_lanes<S: Drop, M: Making>(
    alloc: Global,
    sources: usize,
    threads: usize,
    takers: Vec<LaneTaker<M::Out>>,
) -> Result<BatchLanes<S, M>, AllocError>
    ensures closed { IfOk result (λ lanes. lanes.closed.items ≡ []) }
    ensures room { IfOk result (λ lanes. sources ≤ vec_capacity lanes.closed) }
    ensures workers { IfOk result (λ lanes. vec_len lanes.workers ≡ threads) }
    ensures takers { IfOk result (λ lanes. lanes.takers ≡ takers) }
    ensures none { sources ≡ 0 → threads ≡ 0 → IsOk result }
{
    let workers = empty_workers(alloc, threads)?;
    Ok(BatchLanes {
        closed: Vec::with_capacity(alloc, sources)?,
        workers,
        takers,
    })
}

/// Returns the number of workers of a batch: as many as the plan states, but never more than there are lanes.
fn worker_count(plan: &Plan, sources: usize, lanes: LaneCount) -> usize
    ensures none { sources ≡ 0 → result ≡ 0 }
    ensures some { 0 < sources → 0 < result }
{
    plan.workers.get().min(sources.saturating_mul(lanes.get()))
}

/// Makes the lanes of a batch, starts its threads in a scope, and collects the results.
fn run_in_scope<
    's,
    E,
    R: Threads + Wait + Sync,
    M: Shared + Send + 's,
    S: ItemSource<M::In> + Send + Drop + 's,
    G: Gate + Sync,
    C: Collector<Item = M::Out> + Drop,
>(
    scope: &'s Scope<'s, E>,
    context: &'s Context<'s, R, G>,
    sources: Vec<(S, M)>,
    takers: Vec<LaneTaker<M::Out>>,
    collector: C,
) -> Result<(Vec<ClosedLane<S>>, Collected<C, M::Out>), NotStarted<C>>
where
    M::In: Send + 's,
    M::Out: Send + 's,
    <M::In as Stored>::Slots: Send + 's,
    <M::Out as Stored>::Slots: Send + 's,
    requires places { vec_len sources + vec_len takers ≤ C.lanes collector }
    requires willing { C.refused collector None }
    ensures gathered { IfOk result (λ back. Gathers S.next_gives M.makes S.origin
        C.lanes C.given C.refused sources.items takers.items collector back.0.items back.1) }
    ensures begun { vec_len sources ≡ 0 → IsOk result }
    ensures not_started { IfErr result (λ not_started. not_started.collector ≡ collector) }
{
    let threads = worker_count(&context.plan, sources.len(), context.lanes);
    let Ok(lanes) = no_lanes(context.alloc, sources.len(), threads, takers) else {
        let fault = RunFault::OutOfMemory;
        return Err(NotStarted { collector, fault });
    };
    let (closed, _, collected) = start_sources(scope, context, sources, lanes, collector)?;
    Ok((closed, collected))
}

/// Runs the threads of a batch in one scope.
fn run_threads<
    R: Threads + Wait + Sync,
    M: Shared + Send,
    S: ItemSource<M::In> + Send + Drop,
    G: Gate + Sync,
    C: Collector<Item = M::Out> + Drop,
>(
    context: &Context<'_, R, G>,
    sources: Vec<(S, M)>,
    takers: Vec<LaneTaker<M::Out>>,
    collector: C,
) -> Result<(Vec<ClosedLane<S>>, Collected<C, M::Out>), NotStarted<C>>
where
    M::In: Send,
    M::Out: Send,
    <M::In as Stored>::Slots: Send,
    <M::Out as Stored>::Slots: Send,
    requires places { vec_len sources + vec_len takers ≤ C.lanes collector }
    requires willing { C.refused collector None }
    ensures gathered { IfOk result (λ back. Gathers S.next_gives M.makes S.origin
        C.lanes C.given C.refused sources.items takers.items collector back.0.items back.1) }
    ensures begun { vec_len sources ≡ 0 → IsOk result }
    ensures not_started { IfErr result (λ not_started. not_started.collector ≡ collector) }
{
    thread::scope(
        thread::scope_env(),
        context.rt,
        move |scope| -> Result<(Vec<ClosedLane<S>>, Collected<C, M::Out>), NotStarted<C>>
            requires places { vec_len sources + vec_len takers ≤ C.lanes collector }
            requires willing { C.refused collector None }
            ensures gathered { IfOk result (λ back. Gathers S.next_gives M.makes S.origin
                C.lanes C.given C.refused sources.items takers.items collector back.0.items back.1) }
            ensures begun { vec_len sources ≡ 0 → IsOk result }
            ensures not_started { IfErr result (λ not_started. not_started.collector ≡ collector) }
        { run_in_scope(scope, context, sources, takers, collector) },
    )
}

/// Makes results of the items of up to 64 sources, each with its maker, and gives the results to a collector
/// as they come. There is one thread per source, which deals its items over the lanes of the source. A source
/// has as many lanes as the options state, but no more than the plan states workers, and so few that all
/// sources together have at most 64. There are at most as many workers as the plan states, and no more than
/// lanes; the calling thread is the collecting thread. It may wait for its threads, for a source and for the
/// start barrier.
///
/// Items are sent to the workers in blocks of the size that the plan states: the items of a block that isn't
/// full wait for later items or for the end of the source.
///
/// Returns the collector. If there is no error, and the collector had received nothing before the call, it
/// has received for each source what its maker makes of the first items that the source returned, in order,
/// and then the end of its lanes, if they have one. If the end is `Complete`, these are all items of the
/// source, and the source has returned its end. If the collector refuses something, it isn't called again,
/// and the threads are stopped and joined. A thread that is reading a source can't be stopped: the call
/// returns only after such a read has returned.
///
/// If an allocation fails in a maker, its lane is abandoned and the other sources continue. The collector
/// receives the results of the items before the first one without a result, and then the end `GaveUp`; the
/// results of later items are dropped.
///
/// Errors: `TooManySources`, checked first; `OutOfMemory`, if an allocation fails in the calling thread
/// before it collects results; `Thread`, if a thread can't be started. After an error all started threads
/// have been joined, the sources and makers are dropped, no source was asked for an item, and the collector
/// wasn't called. Without sources there is no error.
#[tactic(auto, using(crate::proofs::SpawningLemmas::short))]
pub fn run_items<
    R: Threads + Wait + Sync,
    M: Shared + Send,
    S: ItemSource<M::In> + Send + Drop,
    G: Gate + Sync,
    C: Collector<Item = M::Out> + Drop,
>(
    rt: &R,
    alloc: Global,
    sources: Vec<(S, M)>,
    options: ItemOptions<'_, G>,
    collector: C,
) -> (C, Result<RunEnd<S>, RunFault>)
where
    M::In: Send,
    M::Out: Send,
    <M::In as Stored>::Slots: Send,
    <M::Out as Stored>::Slots: Send,
    requires lanes { vec_len sources ≤ C.lanes collector }
    requires willing { C.refused collector None }
    ensures collected { IfOk result.1 (λ run. IsCollectedOf S.next_gives M.makes
        C.given sources.items run collector result.0) }
    ensures whole { IfOk result.1 (λ run. IsWhole run) }
    ensures sources { IfOk result.1 (λ run.
        AreBack S.origin sources.items (map (λ lane. lane.source) run.lanes.items)) }
    ensures refused { IfOk result.1 (λ run. C.refused result.0 run.refusal) }
    ensures lanes { C.lanes result.0 ≡ C.lanes collector }
    ensures fault { IfErr result.1 (λ fault. result.0 ≡ collector) }
    ensures none { vec_len sources ≡ 0 → IsOk result.1 }
    ensures many { 64 < vec_len sources → result.1 ≡ Err TooManySources }
    ensures few { vec_len sources ≤ 64
        → IfErr result.1 (λ fault. (fault ≡ NoMemory) ⊎ (fault ≡ Thread)) }
{
    if sources.len() > MOST_SOURCES {
        return (collector, Err(RunFault::TooManySources));
    }
    let ItemOptions { plan, gate, lanes } = options;
    let lanes = LaneCount::new(&plan, sources.len(), lanes);
    let signals = Signals::new(
        &plan,
        worker_count(&plan, sources.len(), lanes),
        lanes.get(),
    );
    let context = Context {
        rt,
        gate,
        signals,
        alloc,
        plan,
        lanes,
    };
    match run_threads(&context, sources, Vec::new(alloc), collector) {
        Ok((lanes, collected)) => {
            let Collected {
                lanes: _,
                collector,
                refusal,
            } = collected;
            (collector, Ok(RunEnd { lanes, refusal }))
        }
        Err(NotStarted { collector, fault }) => (collector, Err(fault)),
    }
}
