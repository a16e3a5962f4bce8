//! The threads of a batch. Each level starts one thread, calls the level below, and then joins its thread.
//! For the proof: what a thread was given is then known where its promise is used.
ghost use Rattle.std.specs.Prelude.{◌≡◌, ◌+◌, ◌*◌, ◌^◌, ◌<◌, ◌≤◌, ◌++◌, ◌∷◌, [], None, Ok, Err, vec_capacity, vec_len, IfErr, IfOk, IfSome, IsOk, IsOkAnd};
ghost use Rattle.std.specs.List.{AllZip};
ghost use Rattle.batch.specs.Gathering.{Collects, Gathers};
ghost use Rattle.batch.specs.Lanes.{CanEnd, Ends};
ghost use Rattle.lanes.specs.Ends.{SameSetter};
ghost use Rattle.dealt_lanes.specs.Dealt.{dealer_lanes};
ghost use Rattle.batch.specs.declared.run_fault.RunFault.TheVariants.{TooManySources};

use crate::collecting::collector_thread::{Collected, collect};
use crate::collecting::lane_taker::LaneTaker;
use crate::context::Context;
use crate::lane::{BatchLanes, Begun, begin, end};
use crate::not_started::NotStarted;
use crate::threads::signals::Signals;
use crate::threads::source_thread::{FedFrom, Feeding, feed};
use crate::threads::worker::Worker;
use crate::threads::worker_thread::{WorkedFrom, work};
use crate::{ClosedLane, Collector, Gate, ItemSource, RunFault};
use dealt_lanes::Shared;
use lanes::{Making, Setter, Stored};
use std::snapshot::Snapshot;
use std::sync::Wait;
use std::thread::{PromisedHandle, Scope, Threads};

/// Stops the threads that were started, before anything is collected, and returns this error with the
/// collector.
fn stopped<C>(signals: &Signals, collector: C, fault: RunFault) -> NotStarted<C>
    requires { fault ≡ TooManySources → ⊥ }
    ensures { result.collector ≡ collector }
{
    signals.stop();
    NotStarted { collector, fault }
}

/// Appends a worker. There must be room for it.
fn put_back<T: Drop>(workers: &mut Vec<Worker<T>>, worker: Worker<T>)
    requires { vec_len workers.old < vec_capacity workers.old }
    ensures items { workers.new.items ≡ workers.old.items ++ worker ∷ [] }
    ensures room { vec_capacity workers.old ≤ vec_capacity workers.new }
{
    match workers.push(worker) {
        Ok(()) => (),
        Err(_) => unreachable!(),
    }
}

/// Appends a worker that was joined, if the levels below succeeded. Otherwise returns their error.
fn come_back<T: Drop, C, O: Stored>(
    worker: Worker<T>,
    below: Result<(Vec<Worker<T>>, Collected<C, O>), NotStarted<C>>,
) -> Result<(Vec<Worker<T>>, Collected<C, O>), NotStarted<C>>
    requires { IfOk below (λ back. vec_len back.0 < vec_capacity back.0) }
    ensures items { IfOk result (λ after.
        IsOkAnd below (λ back. after.0.items ≡ back.0.items ++ worker ∷ [])) }
    ensures room { IfOk result (λ after.
        IsOkAnd below (λ back. vec_capacity back.0 ≤ vec_capacity after.0)) }
    ensures collected { IfOk result (λ after. IsOkAnd below (λ back. after.1 ≡ back.1)) }
    ensures not_started { IfErr result (λ not_started. below ≡ Err not_started) }
{
    let (mut workers, collected) = below?;
    put_back(&mut workers, worker);
    Ok((workers, collected))
}

/// Starts the batch, since all its threads are started, and collects the results. If the collector refuses
/// something, stops all threads.
fn collect_or_stop<R: Wait, G: Gate, C: Collector>(
    context: &Context<'_, R, G>,
    lanes: Vec<LaneTaker<C::Item>>,
    collector: C,
) -> Collected<C, C::Item>
    requires places { vec_len lanes ≤ C.lanes collector }
    requires willing { C.refused collector None }
    ensures { Collects C.lanes C.given C.refused lanes.items collector result }
{
    let signals = &context.signals;
    signals.start();
    let collected = collect(context.rt, context.gate, signals, lanes, collector);
    if collected.refusal.is_some() {
        signals.stop();
    }
    collected
}

/// Starts a thread for each worker, beginning with the last one, and then collects the results. The memory
/// for the return value is reserved before, so that this call can't fail any more once it collects.
pub(crate) fn start_workers<
    's,
    E,
    R: Threads + Wait + Sync,
    M: Making + Send + 's,
    G: Gate + Sync,
    C: Collector<Item = M::Out> + Drop,
>(
    scope: &'s Scope<'s, E>,
    context: &'s Context<'s, R, G>,
    workers: Vec<Worker<Setter<M>>>,
    lanes: Vec<LaneTaker<M::Out>>,
    collector: C,
) -> Result<(Vec<Worker<Setter<M>>>, Collected<C, M::Out>), NotStarted<C>>
where
    M::In: Send + 's,
    M::Out: Send + 's,
    <M::In as Stored>::Slots: Send + 's,
    <M::Out as Stored>::Slots: Send + 's,
    requires places { vec_len lanes ≤ C.lanes collector }
    requires willing { C.refused collector None }
    ensures workers { IfOk result (λ back. AllZip (AllZip SameSetter) workers.items back.0.items) }
    ensures room { IfOk result (λ back. vec_capacity workers ≤ vec_capacity back.0) }
    ensures collected { IfOk result (λ back.
        Collects C.lanes C.given C.refused lanes.items collector back.1) }
    ensures begun { vec_len workers ≡ 0 → IsOk result }
    ensures not_started { IfErr result (λ not_started. not_started.collector ≡ collector) }
{
    let mut workers = workers;
    let Some(worker) = workers.pop() else {
        let collected = collect_or_stop(context, lanes, collector);
        return Ok((workers, collected));
    };
    let signals = &context.signals;
    if workers.reserve(1).is_err() {
        return Err(stopped(signals, collector, RunFault::OutOfMemory));
    }
    let number = workers.len();
    let promise = WorkedFrom(Snapshot::of(&worker));
    let (rt, gate) = (context.rt, context.gate);
    let Ok(child) = scope.spawn_with(promise, move || work(rt, gate, signals, number, worker))
    else {
        return Err(stopped(signals, collector, RunFault::Thread));
    };
    let below = start_workers(scope, context, workers, lanes, collector);
    let worker = child.join(rt);
    come_back(worker, below)
}

/// Combines the closed lanes with the result of the workers, at the level below that of the last source.
fn with_no_source<S: Drop, T: Drop, C, O: Stored>(
    closed: Vec<ClosedLane<S>>,
    started: Result<(Vec<Worker<T>>, Collected<C, O>), NotStarted<C>>,
) -> Result<(Vec<ClosedLane<S>>, Vec<Worker<T>>, Collected<C, O>), NotStarted<C>>
    ensures closed { IfOk result (λ back. back.0 ≡ closed) }
    ensures ok { IfOk result (λ back. started ≡ Ok (back.1, back.2)) }
    ensures not_started { IfErr result (λ not_started. started ≡ Err not_started) }
{
    let (workers, collected) = started?;
    Ok((closed, workers, collected))
}

/// Closes the lanes of a source, if the levels below succeeded. Otherwise returns their error.
fn end_after<S: Drop, M: Making, C>(
    number: usize,
    begun: Begun<S, M>,
    below: Result<
        (
            Vec<ClosedLane<S>>,
            Vec<Worker<Setter<M>>>,
            Collected<C, M::Out>,
        ),
        NotStarted<C>,
    >,
) -> Result<
    (
        Vec<ClosedLane<S>>,
        Vec<Worker<Setter<M>>>,
        Collected<C, M::Out>,
    ),
    NotStarted<C>,
>
    requires fits { number * dealer_lanes begun.feeding.dealer + dealer_lanes begun.feeding.dealer < 2 ^ 64 }
    requires empty { begun.room.items ≡ [] }
    requires setters { dealer_lanes begun.feeding.dealer ≤ vec_capacity begun.room }
    requires room { IfOk below (λ back. vec_len back.0 < vec_capacity back.0) }
    requires lane { IfOk below (λ back. CanEnd (dealer_lanes begun.feeding.dealer) number begun.feeding.dealer
        (record { workers = back.1.items; lanes = back.2.lanes.items })) }
    ensures ended { IfOk result (λ after. IsOkAnd below (λ back.
        Ends (dealer_lanes begun.feeding.dealer) number begun.feeding back.0.items after.0.items
        (record { workers = back.1.items; lanes = back.2.lanes.items })
        (record { workers = after.1.items; lanes = after.2.lanes.items }))) }
    ensures count { IfOk result (λ after.
        IsOkAnd below (λ back. vec_len after.0 ≡ vec_len back.0 + 1)) }
    ensures room { IfOk result (λ after.
        IsOkAnd below (λ back. vec_capacity back.0 ≤ vec_capacity after.0)) }
    ensures collector { IfOk result (λ after. IsOkAnd below (λ back.
        (after.2.collector ≡ back.2.collector) × (after.2.refusal ≡ back.2.refusal))) }
    ensures not_started { IfErr result (λ not_started. below ≡ Err not_started) }
{
    let (mut closed, mut workers, mut collected) = below?;
    end(
        number,
        begun,
        &mut closed,
        &mut workers,
        &mut collected.lanes,
    );
    Ok((closed, workers, collected))
}

/// Starts the thread of a source. Returns `None` if no thread can be started.
fn start_source<
    's,
    E,
    R: Wait + Sync,
    I: Stored + Send + 's,
    S: ItemSource<I> + Send + Drop + 's,
    G: Gate + Sync,
>(
    scope: &'s Scope<'s, E>,
    context: &'s Context<'s, R, G>,
    number: usize,
    feeding: Feeding<S, I>,
) -> Option<PromisedHandle<Feeding<S, I>, FedFrom<S, I>>>
where
    I::Slots: Send + 's,
    ensures { IfSome result (λ child. child.promise.0.value ≡ feeding) }
{
    let signals = &context.signals;
    let promise = FedFrom(Snapshot::of(&feeding));
    let (rt, gate) = (context.rt, context.gate);
    match scope.spawn_with(promise, move || feed(rt, gate, signals, number, feeding)) {
        Ok(child) => Some(child),
        Err(_) => None,
    }
}

/// Opens the lanes of each source and starts a thread for it, beginning with the last source; then starts the
/// threads of the workers and collects the results. The lanes of a source are closed after its thread was
/// joined.
pub(crate) fn start_sources<
    's,
    E,
    R: Threads + Wait + Sync,
    M: Shared + Send + 's,
    S: ItemSource<M::In> + Send + Drop + 's,
    G: Gate + Sync,
    C: Collector<Item = M::Out> + Drop,
>(
    scope: &'s Scope<'s, E>,
    context: &'s Context<'s, R, G>,
    sources: Vec<(S, M)>,
    lanes: BatchLanes<S, M>,
    collector: C,
) -> Result<
    (
        Vec<ClosedLane<S>>,
        Vec<Worker<Setter<M>>>,
        Collected<C, M::Out>,
    ),
    NotStarted<C>,
>
where
    M::In: Send + 's,
    M::Out: Send + 's,
    <M::In as Stored>::Slots: Send + 's,
    <M::Out as Stored>::Slots: Send + 's,
    requires some { 0 < vec_len sources → 0 < vec_len lanes.workers }
    requires places { vec_len sources + vec_len lanes.takers ≤ C.lanes collector }
    requires willing { C.refused collector None }
    requires none { lanes.closed.items ≡ [] }
    requires room { vec_len sources ≤ vec_capacity lanes.closed }
    ensures workers { IfOk result (λ back. AllZip (AllZip SameSetter) lanes.workers.items back.1.items) }
    ensures count { IfOk result (λ back. vec_len back.0 ≡ vec_len sources) }
    ensures room { IfOk result (λ back. vec_capacity lanes.closed ≤ vec_capacity back.0) }
    ensures gathered { IfOk result (λ back. Gathers S.next_gives M.makes S.origin
        C.lanes C.given C.refused sources.items lanes.takers.items collector back.0.items back.2) }
    ensures begun { vec_len sources ≡ 0 → vec_len lanes.workers ≡ 0 → IsOk result }
    ensures not_started { IfErr result (λ not_started. not_started.collector ≡ collector) }
{
    let mut sources = sources;
    let BatchLanes {
        closed,
        mut workers,
        mut takers,
    } = lanes;
    let Some(source) = sources.pop() else {
        let started = start_workers(scope, context, workers, takers, collector);
        return with_no_source(closed, started);
    };
    let number = sources.len();
    let signals = &context.signals;
    let Some(begun) = begin(context, number, source, &mut workers, &mut takers) else {
        return Err(stopped(signals, collector, RunFault::OutOfMemory));
    };
    let Begun { feeding, room } = begun;
    let Some(child) = start_source(scope, context, number, feeding) else {
        return Err(stopped(signals, collector, RunFault::Thread));
    };
    let lanes = BatchLanes {
        closed,
        workers,
        takers,
    };
    let below = start_sources(scope, context, sources, lanes, collector);
    let feeding = child.join(context.rt);
    end_after(number, Begun { feeding, room }, below)
}
