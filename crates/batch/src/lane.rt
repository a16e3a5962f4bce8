//! The lanes of a batch: how the lanes of a source are opened, and how they are closed.
ghost use Rattle.std.specs.Prelude.{◌≡◌, ◌<◌, ◌≤◌, ◌+◌, ◌*◌, ◌^◌, ◌++◌, ◌∷◌, [], length, vec_capacity, vec_len, IfOk, IfSome};
ghost use Rattle.dealt_lanes.specs.Settled.{AreDealtLanes};
ghost use Rattle.dealt_lanes.specs.Dealt.{dealer_lanes};
ghost use Rattle.batch.specs.Lanes.{Begins, CanEnd, Ends, IsFinished, IsFresh};

use crate::collecting::lane_taker::LaneTaker;
use crate::context::Context;
use crate::threads::source_thread::Feeding;
use crate::threads::worker::{Worker, give_all, take_back_all};
use crate::{ClosedLane, Plan};
use dealt_lanes::{Dealer, Shared, open_shared, settle_lanes};
use lanes::{Making, Setter, Stored};
use run_plan::OutOfMemory;
use std::alloc::Global;

/// The lanes of a batch.
#[derive(Drop)]
pub(crate) struct BatchLanes<S, M: Making> {
    /// The lanes that are closed, in the order of their sources.
    pub closed: Vec<ClosedLane<S>>,
    /// The setters of the open lanes, worker by worker.
    pub workers: Vec<Worker<Setter<M>>>,
    /// The gatherers of the sources whose lanes are open, in the order of their numbers.
    pub takers: Vec<LaneTaker<M::Out>>,
}

/// A source with the dealer of its lanes, and an empty list with room for the setters of the lanes when these
/// come back.
#[derive(Drop)]
pub(crate) struct Begun<S, M: Making> {
    pub feeding: Feeding<S, M::In>,
    pub room: Vec<Setter<M>>,
}

/// Opens the lanes of a source with this maker. The error means that an allocation failed.
fn open_source<M: Shared>(
    alloc: Global,
    plan: &Plan,
    maker: M,
    lanes: usize,
) -> Result<(Dealer<M::In>, Vec<Setter<M>>, LaneTaker<M::Out>), OutOfMemory>
    requires { 0 < lanes }
    ensures fresh { IfOk result (λ ends. IsFresh (M.makes maker) ends.0 ends.1.items ends.2) }
    ensures count { IfOk result (λ ends. length ends.1.items ≡ lanes) }
{
    let (dealer, setters, gatherer) = open_shared(alloc, maker, lanes, plan.capacity, plan.block)?;
    let taker = LaneTaker {
        gatherer,
        end: None,
    };
    Ok((dealer, setters, taker))
}

/// Opens the lanes of a source: appends their setters to those of the workers, puts the gatherer before the
/// others, and returns the dealer with the source. Returns `None` if an allocation fails, or if there is no
/// worker.
pub(crate) fn begin<R, G, S: Drop, M: Shared>(
    context: &Context<'_, R, G>,
    number: usize,
    source: (S, M),
    workers: &mut Vec<Worker<Setter<M>>>,
    lanes: &mut Vec<LaneTaker<M::Out>>,
) -> Option<Begun<S, M>>
    ensures begun { IfSome result (λ begun. Begins (context.now.lanes) number source begun.feeding
        (record { workers = workers.old.items; lanes = lanes.old.items })
        (record { workers = workers.new.items; lanes = lanes.new.items })) }
    ensures fits { IfSome result (λ begun. number * context.now.lanes + context.now.lanes < 2 ^ 64) }
    ensures room { IfSome result (λ begun. (begun.room.items ≡ []) × (context.now.lanes ≤ vec_capacity begun.room)) }
{
    let (source, maker) = source;
    let count = context.lanes.get();
    let Ok((dealer, mut setters, taker)) = open_source(context.alloc, &context.plan, maker, count)
    else {
        return None;
    };
    let first = number.checked_mul(count)?;
    // The numbers of all lanes of the source fit.
    first.checked_add(count)?;
    give_all(workers, first, &mut setters)?;
    match lanes.insert(0, taker) {
        Ok(()) => Some(Begun {
            feeding: Feeding { source, dealer },
            room: setters,
        }),
        Err(_) => None,
    }
}

/// Closes the lanes of a source, from their endpoints.
fn finish_source<S: Drop, M: Making>(
    feeding: Feeding<S, M::In>,
    setters: Vec<Setter<M>>,
    taker: LaneTaker<M::Out>,
) -> ClosedLane<S>
    requires { AreDealtLanes feeding.dealer setters.items taker.gatherer }
    ensures { IsFinished feeding setters.items taker result }
{
    let Feeding { source, dealer } = feeding;
    let LaneTaker { gatherer, end, .. } = taker;
    // For the proof: the contract of `settle_lanes` states that the results gathered are those of the first
    // items dealt.
    settle_lanes(dealer, setters, gatherer);
    ClosedLane { source, end }
}

/// Appends a lane. There must be room for it.
fn push<S: Drop>(closed: &mut Vec<ClosedLane<S>>, lane: ClosedLane<S>)
    requires { vec_len closed.old < vec_capacity closed.old }
    ensures items { closed.new.items ≡ closed.old.items ++ lane ∷ [] }
    ensures room { vec_capacity closed.old ≤ vec_capacity closed.new }
{
    match closed.push(lane) {
        Ok(()) => (),
        Err(_) => unreachable!(),
    }
}

/// Removes and returns the first gatherer. There must be one.
fn take_first<O: Stored>(takers: &mut Vec<LaneTaker<O>>) -> LaneTaker<O>
    requires { takers.old.items ≡ [] → ⊥ }
    ensures { takers.old.items ≡ result ∷ takers.new.items }
{
    takers.remove(0)
}

/// Closes the lanes of the first source whose lanes are open, after its thread was joined, and appends one
/// closed lane. `room` is an empty list with room for the setters of the source.
pub(crate) fn end<S: Drop, M: Making>(
    number: usize,
    begun: Begun<S, M>,
    closed: &mut Vec<ClosedLane<S>>,
    workers: &mut Vec<Worker<Setter<M>>>,
    lanes: &mut Vec<LaneTaker<M::Out>>,
)
    requires fits { number * dealer_lanes begun.feeding.dealer + dealer_lanes begun.feeding.dealer < 2 ^ 64 }
    requires empty { begun.room.items ≡ [] }
    requires setters { dealer_lanes begun.feeding.dealer ≤ vec_capacity begun.room }
    requires room { vec_len closed.old < vec_capacity closed.old }
    requires lanes { CanEnd (dealer_lanes begun.feeding.dealer) number begun.feeding.dealer
        (record { workers = workers.old.items; lanes = lanes.old.items }) }
    ensures ended { Ends (dealer_lanes begun.feeding.dealer) number begun.feeding closed.old.items closed.new.items
        (record { workers = workers.old.items; lanes = lanes.old.items })
        (record { workers = workers.new.items; lanes = lanes.new.items }) }
    ensures room { vec_capacity closed.old ≤ vec_capacity closed.new }
{
    let Begun { feeding, room } = begun;
    let mut setters = room;
    let count = feeding.dealer.lanes();
    take_back_all(workers, number * count, count, &mut setters);
    let taker = take_first(lanes);
    push(closed, finish_source(feeding, setters, taker));
}
