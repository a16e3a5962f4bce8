//! Opens several lanes for one source.
ghost use Rattle.std.specs.Prelude.{◌≡◌, ◌+◌, ◌<◌, ◌++◌, ◌∷◌, [], All, None, IfOk, OnOk, length};
ghost use Rattle.lanes.specs.Turns.{fresh};
ghost use Rattle.lanes.specs.Ends.{state_of};
ghost use Rattle.dealt_lanes.specs.Lanes.{AllThree, IsNew};
ghost use Rattle.dealt_lanes.specs.Dealt.{dealer_end, dealer_turn, dealt, gathered, gatherer_end};
ghost use Rattle.dealt_lanes.specs.Settled.{AreDealtLanes};

use crate::{Dealer, Gatherer, Shared};
use lanes::{Block, Capacity, Feeder, Making, Setter, Taker, open};
use run_plan::OutOfMemory;
use std::alloc::{AllocError, Global};

/// The endpoints of lanes, lane by lane.
#[derive(Drop)]
struct Endpoints<F, S, T> {
    feeders: Vec<F>,
    setters: Vec<S>,
    takers: Vec<T>,
}

/// Appends the endpoints of a lane. The error means that an allocation failed.
fn push<F: Drop, S: Drop, T: Drop>(
    lanes: &mut Endpoints<F, S, T>,
    ends: (F, S, T),
) -> Result<(), AllocError>
    ensures { OnOk result ((lanes.new.feeders.items ≡ lanes.old.feeders.items ++ ends.0 ∷ [])
        × (lanes.new.setters.items ≡ lanes.old.setters.items ++ ends.1 ∷ [])
        × (lanes.new.takers.items ≡ lanes.old.takers.items ++ ends.2 ∷ [])) }
{
    lanes.feeders.push(ends.0)?;
    lanes.setters.push(ends.1)?;
    lanes.takers.push(ends.2)?;
    Ok(())
}

/// Opens one more lane, with this maker. The error means that an allocation failed.
fn open_more<M: Making>(
    alloc: Global,
    maker: M,
    capacity: Capacity,
    block: Block,
    lanes: &mut Endpoints<Feeder<M::In>, Setter<M>, Taker<M::Out>>,
) -> Result<(), OutOfMemory>
    ensures lanes { OnOk result ((makes : M.In → M.Out) → M.makes maker ≡ makes
        → AllThree (IsNew makes) lanes.old.feeders.items lanes.old.setters.items lanes.old.takers.items
        → AllThree (IsNew makes) lanes.new.feeders.items lanes.new.setters.items lanes.new.takers.items) }
    ensures count { OnOk result (length lanes.new.setters.items ≡ length lanes.old.setters.items + 1) }
{
    let ends = open(alloc, maker, capacity, block)?;
    push(lanes, ends)?;
    Ok(())
}

/// Opens a number of lanes, at least one, for one source. Their makers are this one and others that make the
/// same results. Each ring of a lane has `capacity` slots, and a block has `block` items. The error means
/// that an allocation failed.
pub fn open_shared<M: Shared>(
    alloc: Global,
    maker: M,
    lanes: usize,
    capacity: Capacity,
    block: Block,
) -> Result<(Dealer<M::In>, Vec<Setter<M>>, Gatherer<M::Out>), OutOfMemory>
    requires { 0 < lanes }
    ensures lanes { IfOk result (λ ends. AreDealtLanes ends.0 ends.1.items ends.2) }
    ensures makers { IfOk result (λ ends. All (λ setter. state_of setter ≡ fresh (M.makes maker)) ends.1.items) }
    ensures count { IfOk result (λ ends. length ends.1.items ≡ lanes) }
    ensures dealer { IfOk result (λ ends. (dealt ends.0 ≡ []) × (dealer_end ends.0 ≡ None)
        × (dealer_turn ends.0 ≡ 0)) }
    ensures gatherer { IfOk result (λ ends. (gathered ends.2 ≡ []) × (gatherer_end ends.2 ≡ None)) }
{
    let mut ends = Endpoints {
        feeders: Vec::new(alloc),
        setters: Vec::new(alloc),
        takers: Vec::new(alloc),
    };
    for opened in 1..lanes {
        open_more(alloc, maker.share()?, capacity, block, &mut ends)?;
    }
    open_more(alloc, maker, capacity, block, &mut ends)?;
    let dealer = Dealer {
        feeders: ends.feeders,
        turn: 0,
        end: None,
    };
    let gatherer = Gatherer {
        takers: ends.takers,
        turn: 0,
        end: None,
    };
    Ok((dealer, ends.setters, gatherer))
}
