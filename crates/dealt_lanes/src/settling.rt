//! Brings the endpoints of several lanes together again.
ghost use Rattle.lanes.specs.Ends.{IsLane};
ghost use Rattle.dealt_lanes.specs.Lanes.{AllThree, IsMet};
ghost use Rattle.dealt_lanes.specs.Settled.{AllMake, AreDealtLanes, AreSettled};

use crate::{Dealer, Gatherer};
use lanes::{Feeder, Making, Setter, Taker, settle};

/// Settles a lane.
fn settle_one<M: Making>(feeder: Feeder<M::In>, setter: Setter<M>, taker: Taker<M::Out>)
    requires { IsLane feeder setter taker }
    ensures { IsMet feeder setter taker }
{
    // For the proof: the contract of `settle` states that the results taken are those of the first items fed.
    let _ = settle(feeder, setter, taker);
}

/// Settles lanes, beginning with the last one.
fn settle_each<M: Making>(
    feeders: Vec<Feeder<M::In>>,
    setters: Vec<Setter<M>>,
    takers: Vec<Taker<M::Out>>,
)
    requires { AllThree IsLane feeders.items setters.items takers.items }
    ensures { AllThree IsMet feeders.items setters.items takers.items }
{
    let (mut feeders, mut setters, mut takers) = (feeders, setters, takers);
    'lanes: while let Some(feeder) = feeders.pop() {
        let Some(setter) = setters.pop() else {
            unreachable!()
        };
        let Some(taker) = takers.pop() else {
            unreachable!()
        };
        settle_one(feeder, setter, taker);
    }
}

/// Settles the lanes of one source: brings their endpoints, which must come from one `open_shared`, together
/// again. For the proof: the contract states that the results that were gathered are those of the first items
/// that were dealt, if all setters make the same results. If an end other than `GaveUp` was gathered, they are
/// the results of all items, and the end belongs to the end that the dealer was closed with.
pub fn settle_lanes<M: Making>(
    dealer: Dealer<M::In>,
    setters: Vec<Setter<M>>,
    gatherer: Gatherer<M::Out>,
)
    requires { AreDealtLanes dealer setters.items gatherer }
    ensures { (makes : M.In → M.Out) → AllMake makes setters.items
        → AreSettled makes dealer gatherer }
{
    settle_each(dealer.feeders, setters, gatherer.takers);
}
