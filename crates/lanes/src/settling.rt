//! Brings the three endpoints of a lane together again.
ghost use Rattle.std.specs.Prelude.{◌≡◌, true, false, Some, IfOk, IfErr, MatchOption};
ghost use Rattle.lanes.specs.Lane.{pipeline};
ghost use Rattle.lanes.specs.Ends.{IsLane, fed, state_of, taken, taker_end};
ghost use Rattle.lanes.specs.Settled.{AreAsBefore, HaveMet, IsSettled, is_over};
ghost use Rattle.lanes.specs.declared.ending.LaneEnd.{LaneEnd as End};
ghost use Rattle.lanes.specs.declared.ending.LaneEnd.TheVariants.{GaveUp};

use crate::meeting::meet;
use crate::{Feeder, LaneEnd, Making, Setter, Taker};

/// The three endpoints of a lane that isn't finished.
#[derive(Drop)]
pub struct Open<M: Making> {
    /// The endpoint where items are fed.
    pub feeder: Feeder<M::In>,
    /// The endpoint that makes results.
    pub setter: Setter<M>,
    /// The endpoint from which results are taken.
    pub taker: Taker<M::Out>,
}

/// Returns the end of a lane, or `None` if the lane isn't finished.
fn end_of_lane<M: Making>(
    feeder: &Feeder<M::In>,
    setter: &Setter<M>,
    taker: &Taker<M::Out>,
) -> Option<LaneEnd>
    ensures { MatchOption result
        (is_over feeder.now setter.now taker.now ≡ false)
        (λ end. (is_over feeder.now setter.now taker.now ≡ true)
        × (taker_end taker.now ≡ Some end)) }
{
    if !feeder.is_closed() {
        return None;
    }
    if !setter.is_done() {
        return None;
    }
    if !taker.ended {
        return None;
    }
    taker.receiver.hand.ending()
}

/// Updates what the three endpoints of a lane know about its two rings. The contract states that on each ring
/// the items received are the first of those sent.
fn look<M: Making>(feeder: &mut Feeder<M::In>, setter: &mut Setter<M>, taker: &mut Taker<M::Out>)
    requires { IsLane feeder.old setter.old taker.old }
    ensures before { AreAsBefore feeder.old setter.old taker.old feeder.new setter.new taker.new }
    ensures met { HaveMet feeder.old setter.old taker.old }
{
    meet(&mut feeder.sender, &mut setter.receiver);
    meet(&mut setter.sender, &mut taker.receiver);
}

/// Settles a lane: brings its three endpoints, which must come from one `open`, together and checks whether
/// the lane is finished. It is finished if the feeder is closed, the setter is done, and the taker has
/// returned the end; this end is the return value then. Otherwise the error contains the endpoints, with
/// nothing fed, made, sent or taken since.
///
/// In both cases the results that were taken are those of the first items that were fed; if the lane is
/// finished and wasn't abandoned, they are the results of all of them. If the taker has returned an end other
/// than `GaveUp`, the lane is finished.
pub fn settle<M: Making>(
    feeder: Feeder<M::In>,
    setter: Setter<M>,
    taker: Taker<M::Out>,
) -> Result<LaneEnd, Open<M>>
    requires { IsLane feeder setter taker }
    ensures pipeline { pipeline (state_of setter).makes (fed feeder) (taken taker) }
    ensures settled { IfOk result (λ end. IsSettled feeder setter taker end) }
    ensures ended { (end : End) → taker_end taker ≡ Some end → (end ≡ GaveUp → ⊥)
        → IsSettled feeder setter taker end }
    ensures unsettled { IfErr result (λ back. (is_over feeder setter taker ≡ false)
        × AreAsBefore feeder setter taker back.feeder back.setter back.taker
        × IsLane back.feeder back.setter back.taker) }
{
    let (mut feeder, mut setter, mut taker) = (feeder, setter, taker);
    let end = end_of_lane(&feeder, &setter, &taker);
    look(&mut feeder, &mut setter, &mut taker);
    match end {
        Some(end) => Ok(end),
        None => Err(Open {
            feeder,
            setter,
            taker,
        }),
    }
}
