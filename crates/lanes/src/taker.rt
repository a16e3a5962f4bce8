//! The taker of a lane.
ghost use Rattle.std.proofs.Props.{props};
ghost use Rattle.lanes.specs.Hands.{IsAllReceived};

use crate::receiver::Receiver;
use crate::{LaneEnd, Made, Stored, Took};

/// The endpoint of a lane from which results are taken.
#[derive(Drop)]
pub struct Taker<O: Stored> {
    pub(crate) receiver: Receiver<O, LaneEnd>,
    pub(crate) ended: bool,
    ghost all: { IsAllReceived receiver ended } by { Prim.hlevel props },
}

impl<O: Stored> Taker<O> {
    ghost use Rattle.std.specs.Prelude.{◌≡◌, is_some};
    ghost use Rattle.lanes.specs.Ends.{taker_end};

    /// Returns whether `take` has returned the end of the lane.
    pub fn has_ended(&self) -> bool
        ensures { result ≡ is_some (taker_end self.now) }
    {
        self.ended
    }
}

impl<O: Made + Stored> Taker<O> {
    ghost use Rattle.lanes.specs.Takes.{Takes, IsTakenFromHand};
    ghost use Rattle.lanes.specs.Ends.{SameTaker, hands_of};

    /// Takes the next result of the last received message or, if none is left, the end. Returns `None`, with
    /// nothing changed, if there is neither.
    fn take_held(&mut self) -> Option<Took<O>>
        ensures lane { SameTaker self.old self.new }
        ensures took { IsTakenFromHand O.is_right (hands_of self.old) result (hands_of self.new) }
    {
        if let Some(answer) = self.receiver.hand.take_first() {
            // For the proof: the contract of `show_right` states that the result is right.
            answer.show_right();
            return Some(Took::Answer(answer));
        }
        let end = self.receiver.hand.ending()?;
        self.ended = true;
        Some(Took::End(end))
    }

    /// Takes the next result or, after the last one, the end of the lane, which each later call returns
    /// again. Returns `Nothing` if no message was found. At most one message is received.
    pub fn take(&mut self) -> Took<O>
        ensures lane { SameTaker self.old self.new }
        ensures took { Takes O.is_right (hands_of self.old) result (hands_of self.new) }
    {
        if let Some(took) = self.take_held() {
            return took;
        }
        if !self.receiver.receive() {
            return Took::Nothing;
        }
        self.take_held().unwrap_or(Took::Nothing)
    }
}
