//! The setter of a lane.
ghost use Rattle.std.specs.Prelude.{◌≡◌, [], None, true};
ghost use Rattle.std.proofs.Props.{props};
ghost use Rattle.lanes.specs.Messages.{IsFilled, are_none};
ghost use Rattle.lanes.specs.Lane.{lane_end_of};
ghost use Rattle.lanes.specs.Turns.{IsOrderly, end_with};
ghost use Rattle.lanes.specs.Hands.{IsInHand, setter_state};

use crate::message::Message;
use crate::receiver::Receiver;
use crate::sender::Sender;
use crate::{LaneEnd, Making, SourceEnd, Stored, Turn};
use run_plan::OutOfMemory;

/// The endpoint of a lane that makes results: it receives messages of items, and sends messages of results.
#[derive(Drop)]
pub struct Setter<M: Making> {
    pub(crate) maker: M,
    pub(crate) receiver: Receiver<M::In, SourceEnd>,
    pub(crate) sender: Sender<M::Out, LaneEnd>,
    pub(crate) ready: bool,
    ghost in_hand: { IsInHand M.slots receiver sender ready } by { Prim.hlevel props },
    ghost orderly: { IsOrderly (setter_state (M.makes maker) receiver sender ready) } by { Prim.hlevel props },
    ghost filled: { ready ≡ true → IsFilled sender.hand } by { Prim.hlevel props },
}

/// Returns the end of a lane whose source ended with `end`, unless the lane is abandoned.
fn lane_end(end: SourceEnd) -> LaneEnd
    ensures { result ≡ lane_end_of end }
{
    match end {
        SourceEnd::Complete => LaneEnd::Complete,
        SourceEnd::Failed(fault) => LaneEnd::SourceFailed(fault),
    }
}

/// Returns whether no received item is left. If none is left and the items have an end, sets the
/// end of the results, which must have none yet.
fn finish<I: Stored, O: Stored>(
    lines: &Message<I, SourceEnd>,
    answers: &mut Message<O, LaneEnd>,
) -> bool
    requires { answers.old.ending ≡ None }
    ensures ready { result ≡ are_none lines.now.items }
    ensures items { answers.new.items ≡ answers.old.items }
    ensures ending { answers.new.ending ≡ end_with lines.now.items lines.now.ending }
{
    if lines.len() > 0 {
        return false;
    }
    if let Some(end) = lines.ending() {
        answers.finish(lane_end(end));
    }
    true
}

impl<M: Making> Setter<M> {
    ghost use Rattle.std.specs.Prelude.{false, is_some, OnErr, IfOk};
    ghost use Rattle.lanes.specs.Turns.{Turns, given_up, is_done, is_given_up};
    ghost use Rattle.lanes.specs.Ends.{SameSetter, state_of};

    /// Returns whether the setter has made the end of the lane, whether or not this end was sent.
    fn has_made_end(&self) -> bool
        ensures { result ≡ is_some (state_of self.now).made }
    {
        self.sender.end_made().is_some()
    }

    /// Returns whether the lane is abandoned.
    fn has_given_up(&self) -> bool
        ensures { result ≡ is_given_up (state_of self.now).made }
    {
        matches!(self.sender.end_made(), Some(LaneEnd::GaveUp))
    }

    pub(crate) fn is_done(&self) -> bool
        ensures { result ≡ is_done (state_of self.now) }
    {
        self.receiver.hand.ending().is_some() && self.has_made_end() && !self.ready
    }

    /// Sends the ready message. Returns `Blocked`, with nothing changed, if no free slot was found.
    fn send(&mut self) -> Turn
        requires { self.old.ready ≡ true }
        ensures lane { SameSetter self.old self.new }
        ensures turn { Turns (state_of self.old) result (state_of self.new) }
    {
        let is_large = self.sender.hand.ends_large();
        if !self.sender.has_room(is_large) {
            return Turn::Blocked;
        }
        self.sender.send();
        self.ready = false;
        Turn::Moved
    }

    /// Makes the result of the first item that is left. The error means that an allocation failed; nothing has
    /// changed then.
    fn set_first(&mut self) -> Result<Turn, OutOfMemory>
        requires ready { self.old.ready ≡ false }
        requires lines { are_none (state_of self.old).lines ≡ false }
        ensures lane { SameSetter self.old self.new }
        ensures turn { IfOk result (λ turn. Turns (state_of self.old) turn (state_of self.new)) }
        ensures refused { OnErr result (state_of self.new ≡ state_of self.old) }
    {
        let Some(line) = self.receiver.hand.take_first() else {
            unreachable!()
        };
        match self.maker.make(self.sender.alloc, line) {
            Ok(answer) => {
                self.sender.hand.push(answer);
                let (receiver, sender) = (&self.receiver, &mut self.sender);
                self.ready = finish(&receiver.hand, &mut sender.hand);
                Ok(Turn::Moved)
            }
            Err((line, fault)) => {
                self.receiver.hand.put_back(line);
                Err(fault)
            }
        }
    }

    /// Receives a message. The setter of an abandoned lane drops its items. Returns `Idle`, with nothing
    /// changed, if no message was found.
    fn receive(&mut self) -> Turn
        requires ready { self.old.ready ≡ false }
        requires lines { (state_of self.old).lines ≡ [] }
        requires done { is_done (state_of self.old) ≡ false }
        ensures lane { SameSetter self.old self.new }
        ensures turn { Turns (state_of self.old) result (state_of self.new) }
    {
        let given_up = self.has_given_up();
        if !self.receiver.receive() {
            return Turn::Idle;
        }
        if given_up {
            self.receiver.hand.clear();
        } else {
            let (receiver, sender) = (&self.receiver, &mut self.sender);
            self.ready = finish(&receiver.hand, &mut sender.hand);
        }
        Turn::Moved
    }

    /// Makes one turn: sends the ready message, makes a result or receives a message, the first of these that
    /// applies. If nothing remains to be done, returns `Done`. If a message of results is ready, sends it, or
    /// returns `Blocked` if no free slot was found, or, if its last result is large ([`Stored::is_large`]), if a
    /// quarter of the slots, and at least one, are in use. If a received item is left, makes the result of the first
    /// such item. Otherwise receives a message, or returns `Idle` if no message was found.
    ///
    /// Once the results of all items of a message are made, they are ready to be sent as one message, with the
    /// end of the lane if the message had the source's end. The error means that an allocation failed; nothing
    /// has changed then, and a later turn tries the same item again.
    #[tactic(auto, using(crate::proofs::TurnLemmas::turns_kept))]
    pub fn turn(&mut self) -> Result<Turn, OutOfMemory>
        ensures lane { SameSetter self.old self.new }
        ensures orderly { IsOrderly (state_of self.new) }
        ensures turn { IfOk result (λ turn. Turns (state_of self.old) turn (state_of self.new)) }
        ensures kept { is_given_up (state_of self.new).made ≡ is_given_up (state_of self.old).made }
        ensures refused { OnErr result ((state_of self.new ≡ state_of self.old)
            × (is_done (state_of self.old) ≡ false)
            × ((state_of self.old).ready ≡ false) × (are_none (state_of self.old).lines ≡ false)) }
    {
        if self.is_done() {
            return Ok(Turn::Done);
        }
        if self.ready {
            return Ok(self.send());
        }
        if self.receiver.hand.len() > 0 {
            return self.set_first();
        }
        Ok(self.receive())
    }

    /// Abandons the lane: drops the received items that are left, and makes the results that aren't sent yet
    /// the ready message, with the end `GaveUp`. Items that are received later are dropped, up to the source's
    /// end. Nothing changes if the setter has already made the end of the lane.
    pub fn give_up(&mut self)
        ensures lane { SameSetter self.old self.new }
        ensures orderly { IsOrderly (state_of self.new) }
        ensures state { state_of self.new ≡ given_up (state_of self.old) }
    {
        if self.has_made_end() {
            return;
        }
        self.receiver.hand.clear();
        self.sender.hand.finish(LaneEnd::GaveUp);
        self.ready = true;
    }
}
