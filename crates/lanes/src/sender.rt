//! The sending end of a ring of messages.
ghost use Rattle.std.specs.Prelude.{◌≡◌};
ghost use Rattle.std.specs.Coded.{Coded-set, coded_option};
ghost use Rattle.rtrb.specs.Ring.{sent};
ghost use Rattle.std.proofs.Props.{props};
ghost use Rattle.lanes.specs.Messages.{EndsLast, end_of};

use crate::Stored;
use crate::message::{Filled, Message};
use rtrb::Producer;
use std::alloc::Global;
use std::mem;

/// The sending end of a ring, with the next message, whose items are still being added.
#[derive(Drop)]
pub(crate) struct Sender<T: Stored, E> {
    pub producer: Producer<Message<T, E>, Global, Filled>,
    pub hand: Message<T, E>,
    /// The end that was sent, if any.
    pub ended: Option<E>,
    pub alloc: Global,
    ghost last: { EndsLast (sent producer) } by { Prim.hlevel props },
    ghost told: { ended ≡ end_of (sent producer) } by { Coded-set (coded_option E.code) _ _ },
}

impl<T: Stored, E: Copy> Sender<T, E> {
    ghost use Rattle.std.specs.Prelude.{◌+◌, ◌<◌, [], ◌∷◌, ◌++◌, None, IsTrue};
    ghost use Rattle.rtrb.specs.Ring.{known_free};
    ghost use Rattle.lanes.specs.Messages.{IsFilled, first_end, nothing};
    ghost use Rattle.lanes.specs.Rings.{SameSender, end_sent, items_sent, messages_sent};

    /// Returns the sending end of a ring into which nothing was sent, with an empty next message.
    pub fn new(alloc: Global, producer: Producer<Message<T, E>, Global, Filled>) -> Self
        requires { sent producer ≡ [] }
        ensures producer { result.producer ≡ producer }
        ensures hand { result.hand ≡ nothing }
    {
        Sender {
            producer,
            hand: Message::new(alloc),
            ended: None,
            alloc,
        }
    }

    /// Returns whether a free slot was found. For a large item at most a quarter of the slots, but at least one,
    /// are used: otherwise such items would take too much memory. The receiver may free a slot at any time.
    pub fn has_room(&mut self, is_large: bool) -> bool
        ensures same { SameSender self.old self.new }
        ensures sent { sent self.new.producer ≡ sent self.old.producer }
        ensures hand { self.new.hand ≡ self.old.hand }
        ensures room { IsTrue result → 0 < known_free self.new.producer }
    {
        let slots = self.producer.capacity();
        if is_large && (slots / 4).max(1) <= slots.saturating_sub(self.producer.slots()) {
            return false;
        }
        !self.producer.is_full()
    }

    /// Returns the end that was sent or, if none was sent, the end of the next message.
    pub fn end_made(&self) -> Option<E>
        ensures { result ≡ first_end (end_sent self.now) self.now.hand.ending }
    {
        self.ended.or(self.hand.ending())
    }

    /// Sends the next message, and begins a new one. A free slot must be known, no end may have been sent
    /// before, and the message must have an item or an end.
    pub fn send(&mut self)
        requires room { 0 < known_free self.old.producer }
        requires unended { end_sent self.old ≡ None }
        requires filled { IsFilled self.old.hand }
        ensures same { SameSender self.old self.new }
        ensures sent { sent self.new.producer ≡ sent self.old.producer ++ self.old.hand ∷ [] }
        ensures items { items_sent self.new ≡ items_sent self.old ++ self.old.hand.items }
        ensures count { messages_sent self.new ≡ messages_sent self.old + 1 }
        ensures ended { end_sent self.new ≡ self.old.hand.ending }
        ensures hand { self.new.hand ≡ nothing }
    {
        self.ended = self.hand.ending();
        let next = Message::new(self.alloc);
        self.producer
            .push_reserved(mem::replace(&mut self.hand, next));
    }
}
