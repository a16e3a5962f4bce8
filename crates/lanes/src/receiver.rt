//! The receiving end of a ring of messages.
ghost use Rattle.std.specs.Prelude.{◌≡◌, ◌+◌, ◌<◌, ◌≤◌, [], ◌∷◌, ◌++◌, length};
ghost use Rattle.std.specs.Coded.{Coded-set, coded_option};
ghost use Rattle.rtrb.specs.Ring.{SameConsumer, known_items, received};
ghost use Rattle.lanes.specs.Messages.{IsFilled, end_of};

use crate::Stored;
use crate::message::{Filled, Message};
use rtrb::Consumer;
use std::alloc::Global;

/// The receiving end of a ring, with the items of the last received message that weren't taken yet.
#[derive(Drop)]
pub(crate) struct Receiver<T: Stored, E> {
    pub consumer: Consumer<Message<T, E>, Global, Filled>,
    pub hand: Message<T, E>,
    ghost told: { hand.ending ≡ end_of (received consumer) } by { Coded-set (coded_option E.code) _ _ },
}

/// Receives a message that is known to be in the ring, in place of the previous one. This is a function of
/// its own because a function that moves a message first clears the space for it, which a call of `receive`
/// that finds no message doesn't need.
#[inline(never)]
fn pop<T: Stored, E: Copy>(
    consumer: &mut Consumer<Message<T, E>, Global, Filled>,
    hand: &mut Message<T, E>,
)
    requires { 0 < length (known_items consumer.old) }
    ensures same { SameConsumer consumer.old consumer.new }
    ensures received { received consumer.new ≡ received consumer.old ++ hand.new ∷ [] }
    ensures few { length hand.new.items ≤ T.Slots.SLOTS }
    ensures eight { length hand.new.items ≤ 8 }
    ensures filled { IsFilled hand.new }
{
    *hand = consumer.pop_known();
    // For the proof: the contract of `len` states that a message has no more items than slots.
    let _ = hand.len();
}

impl<T: Stored, E: Copy> Receiver<T, E> {
    ghost use Rattle.std.specs.Prelude.{None, IsTrue, IsFalse};
    ghost use Rattle.lanes.specs.Messages.{nothing};
    ghost use Rattle.lanes.specs.Rings.{SameReceiver, end_received, items_received, messages_received};

    /// Returns the receiving end of a ring from which nothing was received.
    pub fn new(alloc: Global, consumer: Consumer<Message<T, E>, Global, Filled>) -> Self
        requires { received consumer ≡ [] }
        ensures consumer { result.consumer ≡ consumer }
        ensures hand { result.hand ≡ nothing }
    {
        Receiver {
            consumer,
            hand: Message::new(alloc),
        }
    }

    /// Receives a message into the hand. Returns false, with the hand unchanged, if no message was found. No
    /// end may have been received before.
    pub fn receive(&mut self) -> bool
        requires { end_received self.old ≡ None }
        ensures same { SameReceiver self.old self.new }
        ensures received { IsTrue result →
            received self.new.consumer ≡ received self.old.consumer ++ self.new.hand ∷ [] }
        ensures items { IsTrue result →
            items_received self.new ≡ items_received self.old ++ self.new.hand.items }
        ensures ended { IsTrue result → end_received self.new ≡ self.new.hand.ending }
        ensures count { IsTrue result →
            messages_received self.new ≡ messages_received self.old + 1 }
        ensures few { IsTrue result → length self.new.hand.items ≤ T.Slots.SLOTS }
        ensures eight { IsTrue result → length self.new.hand.items ≤ 8 }
        ensures filled { IsTrue result → IsFilled self.new.hand }
        ensures nothing { IsFalse result →
            (received self.new.consumer ≡ received self.old.consumer)
            × (self.new.hand ≡ self.old.hand) }
    {
        if self.consumer.is_empty() {
            return false;
        }
        pop(&mut self.consumer, &mut self.hand);
        true
    }
}
