//! A message of a ring: items, stored inside it, and an optional end after them.
ghost use Rattle.std.specs.Prelude.{◌≡◌, ◌≤◌, ◌<◌, [], ◌∷◌, ◌++◌, length, Some, MatchOption};
ghost use Rattle.lanes.specs.Messages.{nothing};

use crate::{Slots, Stored};
use rtrb::Protocol;
use std::alloc::Global;
use std::marker::Model;

/// Items, at most as many as there are slots for this type of items, and an optional end after them.
#[derive(Drop)]
pub(crate) struct Message<T: Stored, E> {
    slots: T::Slots,
    ending: Option<E>,
}

impl<T: Stored, E> Model for Message<T, E> {
    ghost use Rattle.lanes.specs.Messages.{MessageValue, message_code};

    ghost Value = { MessageValue T E };

    ghost coded = { message_code T.code E.code };

    ghost view = { λ m. record { items = T.Slots.items m.slots; ending = m.ending } };
}

/// The protocol of a ring: each message has an item or an end.
#[derive(Clone, Copy)]
pub(crate) struct Filled;

impl<T: Stored, E> Protocol<Message<T, E>> for Filled {
    ghost use Rattle.lanes.specs.Messages.{IsFilled};

    ghost allows = { λ _ message. IsFilled message };
}

impl<T: Stored, E: Copy> Message<T, E> {
    /// Returns a message without items and without an end. This allocates no memory.
    pub fn new(alloc: Global) -> Self
        ensures { result ≡ nothing }
    {
        Message {
            slots: T::Slots::new(alloc),
            ending: None,
        }
    }

    /// Returns the number of items.
    pub fn len(&self) -> usize
        ensures value { result ≡ length self.now.items }
        ensures few { result ≤ T.Slots.SLOTS }
        ensures eight { result ≤ 8 }
    {
        self.slots.len()
    }

    /// Returns the end, if the message has one.
    pub fn ending(&self) -> Option<E>
        ensures { result ≡ self.now.ending }
    {
        self.ending
    }

    /// Appends an item. There must be a free slot.
    pub fn push(&mut self, item: T)
        requires { length self.old.items < T.Slots.SLOTS }
        ensures { self.new
            ≡ record { items = self.old.items ++ item ∷ []; ending = self.old.ending } }
    {
        self.slots.push(item);
    }

    /// Puts an item before all others. There must be a free slot.
    pub fn put_back(&mut self, item: T)
        requires { length self.old.items < T.Slots.SLOTS }
        ensures { self.new ≡ record { items = item ∷ self.old.items; ending = self.old.ending } }
    {
        self.slots.put_back(item);
    }

    /// Removes and returns the first item, or returns `None` if there is no item.
    pub fn take_first(&mut self) -> Option<T>
        ensures { MatchOption result
            ((self.old.items ≡ []) × (self.new ≡ self.old))
            (λ item. self.old
            ≡ record { items = item ∷ self.new.items; ending = self.new.ending }) }
    {
        self.slots.take_first()
    }

    /// Drops the items. The end is unchanged.
    pub fn clear(&mut self)
        ensures { self.new ≡ record { items = []; ending = self.old.ending } }
    {
        self.slots.clear();
    }

    /// Returns whether the last item is large.
    pub fn ends_large(&self) -> bool {
        match self.slots.last() {
            Some(item) => item.is_large(),
            None => false,
        }
    }

    /// Sets the end, in place of an earlier one.
    pub fn finish(&mut self, ending: E)
        ensures { self.new ≡ record { items = self.old.items; ending = Some ending } }
    {
        self.ending = Some(ending);
    }
}
