//! The feeder of a lane.
ghost use Rattle.std.specs.Prelude.{◌≡◌, ◌<◌, [], true, None, length, is_some};
ghost use Rattle.std.proofs.Props.{props};
ghost use Rattle.lanes.specs.Rings.{end_sent};

use crate::block_size::BlockSize;
use crate::sender::Sender;
use crate::{OfferFault, SourceEnd, Stored};

/// The endpoint of a lane where items are fed. It collects them in an open block, and sends a full block to
/// the setter as one message.
#[derive(Drop)]
pub struct Feeder<I: Stored> {
    pub(crate) sender: Sender<I, SourceEnd>,
    pub(crate) block: BlockSize<I>,
    ghost short: { length sender.hand.items < block },
    ghost plain: { sender.hand.ending ≡ None } by { Prim.hlevel props },
    ghost closed: { is_some (end_sent sender) ≡ true → sender.hand.items ≡ [] } by { Prim.hlevel props },
}

impl<I: Stored> Feeder<I> {
    ghost use Rattle.std.specs.Prelude.{IsTrue, IsFalse, OnOk, IfErr};
    ghost use Rattle.lanes.specs.Ends.{IsAsFed, IsClosedWith, IsFed, IsFlushed, IsRefused, SameFeeder, block_of, fed, feeder_end, open_lines};

    /// Returns whether the feeder is closed.
    pub fn is_closed(&self) -> bool
        ensures { result ≡ is_some (feeder_end self.now) }
    {
        self.sender.ended.is_some()
    }

    /// Feeds an item: appends it to the open block, and sends this block if it is full then.
    ///
    /// The error is `Closed` if the feeder is closed, and `NoRoom` if the item would fill the open block and
    /// no free slot was found for the block. If the item is large ([`Stored::is_large`]), the error is `NoRoom`
    /// also if a quarter of the slots, and at least one, are in use. Both errors return the item, and nothing is
    /// fed: the open block is unchanged.
    pub fn offer(&mut self, item: I) -> Result<(), OfferFault<I>>
        ensures lane { SameFeeder self.old self.new }
        ensures end { feeder_end self.new ≡ feeder_end self.old }
        ensures short { length (open_lines self.new) < block_of self.new }
        ensures fed { OnOk result (IsFed self.old item self.new) }
        ensures refused { IfErr result (λ fault. IsAsFed self.old self.new
            × IsRefused self.old item fault) }
    {
        if self.is_closed() {
            return Err(OfferFault::Closed(item));
        }
        if self.sender.hand.len() + 1 < self.block.get() {
            self.sender.hand.push(item);
            return Ok(());
        }
        if !self.sender.has_room(item.is_large()) {
            return Err(OfferFault::NoRoom(item));
        }
        self.sender.hand.push(item);
        self.sender.send();
        Ok(())
    }

    /// Sends the open block as one message, unless it is empty. Returns false, with the open block unchanged,
    /// if no free slot was found for it.
    pub fn flush(&mut self) -> bool
        ensures lane { SameFeeder self.old self.new }
        ensures fed { fed self.new ≡ fed self.old }
        ensures end { feeder_end self.new ≡ feeder_end self.old }
        ensures flushed { IsTrue result → IsFlushed self.old self.new }
        ensures refused { IsFalse result → IsAsFed self.old self.new
            × (open_lines self.old ≡ [] → ⊥) }
    {
        if self.sender.hand.len() == 0 {
            return true;
        }
        if !self.sender.has_room(false) {
            return false;
        }
        self.sender.send();
        true
    }

    /// Closes the feeder: sends the open block as one message, with this end after its items. Returns false,
    /// with the open block unchanged, if no free slot was found for it. A feeder that is closed keeps its
    /// first end, and the return value is true.
    pub fn close(&mut self, end: SourceEnd) -> bool
        ensures lane { SameFeeder self.old self.new }
        ensures fed { fed self.new ≡ fed self.old }
        ensures closed { IsTrue result → IsClosedWith self.old end self.new }
        ensures refused { IsFalse result → (feeder_end self.old ≡ None)
            × IsAsFed self.old self.new }
    {
        if self.is_closed() {
            // The first end stands.
            return true;
        }
        if !self.sender.has_room(false) {
            return false;
        }
        self.sender.hand.finish(end);
        self.sender.send();
        true
    }
}
