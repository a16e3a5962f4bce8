//! The dealer of several lanes.
ghost use Rattle.std.specs.Prelude.{◌<◌, length};
ghost use Rattle.std.proofs.Props.{props};
ghost use Rattle.dealt_lanes.specs.InTurn.{AreInTurn};
ghost use Rattle.dealt_lanes.specs.Feeders.{HaveEnd, each_fed};

use crate::feeding::{close_all, offer_at};
use crate::turn::next_turn;
use lanes::{Feeder, OfferFault, SourceEnd, Stored};

/// The endpoint of several lanes where the items of one source are fed. The first item goes to the first
/// lane, and each later one to the next lane; after the last lane comes the first again.
#[derive(Drop)]
pub struct Dealer<I: Stored> {
    pub(crate) feeders: Vec<Feeder<I>>,
    /// The number of the lane that the next item goes to.
    pub(crate) turn: usize,
    /// The end that the dealer was closed with.
    pub(crate) end: Option<SourceEnd>,
    ghost below: { turn < length feeders.items },
    ghost in_turn: { AreInTurn (each_fed feeders.items) turn } by { Prim.hlevel props },
    ghost ends: { HaveEnd end feeders.items } by { Prim.hlevel props },
}

impl<I: Stored> Dealer<I> {
    ghost use Rattle.std.specs.Prelude.{◌≡◌, ◌↔◌, IsTrue, OnOk, IfErr, Some};
    ghost use Rattle.lanes.specs.Messages.{first_end};
    ghost use Rattle.dealt_lanes.specs.Feeders.{AreClosed, IsReturned};
    ghost use Rattle.dealt_lanes.specs.Dealt.{IsAsDealt, IsDealt, SameDealer, dealer_end, dealer_lanes, dealer_turn, dealt};

    /// Returns the number of lanes.
    pub fn lanes(&self) -> usize
        ensures { result ≡ dealer_lanes self.now }
    {
        self.feeders.len()
    }

    /// Deals an item: feeds it to the lane in turn, after which the next lane is in turn.
    ///
    /// The error is `Closed` if the dealer is closed, and `NoRoom` if the lane in turn returns it
    /// ([`Feeder::offer`]). Both return the item, and nothing is fed.
    pub fn offer(&mut self, item: I) -> Result<(), OfferFault<I>>
        ensures lanes { SameDealer self.old self.new }
        ensures end { dealer_end self.new ≡ dealer_end self.old }
        ensures dealt { OnOk result (IsDealt self.old item self.new) }
        ensures refused { IfErr result (λ fault. IsAsDealt self.old self.new
            × IsReturned (dealer_end self.old) item fault) }
    {
        if self.end.is_some() {
            return Err(OfferFault::Closed(item));
        }
        match offer_at(&mut self.feeders, self.turn, item) {
            Ok(()) => {
                self.turn = next_turn(self.turn, self.feeders.len());
                Ok(())
            }
            Err(fault) => Err(fault),
        }
    }

    /// Closes the dealer: sends the open block of each lane, with this end after its items. Returns false if
    /// no free slot was found for one of them; the others are closed, and a later call closes the rest. The
    /// dealer keeps the end of the first call.
    pub fn close(&mut self, end: SourceEnd) -> bool
        ensures lanes { SameDealer self.old self.new }
        ensures end { dealer_end self.new ≡ first_end (dealer_end self.old) (Some end) }
        ensures turn { dealer_turn self.new ≡ dealer_turn self.old }
        ensures dealt { dealt self.new ≡ dealt self.old }
        ensures closed { IsTrue result ↔ AreClosed self.new.feeders.items }
    {
        let first = self.end.unwrap_or(end);
        self.end = Some(first);
        close_all(&mut self.feeders, first)
    }
}
