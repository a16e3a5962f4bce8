//! A lane whose three endpoints are in one place, and its calls by name.
ghost use Rattle.lanes.specs.Ends.{IsLane};

use lanes::{
    Feeder, LaneEnd, Made, Making, OfferFault, Open, Setter, SourceEnd, SourceFault, Taker, Took,
    Turn, open, settle,
};
use std::alloc::Global;
use test_support::sizes;

/// A maker whose items and results have names.
pub trait Named: Making {
    /// The item with this name; `None` if an allocation fails.
    fn item(alloc: Global, name: &str) -> Option<Self::In>;

    fn is_item(item: &Self::In, name: &str) -> bool;

    fn is_result(made: &Self::Out, name: &str) -> bool;
}

/// The three endpoints of a lane.
#[derive(Drop)]
pub struct Lane<M: Making> {
    pub feeder: Feeder<M::In>,
    pub setter: Setter<M>,
    pub taker: Taker<M::Out>,
    ghost whole: { IsLane feeder setter taker },
}

impl<M: Making> Lane<M> {
    /// A lane with this number of slots and this block; `None` if an allocation fails.
    pub fn open(alloc: Global, maker: M, (capacity, block): (usize, usize)) -> Option<Lane<M>> {
        let (capacity, block) = sizes(capacity, block)?;
        let (feeder, setter, taker) = open(alloc, maker, capacity, block).ok()?;
        Some(Lane {
            feeder,
            setter,
            taker,
        })
    }

    /// The end of the lane, or the lane if it isn't finished.
    pub fn settle(self) -> Result<LaneEnd, Lane<M>> {
        match settle(self.feeder, self.setter, self.taker) {
            Ok(end) => Ok(end),
            Err(
                Open {
                    feeder,
                    setter,
                    taker,
                },
            ) => Err(Lane {
                feeder,
                setter,
                taker,
            }),
        }
    }
}

/// Returns the end with this name.
pub fn end_of(name: &str) -> Option<LaneEnd> {
    match name {
        "complete" => Some(LaneEnd::Complete),
        "read" => Some(LaneEnd::SourceFailed(SourceFault::Read)),
        "gave up" => Some(LaneEnd::GaveUp),
        _ => None,
    }
}

/// Returns the return value of a turn with this name.
pub fn turn_of(name: &str) -> Option<Turn> {
    match name {
        "moved" => Some(Turn::Moved),
        "blocked" => Some(Turn::Blocked),
        "idle" => Some(Turn::Idle),
        "done" => Some(Turn::Done),
        _ => None,
    }
}

/// Whether this became of the item with this name, when it was offered. One that isn't fed is returned.
pub fn is_offered<M: Named>(
    offered: Result<(), OfferFault<M::In>>,
    name: &str,
    wanted: &str,
) -> bool {
    match offered {
        Ok(()) => wanted == "fed",
        Err(OfferFault::NoRoom(back)) => wanted == "no room" && M::is_item(&back, name),
        Err(OfferFault::Closed(back)) => wanted == "closed" && M::is_item(&back, name),
    }
}

/// Whether nothing, or the result or the end with this name, was taken.
pub fn is_taken<M: Named>(took: Took<M::Out>, wanted: &str) -> bool {
    match took {
        Took::Nothing => wanted == "nothing",
        Took::Answer(made) => M::is_result(&made, wanted),
        Took::End(end) => Some(end) == end_of(wanted),
    }
}

impl<M: Named> Lane<M>
where
    M::Out: Made,
{
    /// Makes a call. Returns whether its return value is this one; `None` if an allocation fails.
    ///
    /// The call is `flush`, `take`, `close`, `fail`, which closes the feeder after a failed read, or `give up`; or
    /// the return value of a turn; or the name of an item that is offered.
    pub fn call(&mut self, alloc: Global, call: &str, wanted: &str) -> Option<bool> {
        Some(match call {
            "flush" => self.feeder.flush() == (wanted == "true"),
            "take" => is_taken::<M>(self.taker.take(), wanted),
            "close" => self.feeder.close(SourceEnd::Complete) == (wanted == "true"),
            "fail" => {
                self.feeder.close(SourceEnd::Failed(SourceFault::Read)) == (wanted == "true")
            }
            "give up" => {
                self.setter.give_up();
                true
            }
            _ if turn_of(call).is_some() => self.setter.turn().ok() == turn_of(call),
            _ => {
                let item = M::item(alloc, call)?;
                is_offered::<M>(self.feeder.offer(item), call, wanted)
            }
        })
    }
}
