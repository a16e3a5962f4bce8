//! The gatherer of several lanes.
ghost use Rattle.std.specs.Prelude.{◌<◌, length};
ghost use Rattle.std.proofs.Props.{props};
ghost use Rattle.dealt_lanes.specs.Takers.{AreGathered};

use crate::taking::{drop_all, have_ended, take_at};
use crate::turn::next_turn;
use lanes::{LaneEnd, Made, Stored, Taker, Took};

/// The endpoint of several lanes from which the results of one source are taken, in the order of its items:
/// the lanes are in turn as they were for the items.
#[derive(Drop)]
pub struct Gatherer<O: Stored> {
    pub(crate) takers: Vec<Taker<O>>,
    /// The number of the lane that the next result is from.
    pub(crate) turn: usize,
    /// The end of the lane in turn, once it was taken.
    pub(crate) end: Option<LaneEnd>,
    ghost below: { turn < length takers.items },
    ghost gathered: { AreGathered end takers.items turn } by { Prim.hlevel props },
}

impl<O: Stored> Gatherer<O> {
    ghost use Rattle.std.specs.Prelude.{◌≡◌, ◌↔◌, IsTrue};
    ghost use Rattle.dealt_lanes.specs.Takers.{HaveEnded};

    /// Returns whether each lane has returned its end.
    pub fn have_ended(&self) -> bool
        ensures { IsTrue result ↔ HaveEnded self.now.takers.items }
    {
        have_ended(&self.takers)
    }
}

impl<O: Made + Stored> Gatherer<O> {
    ghost use Rattle.std.specs.Prelude.{◌≡◌};
    ghost use Rattle.dealt_lanes.specs.Dealt.{Gathers, SameGatherer, gathered, gatherer_end};

    /// Takes the next result, which is from the lane in turn, after which the next lane is in turn. If this
    /// lane has ended, returns its end, which each later call returns again. Returns `Nothing` if no message
    /// was found in the lane in turn.
    ///
    /// If the end is `Complete` or `SourceFailed`, the results of all items were taken. If it is `GaveUp`,
    /// the results that were taken are those of the first items, up to the first that has none; the other
    /// lanes may have results of later items, which `drop_rest` drops.
    pub fn take(&mut self) -> Took<O>
        ensures lanes { SameGatherer self.old self.new }
        ensures took { Gathers O.is_right self.old result self.new }
    {
        if let Some(end) = self.end {
            return Took::End(end);
        }
        match take_at(&mut self.takers, self.turn) {
            Took::Nothing => Took::Nothing,
            Took::Answer(answer) => {
                self.turn = next_turn(self.turn, self.takers.len());
                Took::Answer(answer)
            }
            Took::End(end) => {
                self.end = Some(end);
                Took::End(end)
            }
        }
    }

    /// Takes up to `most` results of each lane and drops them, once `take` has returned an end, so that no
    /// setter waits for a free slot. The results gathered are unchanged. Returns whether results were
    /// dropped. It is to be called again until `have_ended` returns true. Before `take` has returned an end,
    /// it does nothing and returns false.
    pub fn drop_rest(&mut self, most: usize) -> bool
        ensures lanes { SameGatherer self.old self.new }
        ensures gathered { gathered self.new ≡ gathered self.old }
        ensures end { gatherer_end self.new ≡ gatherer_end self.old }
    {
        if self.end.is_none() {
            return false;
        }
        drop_all(&mut self.takers, most)
    }
}
