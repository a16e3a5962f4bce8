//! The endpoint of the lanes of a source in the collecting thread.
ghost use Rattle.std.specs.Prelude.{◌≡◌, ◌↔◌, ◌<◌, IsTrue, None, is_ok};
ghost use Rattle.std.specs.Result.{result_err};
ghost use Rattle.dealt_lanes.specs.Dealt.{SameGatherer, gathered, gatherer_end};
ghost use Rattle.batch.specs.Collecting.{IsOver, TellsLane};

use crate::{Collector, Refusal};
use dealt_lanes::Gatherer;
use lanes::{LaneEnd, Made, Stored, Took};

/// The gatherer of a source's lanes, and their end once the collector has received this end.
#[derive(Drop)]
pub(crate) struct LaneTaker<O: Stored> {
    pub gatherer: Gatherer<O>,
    pub end: Option<LaneEnd>,
}

impl<O: Stored> LaneTaker<O> {
    /// Returns whether nothing is left to be taken.
    pub fn is_over(&self) -> bool
        ensures { IsTrue result ↔ IsOver self.now }
    {
        match self.end {
            Some(LaneEnd::GaveUp) => self.gatherer.have_ended(),
            Some(_) => true,
            None => false,
        }
    }
}

impl<O: Made + Stored> LaneTaker<O> {
    /// Takes the next result or the end, and gives it to the collector. Returns whether there was one.
    fn take<C: Collector<Item = O>>(
        &mut self,
        lane: usize,
        collector: &mut C,
    ) -> Result<bool, Refusal>
        requires lane { lane < C.lanes collector.old }
        requires willing { C.refused collector.old None }
        ensures same { SameGatherer self.old.gatherer self.new.gatherer }
        ensures lanes { C.lanes collector.new ≡ C.lanes collector.old }
        ensures told { TellsLane C.given lane self.old collector.old (is_ok result) self.new collector.new }
        ensures refused { C.refused collector.new (result_err result) }
    {
        if self.end.is_some() {
            return Ok(false);
        }
        match self.gatherer.take() {
            Took::Nothing => Ok(false),
            Took::Answer(answer) => {
                collector.take(lane, answer)?;
                Ok(true)
            }
            Took::End(end) => {
                collector.end(lane, end)?;
                self.end = Some(end);
                Ok(true)
            }
        }
    }

    /// After the end of an abandoned lane, takes up to `most` results of each lane of the source and drops
    /// them, so that the setters of the other lanes reach the end. Returns whether there were any.
    fn drop_rest(&mut self, most: usize) -> bool
        ensures same { SameGatherer self.old.gatherer self.new.gatherer }
        ensures gathered { gathered self.new.gatherer ≡ gathered self.old.gatherer }
        ensures taken { gatherer_end self.new.gatherer ≡ gatherer_end self.old.gatherer }
        ensures end { self.new.end ≡ self.old.end }
    {
        if self.end.is_none() || self.is_over() {
            return false;
        }
        self.gatherer.drop_rest(most)
    }

    /// Takes the available results and the end, together at most `most`, and gives them to the collector.
    /// Returns whether there were any.
    fn take_some<C: Collector<Item = O>>(
        &mut self,
        lane: usize,
        most: usize,
        collector: &mut C,
    ) -> Result<bool, Refusal>
        requires lane { lane < C.lanes collector.old }
        requires willing { C.refused collector.old None }
        ensures same { SameGatherer self.old.gatherer self.new.gatherer }
        ensures lanes { C.lanes collector.new ≡ C.lanes collector.old }
        ensures told { TellsLane C.given lane self.old collector.old (is_ok result) self.new collector.new }
        ensures refused { C.refused collector.new (result_err result) }
    {
        for takes in 0..most {
            if !self.take(lane, collector)? {
                return Ok(takes > 0);
            }
        }
        Ok(true)
    }

    /// Takes the available results and the end, together at most `most`, and gives them to the collector.
    /// After the end of an abandoned lane, drops the results that the other lanes still have, up to `most` of
    /// each. Returns whether results or the end were taken, or results were dropped.
    pub fn visit<C: Collector<Item = O>>(
        &mut self,
        lane: usize,
        most: usize,
        collector: &mut C,
    ) -> Result<bool, Refusal>
        requires lane { lane < C.lanes collector.old }
        requires willing { C.refused collector.old None }
        ensures same { SameGatherer self.old.gatherer self.new.gatherer }
        ensures lanes { C.lanes collector.new ≡ C.lanes collector.old }
        ensures told { TellsLane C.given lane self.old collector.old (is_ok result) self.new collector.new }
        ensures refused { C.refused collector.new (result_err result) }
    {
        let took = self.take_some(lane, most, collector)?;
        let dropped = self.drop_rest(most);
        Ok(took || dropped)
    }
}
