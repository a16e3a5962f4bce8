//! The number of lanes of a source.
ghost use Rattle.std.specs.Prelude.{◌≡◌, ◌<◌};

use crate::{MOST_SOURCES, Plan};
use std::marker::Model;

/// The number of lanes of each source of a batch: at least one.
#[derive(Clone, Copy)]
pub(crate) struct LaneCount {
    lanes: usize,
}

impl Model for LaneCount {
    ghost use Rattle.std.specs.Prelude.{ℕ, ◌<◌};

    ghost Value = { ℕ };

    ghost view = { λ c. c.lanes };

    ghost invariant = { λ c. 0 < c.lanes };

    ghost inverse = { λ n. record { lanes = n } };
}

impl LaneCount {
    /// Returns the number of lanes of each source: at most `most`, at most the number of workers of the plan,
    /// and so few that all sources together have at most 64 lanes, but at least one.
    pub fn new(plan: &Plan, sources: usize, most: usize) -> Self {
        let room = MOST_SOURCES.checked_div(sources).unwrap_or(1);
        LaneCount {
            lanes: most.min(plan.workers.get()).min(room).max(1),
        }
    }

    /// Returns the number of lanes.
    pub fn get(self) -> usize
        ensures value { result ≡ self }
        ensures some { 0 < result }
    {
        self.lanes
    }
}
