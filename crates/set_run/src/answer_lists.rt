//! The collector that keeps all results.
ghost use Rattle.std.specs.Prelude.{◌≡◌, [], length, replicate, IfOk};

use crate::Answers;
use batch::{Collector, Refusal};
use lanes::LaneEnd;
use set_line::Answer;
use std::alloc::{AllocError, Global};

/// The results of each lane, in order.
#[derive(Drop)]
pub(crate) struct AnswerLists {
    pub lists: Vec<Answers>,
}

impl AnswerLists {
    /// Returns empty lists for this many lanes. The error means that an allocation failed.
    pub fn new(alloc: Global, lanes: usize) -> Result<Self, AllocError>
        ensures { IfOk result (λ c. c.lists.items ≡ replicate lanes []) }
    {
        let mut lists = Vec::new(alloc);
        for made in 0..lanes {
            lists.push(Answers::new(Vec::new(alloc)))?;
        }
        Ok(AnswerLists { lists })
    }
}

impl Collector for AnswerLists {
    ghost use Rattle.std.specs.Prelude.{◌≡◌, ◌<◌, [], get_or, length, ⊤};
    ghost use Rattle.batch.specs.Events.{answers_in};

    type Item = Answer;

    ghost lanes = { λ c. length c.lists.items };

    ghost given = { λ c events. (lane : _) → lane < length c.lists.items
        → get_or c.lists.items lane [] ≡ answers_in lane events };

    ghost refused = { λ c refusal. ⊤ };

    ghost quiet = { λ c. ⊤ };

    fn take(&mut self, lane: usize, answer: Answer) -> Result<(), Refusal> {
        self.lists[lane].push(answer)?;
        Ok(())
    }

    fn end(&mut self, _lane: usize, _end: LaneEnd) -> Result<(), Refusal> {
        Ok(())
    }

    fn about_to_wait(&mut self) -> Result<(), Refusal> {
        Ok(())
    }
}
