//! The report of a batch.
ghost use Rattle.std.specs.Prelude.{◌≡◌, ◌↔◌, ◌++◌, ◌∷◌, [], All, IsTrue, is_ok, if◌then◌else◌};
ghost use Rattle.lanes.specs.declared.ending.LaneEnd.TheVariants.{Complete};

use lanes::LaneEnd;
use set_line::Answer;
use std::alloc::AllocError;
use std::marker::Model;

/// The results of a lane, in order.
#[derive(Drop)]
pub struct Answers {
    list: Vec<Answer>,
}

impl Model for Answers {
    ghost use Rattle.std.specs.Prelude.{List};
    ghost use Rattle.set_line.specs.Answer.{AnswerValue};

    ghost Value = { List AnswerValue };

    ghost view = { λ a. a.list.items };
}

impl Answers {
    pub(crate) fn new(list: Vec<Answer>) -> Self
        ensures { result ≡ list.items }
    {
        Answers { list }
    }

    /// Appends a result. If an allocation fails, nothing is appended.
    pub(crate) fn push(&mut self, answer: Answer) -> Result<(), AllocError>
        ensures { self.new ≡ (if is_ok result then self.old ++ answer ∷ [] else self.old) }
    {
        self.list.push(answer)?;
        Ok(())
    }

    /// Returns the results as a slice, in order.
    pub fn as_slice(&self) -> &[Answer]
        ensures { result.now ≡ self.now }
    {
        self.list.as_slice()
    }
}

/// The report of one source.
#[derive(Drop)]
pub struct LaneReport<S> {
    /// The source, as its thread returned it.
    pub source: S,
    /// The results of its lines, in order.
    pub answers: Answers,
    /// How its lane ended.
    pub end: LaneEnd,
}

/// The reports of the sources, in the order of the sources.
#[derive(Drop)]
pub struct Report<S> {
    lanes: Vec<LaneReport<S>>,
}

impl<S> Model for Report<S> {
    ghost use Rattle.std.specs.Prelude.{List};
    ghost use Rattle.set_run.specs.declared.report.LaneReport.{LaneReport};

    ghost Value = { List (LaneReport S) };

    ghost view = { λ r. r.lanes.items };
}

impl<S> Report<S> {
    pub(crate) fn new(lanes: Vec<LaneReport<S>>) -> Self
        ensures { result ≡ lanes.items }
    {
        Report { lanes }
    }

    /// Returns the report of each source, in the order of the sources.
    pub fn lanes(&self) -> &[LaneReport<S>]
        ensures { result.now ≡ self.now }
    {
        self.lanes.as_slice()
    }

    /// Returns whether every lane is complete.
    pub fn is_finished(&self) -> bool
        ensures { IsTrue result ↔ All (λ lane. lane.end ≡ Complete) self.now }
    {
        self.lanes.iter().all(|lane| lane.end == LaneEnd::Complete)
    }
}
