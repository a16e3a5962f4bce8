ghost use Rattle.std.specs.Prelude.{◌≡◌};
ghost use Rattle.std.specs.Arc.{arc_value};
ghost use Rattle.set_line.specs.Answer.{IsRight, answer_of, outcome_of};

use crate::{Line, Outcome, Terms};
use run_plan::{InlineSlots, Made, Stored};
use std::marker::Model;
use std::sync::Arc;

/// The result of a line, with the line and its settings. An invariant of the type states that the result is
/// the defined one (`outcome_of`) for this line and these settings.
#[derive(Drop)]
pub struct Answer {
    terms: Arc<Terms>,
    line: Line,
    outcome: Outcome,
}

impl Model for Answer {
    ghost use Rattle.std.specs.Prelude.{◌≡◌};
    ghost use Rattle.std.specs.Arc.{arc_value};
    ghost use Rattle.set_line.specs.Answer.{AnswerValue, outcome_of};

    ghost Value = { AnswerValue };

    ghost view = { λ a. record { terms = arc_value a.terms; line = a.line; outcome = a.outcome } };

    ghost invariant = { λ a. a.outcome ≡ outcome_of (arc_value a.terms) a.line };
}

impl Answer {
    pub(crate) fn new(terms: Arc<Terms>, line: Line, outcome: Outcome) -> Self
        requires { outcome ≡ outcome_of (arc_value terms) line }
        ensures { result ≡ answer_of (arc_value terms) line }
    {
        Answer {
            terms,
            line,
            outcome,
        }
    }

    /// Returns the settings of the line.
    pub fn terms(&self) -> &Terms
        ensures { result.now ≡ self.now.terms }
    {
        &self.terms
    }

    /// Returns the line.
    pub fn line(&self) -> &Line
        ensures { result.now ≡ self.now.line }
    {
        &self.line
    }

    /// Returns the result of the line.
    pub fn outcome(&self) -> &Outcome
        ensures value { result.now ≡ self.now.outcome }
        ensures right { IsRight self.now }
    {
        &self.outcome
    }
}

impl Stored for Answer {
    type Slots = InlineSlots<Answer>;
}

/// An answer is right if its outcome is the defined one for its line and settings.
impl Made for Answer {
    ghost use Rattle.set_line.specs.Answer.{IsRight};

    ghost is_right = { IsRight };

    fn show_right(&self) {
        let _ = self.outcome();
    }
}
