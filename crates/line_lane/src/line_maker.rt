//! The maker of a lane of lines.
ghost use Rattle.std.specs.Prelude.{◌≡◌};

use dealt_lanes::Shared;
use lanes::Making;
use set_line::{Answer, Line, OutOfMemory, Terms, set};
use std::alloc::Global;
use std::marker::Model;
use std::sync::Arc;

/// Makes the [`Answer`] to each [`Line`], with the same settings. Contracts see it as its settings.
#[derive(Drop)]
pub struct LineMaker {
    terms: Arc<Terms>,
}

impl Model for LineMaker {
    ghost use Rattle.std.specs.declared.sync.Arc.{Arc as ArcOf};
    ghost use Rattle.std.specs.declared.alloc.Global.{Global as GlobalMemory};
    ghost use Rattle.set_line.specs.Terms.{TermsValue};

    ghost Value = { ArcOf TermsValue GlobalMemory };

    ghost view = { λ m. m.terms };
}

impl LineMaker {
    /// Returns the maker with these settings. This allocates no memory.
    pub fn new(terms: Arc<Terms>) -> Self
        ensures { result ≡ terms }
    {
        LineMaker { terms }
    }
}

impl Making for LineMaker {
    ghost use Rattle.std.specs.Arc.{arc_value};
    ghost use Rattle.set_line.specs.Answer.{answer_of};
    ghost use Rattle.std.proofs.Common.{rules};

    type In = Line;

    type Out = Answer;

    ghost makes = { λ terms. answer_of (arc_value terms) };

    ghost slots = { 8 };

    fn make(&mut self, alloc: Global, input: Line) -> Result<Answer, (Line, OutOfMemory)> {
        match Arc::try_clone(&self.terms) {
            Ok(terms) => set(alloc, terms, input),
            Err(fault) => Err((input, fault.into())),
        }
    }

    ghost fits = { Prim.search rules };
}

impl Shared for LineMaker {
    fn share(&self) -> Result<Self, OutOfMemory> {
        match Arc::try_clone(&self.terms) {
            Ok(terms) => Ok(LineMaker { terms }),
            Err(fault) => Err(fault.into()),
        }
    }
}
