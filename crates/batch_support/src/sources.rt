//! Sources of lines, with terms and failures.
use lanes::SourceFault;
use set_line::{Line, Terms};
use set_run::{LineSource, ListSource};
use std::alloc::Global;
use std::sync::Arc;
use std::vec;
use test_support::lines_of;

/// Returns a source of lines with these texts; `None` if an allocation fails.
pub fn source_of(alloc: Global, texts: &[&str]) -> Option<ListSource> {
    Some(ListSource::new(lines_of(alloc, texts)?))
}

/// Returns the sources, each with these terms; `None` if an allocation fails.
pub fn with_terms<S: Drop>(
    alloc: Global,
    terms: &Arc<Terms>,
    sources: Vec<S>,
) -> Option<Vec<(S, Arc<Terms>)>> {
    let mut pairs = Vec::with_capacity(alloc, sources.len()).ok()?;
    for source in sources {
        pairs.push((source, terms.clone().ok()?)).ok()?;
    }
    Some(pairs)
}

/// A source that returns its lines and then fails, if it has an error.
#[derive(Drop)]
pub struct FailingSource {
    lines: vec::IntoIter<Line>,
    error: Option<SourceFault>,
    failed: Option<SourceFault>,
}

impl FailingSource {
    /// Makes a source of lines with these texts; `None` if an allocation fails.
    pub fn new(alloc: Global, texts: &[&str], error: Option<SourceFault>) -> Option<FailingSource> {
        Some(FailingSource {
            lines: lines_of(alloc, texts)?.into_iter(),
            error,
            failed: None,
        })
    }
}

impl LineSource for FailingSource {
    ghost use Rattle.std.specs.Prelude.{None};

    ghost to_come = { λ _. None };

    ghost failed = { λ source. source.failed };

    ghost Origin = { Unit {0} };

    ghost origin = { λ _. tt };

    fn next_line(&mut self) -> Result<Option<Line>, SourceFault> {
        if let Some(fault) = self.failed {
            return Err(fault);
        }
        if let Some(line) = self.lines.next() {
            return Ok(Some(line));
        }
        match self.error {
            None => Ok(None),
            Some(fault) => {
                self.failed = Some(fault);
                Err(fault)
            }
        }
    }
}
