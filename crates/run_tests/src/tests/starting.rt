//! A batch that ends before all its threads are started: no source is asked for a line, and so none that is silent
//! keeps the batch from its end.
ghost use Rattle.std.specs.Prelude.{◌≤◌, vec_len};
ghost use Rattle.std.specs.Arc.{arc_value};
ghost use Rattle.set_line.specs.Answer.{answer_of};

use super::slow::{self, SlowCollector, WILLING};
use batch::{ItemOptions, ItemSource, NoGate, RunFault, run_items};
use batch_support::small_plan;
use dealt_lanes::Shared;
use lanes::{Making, SourceFault};
use line_lane::LineMaker;
use set_line::{Answer, Line, OutOfMemory};
use std::alloc::Global;
use std::sync::atomic::{AtomicBool, Ordering};
use std::test::Fail;
use std::thread;
use std::time::{Clock, Duration};
use test_support::terms::plain_terms;

/// How long a maker waits before it can't be shared, in milliseconds: by then a source would have been asked.
const WAIT: u64 = 30;

/// The maker of a source. If it lacks memory, it can't be shared for the second lane of the source, and the
/// batch ends before a thread of the source is started.
#[derive(Drop)]
struct Scarce<'a, R> {
    rt: &'a R,
    lines: LineMaker,
    lacks: bool,
}

impl<R: Clock> Making for Scarce<'_, R> {
    ghost use Rattle.std.proofs.Common.{rules};

    type In = Line;

    type Out = Answer;

    ghost makes = { λ maker. answer_of (arc_value maker.lines) };

    ghost slots = { 8 };

    fn make(&mut self, alloc: Global, input: Line) -> Result<Answer, (Line, OutOfMemory)> {
        self.lines.make(alloc, input)
    }

    ghost fits = { Prim.search rules };
}

impl<R: Clock> Shared for Scarce<'_, R> {
    fn share(&self) -> Result<Self, OutOfMemory> {
        if self.lacks {
            thread::sleep(self.rt, Duration::from_millis(WAIT));
            return Err(OutOfMemory);
        }
        Ok(Scarce {
            rt: self.rt,
            lines: self.lines.share()?,
            lacks: false,
        })
    }
}

/// A source that notes that it was asked.
#[derive(Drop)]
struct Silent<'a>(&'a AtomicBool);

impl ItemSource<Line> for Silent<'_> {
    ghost use Rattle.std.specs.Prelude.{⊤};

    ghost next_gives = { λ before result after. ⊤ };

    ghost Origin = { Unit {0} };

    ghost origin = { λ _. tt };

    fn next_item(&mut self) -> Result<Option<Line>, SourceFault> {
        self.0.store(true, Ordering::SeqCst);
        Ok(None)
    }

    fn is_ready(&self) -> bool {
        false
    }
}

/// Sources of which only the first lacks memory. The others are started before it. `None` if an allocation fails.
fn silent_sources<'a, R>(
    rt: &'a R,
    alloc: Global,
    count: usize,
    asked: &'a AtomicBool,
) -> Option<Vec<(Silent<'a>, Scarce<'a, R>)>> {
    let mut sources = Vec::with_capacity(alloc, count).ok()?;
    for number in 0..count {
        let maker = Scarce {
            rt,
            lines: LineMaker::new(plain_terms(alloc)?),
            lacks: number == 0,
        };
        sources.push((Silent(asked), maker)).ok()?;
    }
    Some(sources)
}

// Mutant of `feed` in set_run: the thread of a source doesn't wait for the start of the batch.
#[test]
fn no_source_is_asked_before_all_threads_are_started(rt: HostRuntime) -> Result<(), Fail> {
    for count in [2, 3, 32] {
        let asked = AtomicBool::new(false);
        let sources = silent_sources(&rt, rt.alloc(), count, &asked).ok_or("out of memory")?;
        if sources.len() > 64 {
            return Err("too many sources".into());
        }
        let plan = small_plan().ok_or("a plan out of range")?;
        let (gate, lanes) = (&NoGate, 2);
        let options = ItemOptions { plan, gate, lanes };
        let shared = slow::Shared::new();
        let collector = SlowCollector::new(&rt, &shared, WILLING);
        let (_, run) = run_items(&rt, rt.alloc(), sources, options, collector);
        assert!(&rt; matches!(run, Err(RunFault::OutOfMemory)));
        assert!(&rt; !asked.load(Ordering::SeqCst), "{count} sources");
    }
    Ok(())
}
