//! Batches of sources and collectors that take their time, wait for each other, or refuse.
use batch::{Collector, Gate, ItemOptions, ItemSource, Refusal, RunEnd, Stage, run_items};
use batch_support::plan;
use lanes::{LaneEnd, SourceFault};
use line_lane::LineMaker;
use set_line::{Answer, Line};
use std::alloc::Global;
use std::process::Abort;
use std::sync::Wait;
use std::sync::atomic::{AtomicBool, AtomicU32, Ordering};
use std::test::Fail;
use std::thread::Threads;
use std::time::{Clock, Duration};
use std::{array, thread};
use test_support::line;
use test_support::terms::plain_terms;

/// How often a source polls for something that it waits for, and how long it sleeps between two polls, in
/// microseconds.
const POLLS: u32 = 20_000;

const POLL: u64 = 200;

/// What a source waits for before it returns a line.
#[derive(Clone, Copy, Debug, PartialEq, Eq)]
pub enum Before {
    /// The end of a pause of this many microseconds. Such a source is ready if there is no pause.
    Pause(u64),
    /// The results of its earlier lines. Such a source is never ready.
    Results,
    /// The refusal of the collector, before each line but the first, and a pause of this many microseconds.
    Refusal(u64),
}

/// What the sources and the collector of a batch share.
#[derive(Drop)]
pub struct Shared {
    /// The number of results collected of each source.
    collected: [AtomicU32; 64],
    refused: AtomicBool,
    /// How often a source was asked for a line that comes after the refusal.
    asked: AtomicU32,
    /// A source waited in vain.
    late: AtomicBool,
}

impl Shared {
    pub fn new() -> Shared {
        Shared {
            collected: array::from_fn(|_| AtomicU32::new(0)),
            refused: AtomicBool::new(false),
            asked: AtomicU32::new(0),
            late: AtomicBool::new(false),
        }
    }

    pub fn asked(&self) -> u32 {
        self.asked.load(Ordering::SeqCst)
    }

    pub fn is_refused(&self) -> bool {
        self.refused.load(Ordering::SeqCst)
    }

    pub fn is_late(&self) -> bool {
        self.late.load(Ordering::SeqCst)
    }

    fn collect(&self, lane: usize) {
        self.collected[lane % 64].fetch_add(1, Ordering::SeqCst);
    }

    /// Whether a source that was asked for so many lines before has waited long enough.
    fn has_come(&self, before: Before, number: usize, given: u32) -> bool {
        match before {
            Before::Pause(_) => true,
            Before::Results => self.collected[number % 64].load(Ordering::SeqCst) >= given,
            Before::Refusal(_) => given == 0 || self.is_refused(),
        }
    }
}

/// A source that returns the line `ab` so many times.
#[derive(Drop)]
pub struct SlowSource<'a, R> {
    rt: &'a R,
    alloc: Global,
    shared: &'a Shared,
    number: usize,
    before: Before,
    given: u32,
    left: u32,
}

impl<R: Clock> SlowSource<'_, R> {
    /// Waits as the source should before a line; after one vain wait of any source not again.
    fn wait(&self) {
        match self.before {
            Before::Pause(micros) => rest(self.rt, micros),
            Before::Refusal(micros) if self.given > 0 => rest(self.rt, micros),
            _ => (),
        }
        for _ in 0..POLLS {
            if self.shared.has_come(self.before, self.number, self.given) || self.shared.is_late() {
                return;
            }
            rest(self.rt, POLL);
        }
        self.shared.late.store(true, Ordering::SeqCst);
    }
}

impl<R: Clock> ItemSource<Line> for SlowSource<'_, R> {
    ghost use Rattle.std.specs.Prelude.{⊤};

    ghost next_gives = { λ before result after. ⊤ };

    ghost Origin = { Unit {0} };

    ghost origin = { λ _. tt };

    fn next_item(&mut self) -> Result<Option<Line>, SourceFault> {
        self.wait();
        if matches!(self.before, Before::Refusal(_)) && self.given > 0 {
            self.shared.asked.fetch_add(1, Ordering::SeqCst);
        }
        if self.left == 0 {
            return Ok(None);
        }
        self.left -= 1;
        self.given = self.given.saturating_add(1);
        match line(self.alloc, b"ab") {
            Some(line) => Ok(Some(line)),
            None => Err(SourceFault::OutOfMemory),
        }
    }

    fn is_ready(&self) -> bool {
        self.before == Before::Pause(0)
    }
}

/// Sleeps for this many microseconds.
fn rest<R: Clock>(rt: &R, micros: u64) {
    if micros > 0 {
        thread::sleep(rt, Duration::from_micros(micros));
    }
}

/// What the collecting thread does: how long it waits before it begins, and before it takes each event, in
/// microseconds; how many events it takes before it refuses one; and whether it ever waits for more events
/// without a refusal.
#[derive(Clone, Copy)]
pub struct Manner {
    pub late: u64,
    pub pause: u64,
    pub taken: u32,
    pub waits: bool,
}

/// It takes everything.
pub const WILLING: Manner = Manner {
    late: 0,
    pause: 0,
    taken: u32::MAX,
    waits: true,
};

/// A start barrier that keeps the collecting thread waiting for this many microseconds.
#[derive(Drop)]
struct LateGate<'a, R>(&'a R, u64);

impl<R: Clock> Gate for LateGate<'_, R> {
    fn enter(&self, stage: Stage, _number: usize) {
        if stage == Stage::Collector {
            rest(self.0, self.1);
        }
    }
}

/// A collector of this manner, which counts the results and the complete lanes that it was given. It is proved that
/// these are in order, and that a collector isn't called again after a refusal.
#[derive(Drop)]
pub struct SlowCollector<'a, R> {
    rt: &'a R,
    shared: &'a Shared,
    manner: Manner,
    pub results: u32,
    pub ends: u32,
}

impl<'a, R: Clock> SlowCollector<'a, R> {
    pub fn new(rt: &'a R, shared: &'a Shared, manner: Manner) -> Self {
        SlowCollector {
            rt,
            shared,
            manner,
            results: 0,
            ends: 0,
        }
    }

    fn refuses(&self) -> Result<(), Refusal> {
        self.shared.refused.store(true, Ordering::SeqCst);
        Err(Refusal::Output)
    }

    /// An event of a lane.
    fn event(&mut self) -> Result<(), Refusal> {
        rest(self.rt, self.manner.pause);
        if self.manner.taken == 0 {
            return self.refuses();
        }
        self.manner.taken -= 1;
        Ok(())
    }
}

impl<R: Clock> Collector for SlowCollector<'_, R> {
    ghost use Rattle.std.specs.Prelude.{⊤};

    type Item = Answer;

    ghost lanes = { λ c. 64 };

    ghost given = { λ c events. ⊤ };

    ghost refused = { λ c refusal. ⊤ };

    ghost quiet = { λ c. ⊤ };

    fn take(&mut self, lane: usize, _answer: Answer) -> Result<(), Refusal> {
        self.event()?;
        self.results = self.results.saturating_add(1);
        self.shared.collect(lane);
        Ok(())
    }

    fn end(&mut self, _lane: usize, end: LaneEnd) -> Result<(), Refusal> {
        self.event()?;
        self.ends = self
            .ends
            .saturating_add(u32::from(end == LaneEnd::Complete));
        Ok(())
    }

    fn about_to_wait(&mut self) -> Result<(), Refusal> {
        if self.manner.waits {
            Ok(())
        } else {
            self.refuses()
        }
    }
}

/// The sources of a batch, with their makers; `None` if an allocation fails.
fn sources_of<'a, R: Clock>(
    rt: &'a R,
    alloc: Global,
    count: usize,
    (lines, before): (u32, Before),
    shared: &'a Shared,
) -> Option<Vec<(SlowSource<'a, R>, LineMaker)>> {
    let terms = plain_terms(alloc)?;
    let mut sources = Vec::with_capacity(alloc, count).ok()?;
    for number in 0..count {
        let source = SlowSource {
            rt,
            alloc,
            shared,
            number,
            before,
            given: 0,
            left: lines,
        };
        let maker = LineMaker::new(terms.clone().ok()?);
        sources.push((source, maker)).ok()?;
    }
    Some(sources)
}

/// The slots and the block of a lane; and the sources, the workers, and the lanes of a source.
pub type Layout = ((usize, usize), (usize, usize, usize));

/// What came of a batch.
pub type Ended<'a, R> = (SlowCollector<'a, R>, RunEnd<SlowSource<'a, R>>);

/// Runs a batch of this layout, whose sources have so many lines and wait for this before each.
pub fn run_slowly<'a, R: Threads + Wait + Clock + Abort + AllocGlobal + Sync>(
    rt: &'a R,
    &(size, (count, workers, lanes)): &Layout,
    source: (u32, Before),
    shared: &'a Shared,
    manner: Manner,
) -> Result<Ended<'a, R>, Fail> {
    let plan = plan(size.0, size.1, workers)?;
    let sources = sources_of(rt, rt.alloc(), count, source, shared).ok_or("out of memory")?;
    if sources.len() > 64 {
        return Err("too many sources".into());
    }
    let gate = &LateGate(rt, manner.late);
    let options = ItemOptions { plan, gate, lanes };
    let collector = SlowCollector::new(rt, shared, manner);
    let (collector, ended) = run_items(rt, rt.alloc(), sources, options, collector);
    Ok((collector, ended?))
}
