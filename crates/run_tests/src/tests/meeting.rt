//! The threads of a batch run concurrently, and each line goes through the rings of its lane: a start barrier
//! holds threads until others came by, and sources report when they are asked.
use super::runs::{says, text_of_ab};
use batch::{Gate, Stage};
use batch_support::{CountingGate, plan, with_terms};
use lanes::SourceFault;
use set_line::{Line, Terms};
use set_run::{LineSource, run};
use std::alloc::Global;
use std::sync::Arc;
use std::sync::atomic::{AtomicBool, AtomicU64, Ordering};
use std::test::Fail;
use std::{hint, thread, vec};
use test_support::repeated_line;
use test_support::terms::plain_terms;

/// How often a thread looks for another one, before it notes a failure.
const LOOKS: u32 = 67_108_864;

/// How often a thread that is held looks, once those that it was held for came by.
const MORE_LOOKS: u32 = 1_048_576;

/// The entries of two threads: a hexadecimal digit each.
const BOTH: u64 = 0x11;

/// Who is held.
#[derive(Clone, Copy, Debug, PartialEq, Eq)]
enum Held {
    /// Each source's thread and each source until the other came, and each worker likewise.
    Pairs,
    /// Each worker, until its source was asked twice; the second one also until the first source was asked
    /// for all of its five lines and for one more.
    Workers,
    /// The collecting thread, until each source was asked this many times.
    Collector(u64),
}

/// A start barrier for a batch of two sources, and how often each source was asked for a line.
#[derive(Drop)]
struct Meeting {
    held: Held,
    entered: CountingGate,
    asked: [AtomicU64; 2],
    failed: AtomicBool,
}

impl Meeting {
    fn new(held: Held) -> Meeting {
        Meeting {
            held,
            entered: CountingGate::new(),
            asked: [AtomicU64::new(0), AtomicU64::new(0)],
            failed: AtomicBool::new(false),
        }
    }

    fn asked(&self, number: usize) -> u64 {
        self.asked[number % 2].load(Ordering::SeqCst)
    }

    fn fail(&self) {
        self.failed.store(true, Ordering::SeqCst);
    }

    /// Waits until this holds.
    fn wait_until<F: Fn() -> bool>(&self, holds: F)
        requires { F.IsAlwaysCallable holds }
    {
        for look in 0..LOOKS {
            if holds() {
                return;
            }
            pause(look % 8 == 0);
        }
        self.fail();
    }

    /// Looks on for a while. Meanwhile the sources aren't asked more often than this.
    fn looks_on(&self, first: u64, second: u64) {
        for look in 0..MORE_LOOKS {
            if self.asked(0) > first || self.asked(1) > second {
                return self.fail();
            }
            pause(look % 4096 == 0);
        }
    }

    fn hold_worker(&self, number: usize) {
        self.wait_until(|| self.asked(number) >= 2);
        if number == 0 {
            self.looks_on(2, u64::MAX);
        } else {
            self.wait_until(|| self.asked(0) >= 6);
            self.looks_on(u64::MAX, 2);
        }
    }

    fn hold_collector(&self, asks: u64) {
        self.wait_until(|| self.asked(0) >= asks && self.asked(1) >= asks);
        self.looks_on(asks, asks);
    }
}

fn pause(yields: bool) {
    if yields {
        thread::yield_now();
    } else {
        hint::spin_loop();
    }
}

impl Gate for Meeting {
    fn enter(&self, stage: Stage, number: usize) {
        self.entered.enter(stage, number);
        match (self.held, stage) {
            (Held::Pairs, Stage::Source) => self.wait_until(|| self.entered.entries().0 == BOTH),
            (Held::Pairs, Stage::Setter) => self.wait_until(|| self.entered.entries().1 == BOTH),
            (Held::Workers, Stage::Setter) => self.hold_worker(number),
            (Held::Collector(asks), Stage::Collector) => self.hold_collector(asks),
            _ => (),
        }
    }
}

/// A source of a meeting.
#[derive(Drop)]
struct Guest<'a> {
    meeting: &'a Meeting,
    number: usize,
    lines: vec::IntoIter<Line>,
}

impl LineSource for Guest<'_> {
    ghost use Rattle.std.specs.Prelude.{None};

    ghost to_come = { λ _. None };

    ghost failed = { λ _. None };

    ghost Origin = { Unit {0} };

    ghost origin = { λ _. tt };

    /// The first line is held until the other source was asked for its own.
    fn next_line(&mut self) -> Result<Option<Line>, SourceFault> {
        let meeting = self.meeting;
        // Mutant of `feed` in set_run: the thread of a source enters the gate after its last line.
        let own = if self.number == 0 { 0x1 } else { 0x10 };
        if meeting.entered.entries().0 & own == 0 {
            meeting.fail();
        }
        let before = meeting.asked[self.number % 2].fetch_add(1, Ordering::SeqCst);
        if meeting.held == Held::Pairs && before == 0 {
            meeting.wait_until(|| meeting.asked(0) > 0 && meeting.asked(1) > 0);
        }
        Ok(self.lines.next())
    }
}

/// Two sources of a meeting, of this many lines `ab` each; `None` if an allocation fails.
fn guests<'a>(
    alloc: Global,
    meeting: &'a Meeting,
    lines: usize,
) -> Option<Vec<(Guest<'a>, Arc<Terms>)>> {
    let mut sources = Vec::with_capacity(alloc, 2).ok()?;
    for number in 0..2 {
        let guest = Guest {
            meeting,
            number,
            lines: repeated_line(alloc, "ab", lines)?.into_iter(),
        };
        sources.push(guest).ok()?;
    }
    with_terms(alloc, &plain_terms(alloc)?, sources)
}

/// Who is held, how many lines each source has, and the slots and the block of a lane.
///
/// A source is asked again only after its last line was accepted. While a worker is held, its lane has room
/// for one line, and the other lane goes on to its end. While the collecting thread is held, both rings of a
/// lane are full of whole messages, one more is with the setter, and the open block of the feeder lacks the
/// line that isn't accepted.
static MEETINGS: [(&str, Held, usize, (usize, usize)); 6] = [
    ("pairs", Held::Pairs, 1, (1, 1)),
    ("workers", Held::Workers, 5, (1, 1)),
    ("one slot", Held::Collector(4), 5, (1, 1)),
    ("three slots of two", Held::Collector(16), 40, (3, 2)),
    ("two slots of three", Held::Collector(18), 40, (2, 3)),
    ("one slot of eight", Held::Collector(32), 40, (1, 8)),
];

/// Nobody is missed, and no source is asked too early. Each thread enters once, and each source is asked for
/// all its lines and for one more.
#[test]
fn threads_run_concurrently_and_lines_go_through_the_rings(rt: HostRuntime) -> Result<(), Fail> {
    for (case, held, lines, (capacity, block)) in &MEETINGS {
        let meeting = Meeting::new(*held);
        let sources = guests(rt.alloc(), &meeting, *lines).ok_or("out of memory")?;
        let report = run(
            &rt,
            rt.alloc(),
            sources,
            plan(*capacity, *block, 2)?,
            &meeting,
        )?;
        let wanted = text_of_ab(rt.alloc(), &[*lines, *lines])?;
        says(&rt, case, &report, &wanted)?;
        assert!(&rt;
            report.is_finished() && !meeting.failed.load(Ordering::SeqCst),
            "{case}"
        );
        let asked = (*lines as u64).wrapping_add(1);
        assert_eq!(&rt;
            (meeting.asked(0), meeting.asked(1)),
            (asked, asked),
            "{case}"
        );
        assert_eq!(&rt; meeting.entered.entries(), (BOTH, BOTH, 1), "{case}");
    }
    Ok(())
}
