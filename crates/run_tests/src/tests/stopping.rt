//! A batch whose collector refuses something returns, wherever its threads are then.
use super::slow::{Before, Layout, Manner, Shared, WILLING, run_slowly};
use batch::Refusal;
use std::test::Fail;

/// More lines than are ever set: such a source ends only if its thread is stopped.
const ENDLESS: u32 = u32::MAX;

/// When a batch is stopped: the lines of a source, the pause before each line and the one of the collecting
/// thread before it begins, in microseconds, and the number of events that are taken. Sources and workers
/// sleep while their rings are full; sources also if there is no room for their end, and workers also if
/// there are no lines.
static CASES: [(&str, u32, u64, u64, u32); 7] = [
    ("all at work", ENDLESS, 0, 0, 0),
    ("all at work for a while", ENDLESS, 0, 0, 1000),
    ("all rings full", ENDLESS, 0, 30_000, 0),
    ("no room for an end", 3, 0, 30_000, 0),
    ("workers asleep after the end", 2, 0, 30_000, 0),
    ("sources in a read", ENDLESS, 20_000, 0, 0),
    ("sources in a later read", ENDLESS, 5_000, 0, 10),
];

static LAYOUTS: [Layout; 6] = [
    ((1, 1), (1, 1, 1)),
    ((1, 1), (3, 2, 1)),
    ((2, 8), (2, 1, 1)),
    ((16, 1), (2, 2, 1)),
    ((1, 1), (1, 3, 3)),
    ((2, 1), (2, 2, 2)),
];

#[test]
fn each_thread_returns_once_the_batch_is_stopped(rt: HostRuntime) -> Result<(), Fail> {
    for &(name, lines, pause, late, taken) in &CASES {
        for layout in &LAYOUTS {
            let shared = Shared::new();
            let source = (lines, Before::Pause(pause));
            let manner = Manner {
                late,
                taken,
                ..WILLING
            };
            let (collector, run) = run_slowly(&rt, layout, source, &shared, manner)?;
            assert_eq!(&rt; run.refusal, Some(Refusal::Output), "{name}");
            assert_eq!(&rt; (collector.results, collector.ends), (taken, 0), "{name}");
        }
    }
    Ok(())
}
