//! Batches over small rings, whose threads often sleep: each is woken.
use super::slow::{Before, Layout, Manner, Shared, WILLING, run_slowly};
use std::test::Fail;

/// How many lines all sources have together, at most.
const LINES: usize = 180;

/// Who takes time: what a source waits for before a line, the pause before an event is taken, and how long
/// the collecting thread is kept waiting at first, in microseconds.
static PAUSES: [(&str, Before, u64, u64); 6] = [
    ("nobody", Before::Pause(0), 0, 0),
    ("sources", Before::Pause(700), 0, 0),
    ("the collector", Before::Pause(0), 700, 0),
    ("sources and the collector", Before::Pause(300), 700, 0),
    ("the collector at first", Before::Pause(0), 0, 20_000),
    ("sources, up to earlier results", Before::Results, 0, 0),
];

static LAYOUTS: [Layout; 10] = [
    ((1, 1), (3, 1, 1)),
    ((1, 1), (3, 3, 1)),
    ((2, 1), (3, 2, 1)),
    ((16, 1), (3, 2, 1)),
    ((1, 8), (3, 1, 1)),
    ((1, 1), (3, 3, 3)),
    ((2, 1), (3, 2, 2)),
    ((1, 1), (3, 5, 2)),
    ((1, 1), (64, 16, 1)),
    ((1, 1), (4, 16, 16)),
];

/// A line in an open block has no result: a source that waits for results has blocks of one line.
/// Mutant of `wake_if_due` in set_run: the workers aren't woken before a line of a source that isn't ready.
#[test]
fn each_thread_that_sleeps_is_woken(rt: HostRuntime) -> Result<(), Fail> {
    for &(who, before, pause, late) in &PAUSES {
        for layout in &LAYOUTS {
            let (size, (count, ..)) = *layout;
            if before == Before::Results && size.1 > 1 {
                continue;
            }
            let shared = Shared::new();
            let lines = u32::try_from(LINES / count.max(1)).unwrap_or(0);
            let manner = Manner {
                late,
                pause,
                ..WILLING
            };
            let (collector, run) = run_slowly(&rt, layout, (lines, before), &shared, manner)?;
            let sources = u32::try_from(count).unwrap_or(0);
            let wanted = (sources.wrapping_mul(lines), sources);
            assert_eq!(&rt; run.refusal, None, "{who}");
            assert_eq!(&rt; (collector.results, collector.ends), wanted, "{who}");
            assert!(&rt; !shared.is_late(), "{who}");
        }
    }
    Ok(())
}
