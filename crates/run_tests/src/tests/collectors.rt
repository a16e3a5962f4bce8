//! Collectors that refuse: the batch stops. That it returns the refusal, and what the collector was given, is proved.
use super::slow::{Before, Manner, Shared, WILLING, run_slowly};
use batch::Refusal;
use std::test::Fail;

/// The number of results and ends of three sources of two lines.
const EVENTS: u32 = 9;

/// The largest number of lines that a source may be asked for after the refusal: the batch is stopped a
/// little later.
const MOST: u32 = 10;

/// In batches with small rings and two workers the collector refuses each event in turn, or a call of
/// `about_to_wait`, if there is one.
#[test]
fn a_collector_that_refuses_stops_the_batch(rt: HostRuntime) -> Result<(), Fail> {
    for case in 0..30u32 {
        let taken = if case > EVENTS { u32::MAX } else { case };
        let manner = Manner {
            taken,
            waits: case <= EVENTS,
            ..WILLING
        };
        let shared = Shared::new();
        let source = (2, Before::Pause(0));
        let (_, run) = run_slowly(&rt, &((1, 1), (3, 2, 1)), source, &shared, manner)?;
        assert_eq!(&rt; run.refusal.is_some(), shared.is_refused(), "{case}");
        assert!(&rt; shared.is_refused() || taken >= EVENTS, "{case}");
    }
    Ok(())
}

/// The source has 60 lines, all of which fit into its rings, and returns the second one only after the
/// collector has refused the result of the first one.
/// Mutant of `feed_items` in set_run: the stop flag isn't read between two lines.
#[test]
fn a_source_is_asked_for_nothing_after_the_stop(rt: HostRuntime) -> Result<(), Fail> {
    let shared = Shared::new();
    let source = (60, Before::Refusal(20_000));
    let manner = Manner {
        taken: 0,
        ..WILLING
    };
    let (_, run) = run_slowly(&rt, &((64, 1), (1, 1, 1)), source, &shared, manner)?;
    assert_eq!(&rt; run.refusal, Some(Refusal::Output));
    assert!(&rt; !shared.is_late());
    assert!(&rt; shared.asked() <= MOST, "asked {} times", shared.asked());
    Ok(())
}
