//! The collecting thread: it takes the results of all sources and gives them to the collector.
ghost use Rattle.std.specs.Prelude.{◌≡◌, ◌≤◌, ◌↔◌, All, IsSome, IsTrue, None, is_none, is_ok, vec_len};
ghost use Rattle.std.specs.List.{AllZip};
ghost use Rattle.std.specs.Result.{result_err};
ghost use Rattle.batch.specs.Collecting.{IsOver, SameLane, TellsLanes};
ghost use Rattle.batch.specs.Events.{Keeps};

use crate::collecting::lane_taker::LaneTaker;
use crate::threads::backoff::Backoff;
use crate::threads::signals::Signals;
use crate::{Collector, Gate, Refusal, Stage};
use lanes::Stored;
use std::sync::Wait;

/// Takes the available results of all sources, source by source, and drops those of abandoned lanes. Returns
/// whether there were any.
fn go_round<C: Collector>(
    signals: &Signals,
    lanes: &mut Vec<LaneTaker<C::Item>>,
    collector: &mut C,
) -> Result<bool, Refusal>
    requires lanes { vec_len lanes.old ≤ C.lanes collector.old }
    requires willing { C.refused collector.old None }
    ensures same { AllZip SameLane lanes.old.items lanes.new.items }
    ensures lanes { C.lanes collector.new ≡ C.lanes collector.old }
    ensures told { TellsLanes C.given lanes.old.items collector.old (is_ok result) lanes.new.items collector.new }
    ensures refused { C.refused collector.new (result_err result) }
{
    let mut any = false;
    for lane in 0..lanes.len() {
        let took = lanes[lane].visit(lane, signals.lines_before_wake(), collector)?;
        signals.answers_taken(lane, took);
        any |= took;
    }
    Ok(any)
}

/// Returns whether the collector has received the end of each source, and nothing is left to be taken.
fn have_ended<O: Stored>(lanes: &[LaneTaker<O>]) -> bool
    ensures { IsTrue result ↔ All IsOver lanes.now }
{
    lanes.iter().all(|lane| lane.is_over())
}

/// Sleeps until there may be results. Nothing that the collector has received may be waiting to be written.
fn sleep<R: Wait, C: Collector>(rt: &R, signals: &Signals, backoff: &mut Backoff, _collector: &C)
    requires { C.quiet _collector.now }
{
    signals.sleep_as_collector(rt, backoff);
}

/// Pauses; or, after enough pauses, calls the collector's `about_to_wait` and sleeps.
fn wait<R: Wait, C: Collector>(
    rt: &R,
    signals: &Signals,
    backoff: &mut Backoff,
    collector: &mut C,
) -> Result<(), Refusal>
    requires willing { C.refused collector.old None }
    ensures lanes { C.lanes collector.new ≡ C.lanes collector.old }
    ensures given { Keeps C.given collector.old collector.new }
    ensures refused { C.refused collector.new (result_err result) }
{
    if backoff.looks_again() {
        return Ok(());
    }
    collector.about_to_wait()?;
    sleep(rt, signals, backoff, collector);
    Ok(())
}

/// Takes the results of all sources up to their ends, and then calls the collector's `about_to_wait`, since
/// the source of an abandoned lane may still be read. The error is the refusal of the collector, after which
/// nothing more is taken.
fn collect_all<R: Wait, C: Collector>(
    rt: &R,
    signals: &Signals,
    lanes: &mut Vec<LaneTaker<C::Item>>,
    collector: &mut C,
) -> Result<(), Refusal>
    requires lanes { vec_len lanes.old ≤ C.lanes collector.old }
    requires willing { C.refused collector.old None }
    ensures same { AllZip SameLane lanes.old.items lanes.new.items }
    ensures lanes { C.lanes collector.new ≡ C.lanes collector.old }
    ensures told { TellsLanes C.given lanes.old.items collector.old (is_ok result) lanes.new.items collector.new }
    ensures whole { IsTrue (is_ok result) → All (λ lane. IsSome lane.end) lanes.new.items }
    ensures refused { C.refused collector.new (result_err result) }
{
    let mut backoff = Backoff::new();
    for _ in rt.forever() {
        if go_round(signals, lanes, collector)? {
            backoff.renew();
        } else if have_ended(lanes.as_slice()) {
            return collector.about_to_wait();
        } else {
            wait(rt, signals, &mut backoff, collector)?;
        }
    }
    unreachable!()
}

/// The gatherers and the collector after the collection, and the refusal of the collector, if any.
#[derive(Drop)]
pub(crate) struct Collected<C, O: Stored> {
    pub lanes: Vec<LaneTaker<O>>,
    pub collector: C,
    pub refusal: Option<Refusal>,
}

/// Does the work of the collecting thread: passes the start barrier, and takes the results of all sources up
/// to their ends or to the first refusal.
pub(crate) fn collect<R: Wait, G: Gate, C: Collector>(
    rt: &R,
    gate: &G,
    signals: &Signals,
    lanes: Vec<LaneTaker<C::Item>>,
    collector: C,
) -> Collected<C, C::Item>
    requires lanes { vec_len lanes ≤ C.lanes collector }
    requires willing { C.refused collector None }
    ensures same { AllZip SameLane lanes.items result.lanes.items }
    ensures lanes { C.lanes result.collector ≡ C.lanes collector }
    ensures told { TellsLanes C.given lanes.items collector (is_none result.refusal) result.lanes.items result.collector }
    ensures whole { IsTrue (is_none result.refusal) → All (λ lane. IsSome lane.end) result.lanes.items }
    ensures refused { C.refused result.collector result.refusal }
{
    gate.enter(Stage::Collector, 0);
    let mut lanes = lanes;
    let mut collector = collector;
    let refusal = collect_all(rt, signals, &mut lanes, &mut collector).err();
    Collected {
        lanes,
        collector,
        refusal,
    }
}
