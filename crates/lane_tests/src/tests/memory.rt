//! Failed allocations. If every allocation succeeds, a lane is opened and its lines are set. The toolchain's
//! option `--fail-alloc` lets one allocation fail. The first allocations make the arguments of the call; if one
//! of the later ones fails, the call reports that memory is lacking. A second call of `open` then succeeds, and a
//! line that was taken but not set is set by the next turn. The text that is printed states which case it was.
use super::lane::Lane;
use lanes::{LaneEnd, SourceEnd, Took, Turn};
use line_lane::LineMaker;
use set_line::{OutOfMemory, Terms};
use std::alloc::Global;
use std::process::Abort;
use std::sync::Arc;
use std::test::Fail;
use test_support::line;
use test_support::terms::ligature_terms;

/// Opens a lane with these terms, again if memory was refused. Returns what became of it.
fn told_of_opening<R: Abort + AllocGlobal>(rt: &R, terms: Arc<Terms>) -> &'static str {
    let again = terms.clone().expect(rt, "memory");
    if Lane::open(rt.alloc(), LineMaker::new(terms), (2, 2)).is_some() {
        return "opened";
    }
    assert!(rt; Lane::open(rt.alloc(), LineMaker::new(again), (2, 2)).is_some());
    "out of memory, and opened again"
}

#[test]
fn a_refused_request_of_an_opening(rt: HostRuntime) -> Result<(), Fail> {
    let told = match ligature_terms(rt.alloc()) {
        Some(terms) => told_of_opening(&rt, terms),
        None => "refused before the opening",
    };
    Ok(println!(rt; "{told}")?)
}

/// Feeds a line of a and b; `None` if an allocation fails.
fn feed(alloc: Global, lane: &mut Lane<LineMaker>) -> Option<()> {
    lane.feeder.offer(line(alloc, b"ab")?).ok()
}

/// A closed lane with two lines in its first message, and one in the next; `None` if an allocation fails.
fn ready(alloc: Global) -> Option<Lane<LineMaker>> {
    let mut lane = Lane::open(alloc, LineMaker::new(ligature_terms(alloc)?), (2, 2))?;
    for _ in 0..3 {
        feed(alloc, &mut lane)?;
    }
    if lane.feeder.close(SourceEnd::Complete) {
        Some(lane)
    } else {
        None
    }
}

/// Takes this turn, again if memory was refused. Returns whether it was.
fn takes_turn<R: Abort>(rt: &R, lane: &mut Lane<LineMaker>, wanted: Turn) -> bool {
    let turn = lane.setter.turn();
    if turn == Err(OutOfMemory) {
        assert!(rt; lane.setter.turn() == Ok(wanted));
        return true;
    }
    assert!(rt; turn == Ok(wanted));
    false
}

fn takes_answer(lane: &mut Lane<LineMaker>) -> bool {
    matches!(lane.taker.take(), Took::Answer(_))
}

/// Two lines are received, set and sent in four turns, and the third one in three, with the end. The lane has
/// then three results and its end, and is finished. Returns what became of the turns.
fn told_of_turns<R: Abort>(rt: &R, lane: Lane<LineMaker>) -> &'static str {
    let mut lane = lane;
    let mut refused = 0u32;
    for number in 0..8u32 {
        let wanted = if number < 7 { Turn::Moved } else { Turn::Done };
        if takes_turn(rt, &mut lane, wanted) {
            refused = refused.wrapping_add(1);
        }
    }
    for _ in 0..3 {
        assert!(rt; takes_answer(&mut lane));
    }
    assert!(rt; matches!(lane.taker.take(), Took::End(LaneEnd::Complete)));
    assert!(rt; lane.settle().ok() == Some(LaneEnd::Complete));
    match refused {
        0 => "set",
        1 => "out of memory, and set by the next turn",
        _ => "out of memory more than once",
    }
}

#[test]
fn a_refused_request_of_a_turn(rt: HostRuntime) -> Result<(), Fail> {
    let told = match ready(rt.alloc()) {
        Some(lane) => told_of_turns(&rt, lane),
        None => "refused before the turns",
    };
    Ok(println!(rt; "{told}")?)
}
