//! Lanes call by call, each return value compared.
ghost use Rattle.std.specs.Prelude.{◌≡◌, ◌∷◌, ◌++◌, []};

use super::lane::{Lane, Named, end_of};
use super::numbers::Same;
use lanes::Made;
use line_lane::LineMaker;
use set_line::{Answer, Line, LineRefusal, Outcome};
use std::alloc::Global;
use std::process::Abort;
use test_support::line;
use test_support::terms::plain_terms;

/// The lines that are fed: the width in the font `plain`, or the code of the character that it lacks.
static LINES: [(&str, i64); 5] = table! {
    "a", 327_680; "b", 163_840; "c", 491_520; "d", 100; "e", 101;
};

impl Named for LineMaker {
    fn item(alloc: Global, name: &str) -> Option<Line> {
        line(alloc, name.as_bytes())
    }

    fn is_item(item: &Line, name: &str) -> bool {
        item.bytes() == name.as_bytes()
    }

    fn is_result(made: &Answer, name: &str) -> bool {
        let number = match made.outcome() {
            Outcome::Set { width, .. } => *width,
            Outcome::Refused(LineRefusal::Missing { offset: 0, code }) => i64::from(*code),
            Outcome::Refused(_) => 0,
        };
        made.line().bytes() == name.as_bytes() && LINES.contains(&(name, number))
    }
}

/// The number of slots and the block of a lane; and its calls in order, each with its return value.
type Script = (usize, usize, &'static str);

/// Messages of one line, and then these calls.
macro_rules! one_line_a_message {
    ($last:literal) => {
        concat!(
            "a: fed, b: no room, moved, b: fed, close: false, moved, moved, moved, close: true, c: closed, moved, \
             blocked, take: a, moved, take: b, take: nothing, moved, moved, done, ",
            $last
        )
    };
}

/// Lanes of lines.
static LINE_SCRIPTS: [Script; 7] = table! {
    1, 1, one_line_a_message!("take: complete, settle: complete");
    // If the setter is done, giving up changes nothing.
    1, 1, one_line_a_message!("give up, done, take: complete, settle: complete");
    // Three lines in one message, with the end.
    1, 8, "a: fed, b: fed, c: fed, close: true, moved, moved, moved, moved, moved, done, settle: open, take: a, take: b, \
        take: c, take: complete, take: complete, flush: true, settle: complete";
    // Messages that are flushed before they have four lines.
    1, 4, "a: fed, flush: true, b: fed, flush: false, c: fed, d: fed, e: no room, moved, flush: true, e: fed, \
        close: false, moved, moved, moved, close: true, moved, moved, moved, blocked, take: a, moved, moved, moved, \
        blocked, take: b, take: c, take: d, moved, done, take: e, take: complete, settle: complete";
    // The lane is abandoned in the middle; at its beginning, twice.
    4, 1, "a: fed, b: fed, moved, moved, give up, moved, moved, idle, close: true, moved, done, take: a, take: gave up, \
        settle: gave up";
    1, 1, "give up, give up, moved, take: gave up, a: fed, moved, close: true, moved, done, settle: gave up";
    // The source failed: the feeder keeps its first end.
    2, 1, "fail: true, close: true, moved, moved, done, take: read, settle: read";
};

/// Lanes of numbers. A block of eight has one item, since a message has one slot. A large item is sent only if the
/// ring is empty: a quarter of two slots is less than one.
static NUMBER_SCRIPTS: [Script; 2] = table! {
    2, 8, "1: fed, 2: fed, 3: no room, moved, 3: fed, close: false, moved, moved, moved, close: true, moved, moved, \
        moved, moved, blocked, take: 1, take: 2, take: nothing, moved, moved, moved, done, take: 3, take: complete, \
        settle: complete";
    2, 8, "100: fed, 101: no room, 5: fed, moved, moved, moved, 101: no room, moved, 101: fed, moved, moved, moved, \
        close: true, moved, take: 100, blocked, take: 5, take: nothing, moved, moved, moved, done, take: 101, \
        take: complete, settle: complete";
};

/// These calls of a lane have these return values. Returns the lane, unless the last call has settled it.
fn goes_on<R: Abort + AllocGlobal, M: Named>(rt: &R, lane: Lane<M>, calls: &str) -> Option<Lane<M>>
where
    M::Out: Made,
{
    let mut lane = lane;
    for (number, call) in calls.split(", ").enumerate() {
        let (call, wanted) = call.split_once(": ").unwrap_or((call, ""));
        if call == "settle" {
            match lane.settle() {
                Ok(end) => {
                    assert!(rt; Some(end) == end_of(wanted), "the end of {calls}");
                    return None;
                }
                Err(back) => lane = back,
            }
        } else {
            let is_so = lane.call(rt.alloc(), call, wanted).expect(rt, "memory");
            assert!(rt; is_so, "call {number} of {calls}");
        }
    }
    Some(lane)
}

/// The calls of a lane with this maker have these return values, and settle it.
fn plays<R: Abort + AllocGlobal, M: Named>(rt: &R, maker: M, (capacity, block, calls): Script)
where
    M::Out: Made,
{
    let lane = Lane::open(rt.alloc(), maker, (capacity, block)).expect(rt, "memory");
    assert!(rt; goes_on(rt, lane, calls).is_none(), "no end of {calls}");
}

#[test]
fn a_lane_call_by_call(rt: HostRuntime) {
    for script in &LINE_SCRIPTS {
        let terms = plain_terms(rt.alloc()).expect(&rt, "memory");
        plays(&rt, LineMaker::new(terms), *script);
    }
    for script in &NUMBER_SCRIPTS {
        plays(&rt, Same, *script);
    }
}

/// The calls of two lanes, before the endpoints of both are in lists, and then.
static TWO_LANES: [(&str, &str); 2] = table! {
    "a: fed, b: fed, moved, moved, moved",
    "close: true, moved, moved, moved, moved, moved, done, take: a, take: b, take: complete, settle: complete";
    "c: fed, moved, moved",
    "settle: open, d: fed, fail: true, moved, moved, moved, moved, moved, moved, done, take: c, take: d, take: read, \
        settle: read";
};

/// A lane of lines, after these calls.
fn begun<R: Abort + AllocGlobal>(rt: &R, calls: &str) -> Lane<LineMaker> {
    let terms = plain_terms(rt.alloc()).expect(rt, "memory");
    let lane = Lane::open(rt.alloc(), LineMaker::new(terms), (4, 1)).expect(rt, "memory");
    goes_on(rt, lane, calls).expect(rt, "a lane that isn't settled")
}

/// A list of two values.
fn both<R: Abort + AllocGlobal, T: Drop>(rt: &R, first: T, second: T) -> Vec<T>
    ensures { result.items ≡ first ∷ second ∷ [] }
{
    let mut both = Vec::new(rt.alloc());
    both.push(first).expect(rt, "memory");
    both.push(second).expect(rt, "memory");
    both
}

/// Removes the last value of a list.
fn last<R: Abort, T: Drop>(rt: &R, list: &mut Vec<T>) -> T
    ensures { list.old.items ≡ list.new.items ++ result ∷ [] }
{
    list.pop().expect(rt, "a value")
}

/// A caller may keep the endpoints of lanes in lists. The second lane is settled first.
#[test]
fn two_lanes_in_lists(rt: HostRuntime) {
    let [(first, first_rest), (second, second_rest)] = TWO_LANES;
    let (first, second) = (begun(&rt, first), begun(&rt, second));
    let mut feeders = both(&rt, first.feeder, second.feeder);
    let mut setters = both(&rt, first.setter, second.setter);
    let mut takers = both(&rt, first.taker, second.taker);
    let lane = Lane {
        feeder: last(&rt, &mut feeders),
        setter: last(&rt, &mut setters),
        taker: last(&rt, &mut takers),
    };
    assert!(&rt; goes_on(&rt, lane, second_rest).is_none());
    let lane = Lane {
        feeder: last(&rt, &mut feeders),
        setter: last(&rt, &mut setters),
        taker: last(&rt, &mut takers),
    };
    assert!(&rt; goes_on(&rt, lane, first_rest).is_none());
}
