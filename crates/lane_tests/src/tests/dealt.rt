//! Three lanes for one source, call by call.
use super::lane::{Named, is_offered, is_taken, turn_of};
use super::numbers::{Number, Same};
use dealt_lanes::{Dealer, Gatherer, open_shared};
use lanes::{Setter, SourceEnd};
use std::alloc::Global;
use test_support::sizes;

/// The endpoints of three lanes of numbers.
#[derive(Drop)]
struct Lanes {
    dealer: Dealer<Number>,
    setters: Vec<Setter<Same>>,
    gatherer: Gatherer<Number>,
}

impl Lanes {
    /// A turn of the setter with this number. The setter abandons its lane if the turn fails.
    fn turn(&mut self, number: usize, wanted: &str) -> Option<bool> {
        let setter = self.setters.get_mut(number)?;
        let turn = setter.turn().ok();
        if turn.is_none() {
            setter.give_up();
        }
        Some(turn == turn_of(wanted))
    }

    /// Makes a call. Returns whether its return value is this one; `None` if there is no such call.
    ///
    /// The call is `a`, `b` or `c`, a turn of this lane, which may return `fails`; or `close`, `take`, `drop`, which
    /// drops up to eight results of each lane, or `ended`; or a number that is offered.
    fn call(&mut self, alloc: Global, call: &str, wanted: &str) -> Option<bool> {
        Some(match call {
            "a" => self.turn(0, wanted)?,
            "b" => self.turn(1, wanted)?,
            "c" => self.turn(2, wanted)?,
            "close" => self.dealer.close(SourceEnd::Complete) == (wanted == "true"),
            "take" => is_taken::<Same>(self.gatherer.take(), wanted),
            "drop" => self.gatherer.drop_rest(8) == (wanted == "true"),
            "ended" => self.gatherer.have_ended() == (wanted == "true"),
            _ => {
                let item = Same::item(alloc, call)?;
                is_offered::<Same>(self.dealer.offer(item), call, wanted)
            }
        })
    }
}

/// The number of slots of each ring, and the calls in order, each with its return value.
static SCRIPTS: [(usize, &str); 2] = table! {
    // The dealer is closed while lane b alone has room for the end.
    1, "1: fed, 2: fed, 3: fed, 4: no room, b: moved, close: false, 4: closed, b: moved, b: moved, b: moved, b: blocked, \
        a: moved, c: moved, close: true, take: nothing, a: moved, a: moved, take: 1, take: 2, take: nothing, a: moved, \
        a: moved, a: done, b: moved, b: done, c: moved, c: moved, c: moved, c: blocked, take: 3, c: moved, c: done, \
        take: complete, ended: false, drop: false, ended: true";
    // Lane a is abandoned. Each other lane has two results in its ring and waits with the third one, up to `drop`.
    2, "13: fed, 1: fed, 2: fed, 3: fed, 4: fed, 5: fed, 6: no room, a: moved, a: fails, a: moved, a: moved, a: idle, \
        b: moved, b: moved, b: moved, b: moved, b: moved, b: moved, b: idle, c: moved, c: moved, c: moved, c: moved, \
        c: moved, c: moved, c: idle, 6: fed, 7: fed, 8: fed, b: moved, b: moved, b: blocked, c: moved, c: moved, \
        c: blocked, drop: false, take: gave up, take: gave up, drop: true, drop: false, ended: false, b: moved, c: moved, \
        close: true, a: moved, a: moved, a: done, b: moved, b: moved, b: done, c: moved, c: moved, c: done, \
        ended: false, drop: true, ended: true, drop: false";
};

// Mutants: `drop_rest` drops one result of a lane, or those of the first lane; `close` gives up after the first lane.
#[test]
fn three_lanes_call_by_call(rt: HostRuntime) {
    for (capacity, calls) in &SCRIPTS {
        let (capacity, block) = sizes(*capacity, 1).expect(&rt, "sizes in range");
        let ends = open_shared(rt.alloc(), Same, 3, capacity, block);
        let (dealer, setters, gatherer) = ends.expect(&rt, "memory");
        let mut lanes = Lanes {
            dealer,
            setters,
            gatherer,
        };
        for (number, call) in calls.split(", ").enumerate() {
            let (call, wanted) = call.split_once(": ").unwrap_or((call, ""));
            let is_so = lanes.call(rt.alloc(), call, wanted).expect(&rt, "a call");
            assert!(&rt; is_so, "call {number} of {calls}");
        }
    }
}
