//! The three endpoints of a lane in three threads.
ghost use Rattle.lanes.specs.Ends.{SameFeeder, SameSetter, SameTaker};

use line_lane::{Feeder, LaneEnd, OfferFault, Setter, SourceEnd, Taker, Took, Turn, open, settle};
use set_line::{Answer, Line, OutOfMemory};
use std::alloc::Global;
use std::process::Abort;
use std::sync::Wait;
use std::thread;
use std::thread::Threads;
use test_support::sizes;
use test_support::terms::plain_terms;

/// The line of this number: ten letters, one for each bit.
fn numbered<R: Abort + AllocGlobal>(rt: &R, number: u32) -> Line {
    let mut bytes = Vec::new(rt.alloc());
    for bit in 0..10u32 {
        let letter = if number >> bit & 1 == 0 { b'a' } else { b'b' };
        bytes.push(letter).expect(rt, "memory");
    }
    Line::new(bytes)
}

/// Feeds the lines in order, each as soon as there is room, and closes the feeder.
fn feed_all<R: Wait>(rt: &R, feeder: Feeder, lines: Vec<Line>) -> Feeder
    ensures { SameFeeder feeder result }
{
    let mut feeder = feeder;
    let mut lines = lines.into_iter();
    let mut next = lines.next();
    for _ in rt.forever() {
        next = match next {
            Some(line) => match feeder.offer(line) {
                Ok(()) => lines.next(),
                Err(OfferFault::NoRoom(back)) => Some(back),
                Err(OfferFault::Closed(_)) => return feeder,
            },
            None => {
                if feeder.close(SourceEnd::Complete) {
                    return feeder;
                }
                None
            }
        };
        thread::yield_now();
    }
    unreachable!()
}

/// Sets lines until none is left to come.
fn set_all<R: Wait + Abort>(rt: &R, setter: Setter) -> Setter
    ensures { SameSetter setter result }
{
    let mut setter = setter;
    for _ in rt.forever() {
        match setter.turn() {
            Ok(Turn::Done) => return setter,
            Ok(Turn::Moved) => (),
            Ok(Turn::Idle | Turn::Blocked) => thread::yield_now(),
            Err(OutOfMemory) => panic!(rt; "out of memory"),
        }
    }
    unreachable!()
}

/// Takes the answers, up to the end.
fn take_all<R: Wait + Abort>(rt: &R, alloc: Global, taker: Taker) -> (Taker, Vec<Answer>)
    ensures { SameTaker taker result.0 }
{
    let mut taker = taker;
    let mut answers = Vec::new(alloc);
    for _ in rt.forever() {
        match taker.take() {
            Took::Nothing => thread::yield_now(),
            Took::Answer(answer) => answers.push(answer).expect(rt, "memory"),
            Took::End(_) => return (taker, answers),
        }
    }
    unreachable!()
}

/// These lines go through a lane of this capacity and block, which is settled when the three threads have
/// returned. Returns the answers.
fn go_through<R: Threads + Wait + Abort + AllocGlobal + Sync>(
    rt: &R,
    (capacity, block): (usize, usize),
    lines: Vec<Line>,
) -> Vec<Answer> {
    let alloc = rt.alloc();
    let (capacity, block) = sizes(capacity, block).expect(rt, "sizes in range");
    let terms = plain_terms(alloc).expect(rt, "memory");
    let (feeder, setter, taker) = open(alloc, terms, capacity, block).expect(rt, "memory");
    let setting = move || -> Setter
        ensures { SameSetter setter result }
    { set_all(rt, setter) };
    let taking = move || -> (Taker, Vec<Answer>)
        ensures { SameTaker taker result.0 }
    { take_all(rt, alloc, taker) };
    let (feeder, (setter, (taker, answers))) = thread::join(
        rt,
        move || -> Feeder
            ensures { SameFeeder feeder result }
        { feed_all(rt, feeder, lines) },
        move || thread::join(rt, setting, taking),
    );
    assert!(rt; settle(feeder, setter, taker).ok() == Some(LaneEnd::Complete));
    answers
}

#[test]
fn a_thousand_lines_through_three_threads(rt: HostRuntime) {
    for sizes in [(2, 1), (16, 8)] {
        let mut lines = Vec::new(rt.alloc());
        for number in 0..1_000u32 {
            lines.push(numbered(&rt, number)).expect(&rt, "memory");
        }
        let answers = go_through(&rt, sizes, lines);
        assert!(&rt; answers.len() == 1_000);
        for (number, answer) in answers.iter().enumerate() {
            let line = numbered(&rt, number as u32);
            assert!(&rt; answer.line().bytes() == line.bytes(), "line {number}");
        }
    }
}
