//! The thread of a source: it reads the items of the source and deals them over its lanes.
ghost use Rattle.std.specs.Prelude.{◌≡◌, ◌++◌, ◌∷◌, [], None, Some, IfErr, OnOk, if◌then◌else◌};
ghost use Rattle.dealt_lanes.specs.Dealt.{SameDealer, dealer_end, dealt};
ghost use Rattle.lanes.specs.Messages.{first_end};
ghost use Rattle.batch.specs.Calls.{IsFedFrom};
ghost use Rattle.batch.specs.Given.{HandsBack, item_of};

use crate::threads::backoff::Backoff;
use crate::threads::signals::Signals;
use crate::{Gate, ItemSource, Stage};
use dealt_lanes::Dealer;
use lanes::{OfferFault, SourceEnd, Stored};
use std::snapshot::Snapshot;
use std::sync::Wait;
use std::thread::Promise;

/// A source with the dealer of its lanes.
#[derive(Drop)]
pub(crate) struct Feeding<S, I: Stored> {
    pub source: S,
    pub dealer: Dealer<I>,
}

/// The promise of the thread of a source, with the source and the dealer as they were when the thread
/// started.
#[derive(Drop)]
pub(crate) struct FedFrom<S, I: Stored>(pub Snapshot<Feeding<S, I>>);

impl<I: Stored, S: ItemSource<I>> Promise<Feeding<S, I>> for FedFrom<S, I> {
    ghost kept_by = { λ p r. HandsBack S.next_gives S.origin p.0.value r };
}

/// Deals an item, as soon as there is room for it. Returns false, with the item dropped, if the batch is
/// stopped before or the dealer is closed.
fn offer<R: Wait, I: Stored>(
    rt: &R,
    signals: &Signals,
    number: usize,
    dealer: &mut Dealer<I>,
    item: I,
) -> bool
    ensures lane { SameDealer dealer.old dealer.new }
    ensures end { dealer_end dealer.new ≡ dealer_end dealer.old }
    ensures fed { dealt dealer.new ≡ (if result then dealt dealer.old ++ item ∷ [] else dealt dealer.old) }
{
    let mut item = item;
    let mut backoff = Backoff::new();
    for _ in rt.forever() {
        match dealer.offer(item) {
            Ok(()) => return true,
            Err(OfferFault::NoRoom(back)) => item = back,
            Err(OfferFault::Closed(_)) => return false,
        }
        if signals.is_stopped() {
            return false;
        }
        signals.wait_as_source(rt, number, &mut backoff);
    }
    unreachable!()
}

/// Closes the dealer, as soon as there is room for the end. Returns false if the batch is stopped before.
fn close<R: Wait, I: Stored>(
    rt: &R,
    signals: &Signals,
    number: usize,
    dealer: &mut Dealer<I>,
    end: SourceEnd,
) -> bool
    ensures lane { SameDealer dealer.old dealer.new }
    ensures fed { dealt dealer.new ≡ dealt dealer.old }
    ensures end { dealer_end dealer.new ≡ first_end (dealer_end dealer.old) (Some end) }
{
    let mut backoff = Backoff::new();
    for _ in rt.forever() {
        if dealer.close(end) {
            return true;
        }
        if signals.is_stopped() {
            return false;
        }
        signals.wait_as_source(rt, number, &mut backoff);
    }
    unreachable!()
}

/// Wakes the workers of the source if enough items were fed since the last wake-up, or if some were and the
/// source isn't ready. Returns the number of items since the last wake-up, with the next item.
fn wake_if_due(signals: &Signals, number: usize, unannounced: usize, is_ready: bool) -> usize {
    if unannounced >= signals.lines_before_wake() || unannounced > 0 && !is_ready {
        signals.lines_fed(number);
        1
    } else {
        unannounced.saturating_add(1)
    }
}

/// Reads the items of a source and deals them, each before the next one is read. Returns how the source
/// ended, or `None` if the batch is stopped before or the dealer is closed.
fn feed_items<R: Wait, I: Stored, S: ItemSource<I>>(
    rt: &R,
    signals: &Signals,
    number: usize,
    source: &mut S,
    dealer: &mut Dealer<I>,
) -> Option<SourceEnd>
    ensures lane { SameDealer dealer.old dealer.new }
    ensures open { dealer_end dealer.new ≡ dealer_end dealer.old }
    ensures fed { dealt dealer.old ≡ []
        → IsFedFrom S.next_gives result (dealt dealer.new) source.old source.new }
    ensures origin { S.origin source.new ≡ S.origin source.old }
{
    let mut unannounced = 0;
    for _ in rt.forever() {
        if signals.is_stopped() {
            return None;
        }
        unannounced = wake_if_due(signals, number, unannounced, source.is_ready());
        match source.next_item() {
            Ok(Some(item)) => {
                if !offer(rt, signals, number, dealer, item) {
                    return None;
                }
            }
            Ok(None) => return Some(SourceEnd::Complete),
            Err(fault) => return Some(SourceEnd::Failed(fault)),
        }
    }
    unreachable!()
}

/// Waits until the batch has started, or is stopped because a thread couldn't be started. A read can't be
/// stopped: if it were made before, the batch would end only after it.
fn await_start<R: Wait>(rt: &R, signals: &Signals, number: usize) {
    let mut backoff = Backoff::new();
    for _ in rt.forever() {
        if signals.is_started_or_stopped() {
            return;
        }
        signals.wait_for_start(rt, number, &mut backoff);
    }
}

/// Does the work of a source's thread: passes the start barrier, waits until the batch has started, deals the
/// items of the source, and closes the dealer with the end of the source, unless the batch is stopped before.
pub(crate) fn feed<R: Wait, I: Stored, S: ItemSource<I>, G: Gate>(
    rt: &R,
    gate: &G,
    signals: &Signals,
    number: usize,
    feeding: Feeding<S, I>,
) -> Feeding<S, I>
    ensures { HandsBack S.next_gives S.origin feeding result }
{
    gate.enter(Stage::Source, number);
    let Feeding {
        mut source,
        mut dealer,
    } = feeding;
    await_start(rt, signals, number);
    if let Some(end) = feed_items(rt, signals, number, &mut source, &mut dealer) {
        let _ = close(rt, signals, number, &mut dealer, end);
    }
    signals.lines_fed(number);
    Feeding { source, dealer }
}
