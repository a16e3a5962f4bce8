//! The feeders of a dealer.
ghost use Rattle.std.specs.Prelude.{◌≡◌, ◌↔◌, ◌<◌, IsTrue, IfErr, None, OnOk, Some, vec_len};
ghost use Rattle.dealt_lanes.specs.Feeders.{AreClosed, HaveEnd, IsFedAt, IsReturned, SameFeeders, each_fed};

use lanes::{Feeder, OfferFault, SourceEnd, Stored};

/// Feeds an item to one feeder. No feeder may be closed.
pub(crate) fn offer_at<I: Stored>(
    feeders: &mut Vec<Feeder<I>>,
    lane: usize,
    item: I,
) -> Result<(), OfferFault<I>>
    requires lane { lane < vec_len feeders.old }
    requires ends { HaveEnd None feeders.old.items }
    ensures lanes { SameFeeders feeders.old.items feeders.new.items }
    ensures ends { HaveEnd None feeders.new.items }
    ensures fed { OnOk result (IsFedAt feeders.old.items lane item feeders.new.items) }
    ensures refused { IfErr result (λ fault. IsReturned None item fault
        × (each_fed feeders.new.items ≡ each_fed feeders.old.items)) }
{
    feeders[lane].offer(item)
}

/// Closes each feeder with this end. Returns false if no free slot was found for one of them.
pub(crate) fn close_all<I: Stored>(feeders: &mut Vec<Feeder<I>>, end: SourceEnd) -> bool
    requires { HaveEnd (Some end) feeders.old.items }
    ensures lanes { SameFeeders feeders.old.items feeders.new.items }
    ensures fed { each_fed feeders.new.items ≡ each_fed feeders.old.items }
    ensures ends { HaveEnd (Some end) feeders.new.items }
    ensures closed { IsTrue result ↔ AreClosed feeders.new.items }
{
    for lane in 0..feeders.len() {
        let _ = feeders[lane].close(end);
    }
    feeders.iter().all(|feeder| feeder.is_closed())
}
