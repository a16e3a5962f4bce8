//! The summary of a batch.
ghost use Rattle.std.specs.Prelude.{◌≡◌, ℕ, false, map, min, ◌-◌, ◌^◌, Option, sum_by};
ghost use Rattle.std.specs.List.{list_any};
ghost use Rattle.std.specs.Option.{option_map_or};
ghost use Rattle.lanes.specs.declared.ending.LaneEnd.{LaneEnd as End};
ghost use Rattle.run_texts.specs.ReportText.{is_unread, is_wanting, summary_of_ends};

use crate::Summary;
use crate::record_count::RefusedCount;
use batch::ClosedLane;
use lanes::{LaneEnd, SourceFault};
use set_run::LaneReport;

/// Returns the number of refused lines of all lanes, or 2^64 - 1 if it is larger.
pub(crate) fn all_refused<C: RefusedCount>(lanes: &[C]) -> u64
    ensures { result ≡ min (2 ^ 64 - 1) (sum_by C.refused lanes.now) }
{
    let mut count: u64 = 0;
    for lane in lanes {
        count = count.saturating_add(lane.refused());
    }
    count
}

/// A lane with its end, if it has one.
pub(crate) trait EndedLane {
    /// The end.
    ghost ended: { Self → Option End };

    /// Returns the end.
    fn ended(&self) -> Option<LaneEnd>
        ensures { result ≡ ended self.now };
}

impl<S> EndedLane for ClosedLane<S> {
    ghost ended = { λ lane. lane.end };

    fn ended(&self) -> Option<LaneEnd> {
        self.end
    }
}

impl<S> EndedLane for LaneReport<S> {
    ghost use Rattle.std.specs.Prelude.{Some};

    ghost ended = { λ lane. Some lane.end };

    fn ended(&self) -> Option<LaneEnd> {
        Some(self.end)
    }
}

/// Returns whether a read of some source failed, or a line needed too many reads.
fn any_unread<L: EndedLane>(lanes: &[L]) -> bool
    ensures { result ≡ list_any (λ lane. option_map_or is_unread (L.ended lane) false) lanes.now }
{
    let mut some = false;
    for lane in lanes {
        some |= matches!(
            lane.ended(),
            Some(LaneEnd::SourceFailed(SourceFault::Read | SourceFault::ReadBound))
        );
    }
    some
}

/// Returns whether some lane ended because an allocation failed.
fn any_out_of_memory<L: EndedLane>(lanes: &[L]) -> bool
    ensures { result ≡ list_any (λ lane. option_map_or is_wanting (L.ended lane) false) lanes.now }
{
    let mut some = false;
    for lane in lanes {
        some |= matches!(
            lane.ended(),
            Some(LaneEnd::GaveUp | LaneEnd::SourceFailed(SourceFault::OutOfMemory))
        );
    }
    some
}

/// Returns the summary of a batch with this many refused lines and these lanes.
pub(crate) fn summary_of<L: EndedLane>(refused: u64, lanes: &[L]) -> Summary
    ensures { (lines : ℕ) → refused ≡ min (2 ^ 64 - 1) lines
        → result ≡ summary_of_ends lines (map L.ended lanes.now) }
{
    Summary {
        refused,
        read_failed: any_unread(lanes),
        memory: any_out_of_memory(lanes),
    }
}
