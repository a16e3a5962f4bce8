//! The takers of a gatherer.
ghost use Rattle.std.specs.Prelude.{◌↔◌, ◌<◌, IsTrue, vec_len};
ghost use Rattle.std.specs.List.{AllZip};
ghost use Rattle.dealt_lanes.specs.Takers.{HaveEnded, IsDrained, IsTakenAt, SameTakers};

use lanes::{Made, Stored, Taker, Took};

/// Takes the next result or the end of one lane.
pub(crate) fn take_at<O: Made + Stored>(takers: &mut Vec<Taker<O>>, lane: usize) -> Took<O>
    requires { lane < vec_len takers.old }
    ensures lanes { SameTakers takers.old.items takers.new.items }
    ensures took { IsTakenAt O.is_right takers.old.items lane result takers.new.items }
{
    takers[lane].take()
}

/// Takes up to `most` results of a lane and drops them. Returns whether there were any.
fn drop_some<O: Made + Stored>(taker: &mut Taker<O>, most: usize) -> bool
    ensures { IsDrained taker.old taker.new }
{
    for dropped in 0..most {
        match taker.take() {
            Took::Answer(_) => (),
            Took::Nothing => return dropped > 0,
            Took::End(_) => return dropped > 0,
        }
    }
    most > 0
}

/// Takes up to `most` results of each lane and drops them. Returns whether there were any.
pub(crate) fn drop_all<O: Made + Stored>(takers: &mut Vec<Taker<O>>, most: usize) -> bool
    ensures { AllZip IsDrained takers.old.items takers.new.items }
{
    let mut any = false;
    for lane in 0..takers.len() {
        any |= drop_some(&mut takers[lane], most);
    }
    any
}

/// Returns whether the end of each lane was taken.
pub(crate) fn have_ended<O: Stored>(takers: &[Taker<O>]) -> bool
    ensures { IsTrue result ↔ HaveEnded takers.now }
{
    takers.iter().all(|taker| taker.has_ended())
}
