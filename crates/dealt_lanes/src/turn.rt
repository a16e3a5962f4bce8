//! The turn of lanes.
ghost use Rattle.std.specs.Prelude.{◌≡◌, ◌<◌, ◌+◌, ◌%◌};

/// Returns the number of the lane after this one; after the last lane comes the first.
pub(crate) fn next_turn(turn: usize, lanes: usize) -> usize
    requires { turn < lanes }
    ensures value { result ≡ (turn + 1) % lanes }
    ensures below { result < lanes }
{
    (turn + 1) % lanes
}
