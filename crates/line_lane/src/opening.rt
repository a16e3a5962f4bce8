//! Opens a lane of lines.
ghost use Rattle.std.specs.Prelude.{◌≡◌, [], None, IfOk, min};
ghost use Rattle.std.specs.Arc.{arc_value};
ghost use Rattle.set_line.specs.Answer.{answer_of};
ghost use Rattle.lanes.specs.Turns.{fresh};
ghost use Rattle.lanes.specs.Takes.{empty_handed};
ghost use Rattle.lanes.specs.Ends.{IsLane, block_of, fed, feeder_end, hands_of, open_lines, state_of};

use crate::{Block, Capacity, Feeder, LineMaker, Setter, Taker};
use set_line::{OutOfMemory, Terms};
use std::alloc::Global;
use std::sync::Arc;

/// Opens a lane of lines with these settings: two rings with `capacity` slots each, and blocks of `block` lines.
/// Memory is allocated for the rings only. The error means that an allocation failed.
pub fn open(
    alloc: Global,
    terms: Arc<Terms>,
    capacity: Capacity,
    block: Block,
) -> Result<(Feeder, Setter, Taker), OutOfMemory>
    ensures lane { IfOk result (λ ends. IsLane ends.0 ends.1 ends.2) }
    ensures feeder { IfOk result (λ ends. (fed ends.0 ≡ []) × (open_lines ends.0 ≡ [])
        × (feeder_end ends.0 ≡ None) × (block_of ends.0 ≡ min block 8)) }
    ensures setter { IfOk result (λ ends. state_of ends.1 ≡ fresh (answer_of (arc_value terms))) }
    ensures taker { IfOk result (λ ends. hands_of ends.2 ≡ empty_handed) }
{
    lanes::open(alloc, LineMaker::new(terms), capacity, block)
}
