//! Opens a lane.
ghost use Rattle.std.specs.Prelude.{◌≡◌, [], None, IfOk, min};
ghost use Rattle.lanes.specs.Turns.{fresh};
ghost use Rattle.lanes.specs.Takes.{empty_handed};
ghost use Rattle.lanes.specs.Ends.{IsLane, block_of, fed, feeder_end, hands_of, open_lines, state_of};

use crate::block_size::BlockSize;
use crate::message::Filled;
use crate::receiver::Receiver;
use crate::sender::Sender;
use crate::{Block, Capacity, Feeder, Making, Setter, Taker};
use rtrb::RingBuffer;
use run_plan::OutOfMemory;
use std::alloc::Global;

/// Opens a lane with this maker: two rings with `capacity` slots each, and blocks of `block` items, or of as
/// many as a message has slots if these are fewer.
/// Memory is allocated for the rings only. The error means that an allocation failed.
pub fn open<M: Making>(
    alloc: Global,
    maker: M,
    capacity: Capacity,
    block: Block,
) -> Result<(Feeder<M::In>, Setter<M>, Taker<M::Out>), OutOfMemory>
    ensures lane { IfOk result (λ ends. IsLane ends.0 ends.1 ends.2) }
    ensures feeder { IfOk result (λ ends. (fed ends.0 ≡ []) × (open_lines ends.0 ≡ [])
        × (feeder_end ends.0 ≡ None) × (block_of ends.0 ≡ min block M.In.Slots.SLOTS)) }
    ensures setter { IfOk result (λ ends. state_of ends.1 ≡ fresh (M.makes maker)) }
    ensures taker { IfOk result (λ ends. hands_of ends.2 ≡ empty_handed) }
{
    let places = capacity.get();
    let (lines_in, lines_out) = RingBuffer::with_protocol::<Global, Filled>(alloc, places)?;
    let (answers_in, answers_out) = RingBuffer::with_protocol::<Global, Filled>(alloc, places)?;
    let feeder = Feeder {
        sender: Sender::new(alloc, lines_in),
        block: BlockSize::new(block),
    };
    let setter = Setter {
        maker,
        receiver: Receiver::new(alloc, lines_out),
        sender: Sender::new(alloc, answers_in),
        ready: false,
    };
    let taker = Taker {
        receiver: Receiver::new(alloc, answers_out),
        ended: false,
    };
    Ok((feeder, setter, taker))
}
