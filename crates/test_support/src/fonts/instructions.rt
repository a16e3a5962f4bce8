//! Instructions by what they do.
use tfm_tables::Step;

/// Before a code, a kern; and the search goes on with the next instruction.
pub fn kern_before(next: u8, index: u8) -> Step {
    Step {
        skip: 0,
        next,
        op: 128,
        remainder: index,
    }
}

/// Before a code, a kern whose number may be above 255: the operation has its high byte after 128.
/// Numbers above 32,767 have no instruction, and are taken less 32,768.
pub fn far_kern_before(next: u8, index: u16) -> Step {
    let [high, low] = index.to_be_bytes();
    Step {
        op: 128 | high,
        ..kern_before(next, low)
    }
}

/// Before a code, a ligature operation that inserts a character; and the search goes on.
pub fn ligature_before(next: u8, op: u8, inserted: u8) -> Step {
    Step {
        skip: 0,
        next,
        op,
        remainder: inserted,
    }
}

/// The same instruction, but the search ends with it.
pub fn last(step: Step) -> Step {
    Step { skip: 128, ..step }
}

/// As the first instruction, the right boundary character is this; as the last one, the left
/// boundary's program begins at this address.
pub fn boundary(right: u8, address: u8) -> Step {
    Step {
        skip: 255,
        next: right,
        op: 0,
        remainder: address,
    }
}

/// For a program that begins here: it begins at this address. For a search that comes by: the end,
/// whatever the code.
pub fn go_to(next: u8, address: u8) -> Step {
    Step {
        skip: 200,
        next,
        op: 0,
        remainder: address,
    }
}
