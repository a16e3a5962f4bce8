//! Writes the items of a line.
ghost use Rattle.std.specs.Prelude.{◌≡◌, ◌≤◌, ◌<◌, drop, length, take, vec_len, IfOk, IfSome};
ghost use Rattle.line_records.specs.Cells.{Fits};
ghost use Rattle.line_records.specs.Written.{IsNext, IsSmall, IsStep, IsWhole, IsWritten};

use crate::adding::END;
use crate::line_state::LineState;
use crate::stepping::step;
use crate::table::TextTable;
use crate::text_entry::BYTES;
use set_line::Terms;
use std::alloc::AllocError;

/// The smallest number of bytes by which the room for the text of a line grows.
const LEAST: usize = 4_096;

/// A line of which nothing is written: the left boundary is current.
const START: LineState = LineState {
    row: 32,
    length: 0,
    steps: 0,
    tally: 0,
    width: 0,
};

/// Writes what the bytes of a line add, beginning with the byte at index `from`, as long as the table has the
/// cells and there is room. Returns the index of the first byte for which nothing is written, or the length
/// of the line, and how far the line is written.
#[tactic(auto, using(crate::proofs::WrittenLemmas::steps))]
fn advance(
    table: &TextTable,
    line: &[u8],
    from: usize,
    before: LineState,
    room: &mut [u8],
) -> (usize, LineState)
    requires short { length line.now ≤ 65535 }
    requires from { from ≤ length line.now }
    requires small { IsSmall from before }
    requires room { before.length ≤ length room.old }
    ensures reached { (from ≤ result.0) × (result.0 ≤ length line.now) }
    ensures small { IsSmall result.0 result.1 }
    ensures room { length room.new ≡ length room.old }
    ensures within { result.1.length ≤ length room.new }
    ensures written { IsWritten table.now line.now (drop from line.now) room.old before
        → IsWritten table.now line.now (drop result.0 line.now) room.new result.1 }
{
    let cells = table.cells.as_slice();
    let entries = table.entries.as_slice();
    let mut so_far = before;
    for at in from..line.len() {
        match step(cells, entries, usize::from(line[at]), so_far, room) {
            Some(after) => so_far = after,
            None => return (at, so_far),
        }
    }
    (line.len(), so_far)
}

/// Makes room for the text of another step after the first `length` bytes, which are kept.
fn make_room(room: &mut Vec<u8>, length: usize) -> Result<(), AllocError>
    requires { length ≤ vec_len room.old }
    ensures kept { take length room.new.items ≡ take length room.old.items }
    ensures room { length ≤ vec_len room.new }
{
    if room.len() - length >= BYTES {
        return Ok(());
    }
    let more = room.len().saturating_add(LEAST).saturating_add(room.len());
    room.resize(more, 0)
}

/// Makes a step, and before it the cell and the room that it needs. Returns `None` if the line has to be set
/// in the general way.
#[tactic(auto, using(crate::proofs::WrittenLemmas::steps))]
fn step_anew(
    table: &mut TextTable,
    terms: &Terms,
    next: usize,
    before: LineState,
    room: &mut Vec<u8>,
) -> Option<LineState>
    requires fits { Fits table.old terms.now }
    requires next { next < 257 }
    requires room { before.length ≤ vec_len room.old }
    requires small { IsSmall 65535 before }
    ensures table { table.new ≡ table.old }
    ensures step { IfSome result (IsStep table.old before next room.old.items room.new.items) }
    ensures within { IfSome result (λ after. after.length ≤ vec_len room.new) }
    ensures next { IfSome result (IsNext before) }
{
    table.make(terms, before.row, next);
    if make_room(room, before.length).is_err() {
        return None;
    }
    step(
        table.cells.as_slice(),
        table.entries.as_slice(),
        next,
        before,
        room.as_mut_slice(),
    )
}

/// Writes the texts of the items of a line to `room`. The error means that the line has to be set in the
/// general way, or is refused: it is the index of a byte, or the length of the line, for which nothing is
/// written.
#[tactic(auto, using(crate::proofs::WrittenLemmas::steps))]
pub(crate) fn write_line(
    table: &mut TextTable,
    terms: &Terms,
    line: &[u8],
    room: &mut Vec<u8>,
) -> Result<LineState, usize>
    requires fits { Fits table.old terms.now }
    requires short { length line.now ≤ 65535 }
    ensures table { table.new ≡ table.old }
    ensures whole { IfOk result (IsWhole table.old line.now room.new.items) }
    ensures within { IfOk result (λ whole. whole.length ≤ vec_len room.new) }
{
    let mut at = 0;
    let mut so_far = START;
    while at < line.len() {
        let (reached, after) = advance(table, line, at, so_far, room.as_mut_slice());
        at = reached;
        so_far = after;
        if at < line.len() {
            let Some(next) = step_anew(table, terms, usize::from(line[at]), so_far, room) else {
                return Err(at);
            };
            so_far = next;
            at += 1;
        }
    }
    match step_anew(table, terms, END, so_far, room) {
        Some(whole) => Ok(whole),
        None => Err(at),
    }
}
