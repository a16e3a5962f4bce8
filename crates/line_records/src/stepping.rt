//! Writes what a byte adds, with the table of texts.
ghost use Rattle.std.specs.Prelude.{◌≡◌, ◌≤◌, ◌<◌, length, IfSome, IsNone};
ghost use Rattle.line_records.specs.Cells.{AreCells, Style};
ghost use Rattle.line_records.specs.Written.{IsNext, IsSmall, IsStep};

use crate::cells::LIGATURE;
use crate::line_state::LineState;
use crate::text_entry::{BYTES, TextEntry};

/// Copies bytes to a slice of the same length.
fn put(place: &mut [u8], bytes: &[u8; BYTES])
    requires { length place.old ≡ 32 }
    ensures { place.new ≡ bytes.now }
{
    match place.as_mut_array() {
        Some(place) => *place = *bytes,
        None => unreachable!(),
    }
}

/// Writes the text of what a byte, or the end of the line, adds to `room`, after the bytes that are written.
/// A text of any length is copied as 32 bytes. Returns `None`, with `room` unchanged, if the cell isn't made,
/// if it is one for the general way, or if `room` has no 32 bytes left.
pub(crate) fn step(
    cells: &[u16],
    entries: &[TextEntry],
    next: usize,
    before: LineState,
    room: &mut [u8],
) -> Option<LineState>
    requires cells { length cells.now ≡ 65792 }
    requires next { next < 257 }
    requires room { before.length ≤ length room.old }
    requires small { IsSmall 65535 before }
    ensures step { (style : Style) → AreCells style entries.now cells.now
        → IfSome result (IsStep style before next room.old room.new) }
    ensures room { length room.new ≡ length room.old }
    ensures unchanged { IsNone result → room.new ≡ room.old }
    ensures within { IfSome result (λ after. after.length ≤ length room.new) }
    ensures next { IfSome result (IsNext before) }
{
    let cell = usize::from(cells[256 * next + before.row]);
    if cell < entries.len() {
        if room.len() < BYTES || before.length > room.len() - BYTES {
            return None;
        }
        let entry = &entries[cell];
        let end = before.length + BYTES;
        put(&mut room[before.length..end], &entry.text);
        return Some(LineState {
            row: next % 256,
            length: before.length + entry.length,
            steps: before.steps + entry.steps,
            tally: before.tally + entry.tally,
            width: before.width + entry.width,
        });
    }
    if cell < LIGATURE {
        return None;
    }
    Some(LineState {
        row: cell - LIGATURE,
        length: before.length,
        steps: before.steps + 1,
        tally: before.tally,
        width: before.width,
    })
}
