//! The end of a call that fills an array of results, and one of their items.
ghost use Rattle.std.specs.Prelude.{◌≡◌, ◌⊎◌, IfOk, List};
ghost use Rattle.tfmset_c.specs.Filling.{AreFilled, AreTold};
ghost use Rattle.tfmset_c.specs.declared.lines.TfmsetLine.{TfmsetLine as Line};

use crate::arrays::{DONE, NO_ROOM, has_room};
use crate::lines::{TfmsetCounts, TfmsetLine};
use crate::reading::MEMORY;
use set_line::OutOfMemory;

/// Reports the numbers of results and items that were written into arrays, or had no room there. Returns: 0 after
/// success; 2 if an allocation failed, with `counts` unchanged; 3 if an array is too short.
pub fn tell<T>(
    filled: Result<(TfmsetCounts, usize), OutOfMemory>,
    with_items: bool,
    lines: &[TfmsetLine],
    items: &[T],
    counts: &mut TfmsetCounts,
) -> u32
    ensures answers { (result ≡ 0) ⊎ ((result ≡ 2) ⊎ (result ≡ 3)) }
    ensures kept { result ≡ 2 → counts.new ≡ counts.old }
    ensures told { (told lines_before : List Line) (placed items_before : List T)
        → IfOk filled (λ done. AreFilled with_items told placed done.0 done.1 lines_before lines.now items_before items.now)
        → AreTold with_items told placed result counts.old counts.new lines_before lines.now items_before items.now }
{
    let Ok((told, placed)) = filled else {
        return MEMORY;
    };
    *counts = TfmsetCounts {
        lines: told.lines,
        items: if with_items { placed } else { told.items },
    };
    if has_room(told.lines, lines.len()) && has_room(placed, items.len()) {
        return DONE;
    }
    NO_ROOM
}
