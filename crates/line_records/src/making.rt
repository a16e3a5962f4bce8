//! Makes the texts of entries.
ghost use Rattle.std.specs.Prelude.{◌≡◌, ◌≤◌, ◌+◌, ◌^◌, ◌++◌, drop, flat_map, length, take, IfSome};
ghost use Rattle.std.specs.Option.{option_to_list};
ghost use Rattle.set_line.specs.Width.{total_width};
ghost use Rattle.line_records.specs.Additions.{IsWithin};
ghost use Rattle.line_records.specs.Boxes.{item_text};
ghost use Rattle.line_records.specs.Cells.{IsTextOf, total_tally};

use crate::RecordFormat;
use crate::adding::{ByteAddition, StepAddition};
use crate::text_entry::{BYTES, SKIPPED, TextEntry};
use lig_kern::Item;
use set_line::write_item_text;

/// The largest number of bytes in the texts of three items.
const ROOM: usize = 66;

/// Writes the text of an item, if there is one, so that it ends at the index `end`, and returns its start.
fn write_some(text: &mut [u8], end: usize, item: Option<Item>, format: RecordFormat) -> usize
    requires { (22 ≤ end) × (end ≤ length text.old) }
    ensures place { (result ≤ end) × (end ≤ result + 22) }
    ensures written { drop result text.new
        ≡ flat_map (item_text format) (option_to_list item) ++ drop end text.old }
{
    match (item, format) {
        (Some(item), RecordFormat::Items(version)) => write_item_text(text, end, &item, version),
        (Some(Item::Char { code, .. }), RecordFormat::Box(_)) => {
            text[end - 1] = code;
            end - 1
        }
        (Some(_), RecordFormat::Box(_)) | (None, _) => end,
    }
}

/// Writes the texts of the items that a step past a symbol adds, so that they end at the index `end`, and
/// returns their start.
#[tactic(auto, using(crate::proofs::AddingLemmas::texts))]
fn write_passed(text: &mut [u8], end: usize, passed: &StepAddition, format: RecordFormat) -> usize
    requires { (44 ≤ end) × (end ≤ length text.old) }
    ensures place { (result ≤ end) × (end ≤ result + 44) }
    ensures written { drop result text.new ≡ flat_map (item_text format) passed.now.items ++ drop end text.old }
{
    let kern_at = write_some(text, end, passed.kern, format);
    write_some(text, kern_at, passed.character, format)
}

/// Writes the texts of the items that a byte adds, so that they end at the index 66, and returns their start.
#[tactic(auto, using(crate::proofs::AddingLemmas::texts))]
fn write_added(text: &mut [u8], added: &ByteAddition, format: RecordFormat) -> usize
    requires { 66 ≤ length text.old }
    ensures place { result ≤ 66 }
    ensures written { drop result text.new ≡ flat_map (item_text format) added.now.items ++ drop 66 text.old }
{
    let cut_at = write_some(text, ROOM, added.cut, format);
    write_passed(text, cut_at, &added.passed, format)
}

/// Returns the amount that an item adds to the width, in sp.
fn amount(item: Option<Item>) -> i64
    ensures sum { result ≡ total_width (option_to_list item) }
    ensures narrow { IsWithin (2 ^ 31) result }
{
    match item {
        Some(Item::Char { width, .. }) => i64::from(width),
        Some(Item::Kern(amount)) | Some(Item::Space(amount)) => i64::from(amount),
        Some(Item::Skipped(_)) | None => 0,
    }
}

/// Returns a text with unused bytes after it, or `None` if it is too long.
fn padded(text: &[u8]) -> Option<[u8; BYTES]>
    ensures { IfSome result (λ bytes. (length text.now ≤ 32)
        × (take (length text.now) bytes ≡ text.now)) }
{
    if text.len() > BYTES {
        return None;
    }
    let mut bytes = [0; BYTES];
    bytes[..text.len()].copy_from_slice(text);
    Some(bytes)
}

/// Returns the width of the items that a step past a symbol adds, in sp.
#[tactic(auto, using(crate::proofs::AddingLemmas::widths))]
fn passed_width(passed: &StepAddition) -> i64
    ensures sum { result ≡ total_width passed.now.items }
    ensures narrow { IsWithin (2 ^ 32) result }
{
    amount(passed.character) + amount(passed.kern)
}

/// Returns the width of the items that a byte adds, in sp.
#[tactic(auto, using(crate::proofs::AddingLemmas::widths))]
fn added_width(added: &ByteAddition) -> i64
    ensures sum { result ≡ total_width added.now.items }
    ensures narrow { IsWithin (2 ^ 40) result }
{
    passed_width(&added.passed) + amount(added.cut)
}

/// Returns the tally of an item.
fn tally(item: Option<Item>) -> usize
    ensures sum { result ≡ total_tally (option_to_list item) }
    ensures few { length (option_to_list item) ≤ 1 }
    ensures small { result ≤ 2 ^ 32 + 1 }
{
    match item {
        Some(Item::Skipped(_)) => 1 + SKIPPED,
        Some(_) => 1,
        None => 0,
    }
}

/// Returns the tally of the items that a byte adds.
#[tactic(auto, using(crate::proofs::AddingLemmas::tallies))]
fn added_tally(added: &ByteAddition) -> usize
    ensures sum { result ≡ total_tally added.now.items }
    ensures few { length added.now.items ≤ 3 }
    ensures small { result ≤ 2 ^ 34 }
{
    let passed = &added.passed;
    tally(passed.character) + tally(passed.kern) + tally(added.cut)
}

/// Returns the entry of what a byte adds, or `None` if its text is too long.
#[tactic(auto, using(crate::proofs::AddingLemmas::texts))]
pub(crate) fn make_entry(added: &ByteAddition, format: RecordFormat) -> Option<TextEntry>
    ensures { IfSome result (IsTextOf format added.now) }
{
    let mut room = [0; ROOM];
    let start = write_added(&mut room, added, format);
    let text = &room[start..];
    let bytes = padded(text)?;
    let steps = added.passed.steps;
    // For the proof: no byte adds more than one step, but the type of the number doesn't state this.
    if steps > 1 {
        return None;
    }
    Some(TextEntry {
        text: bytes,
        length: text.len(),
        steps: usize::from(steps),
        tally: added_tally(added),
        width: added_width(added),
    })
}
