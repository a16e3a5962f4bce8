//! `tfmset_refusal_text`: why a line or a span is refused, in words.
ghost use Rattle.std.specs.Prelude.{◌≡◌, ◌≢◌, ◌<◌, ◌≤◌, ◌↔◌, IfOk};
ghost use Rattle.tfmset_c.specs.Arrays.{IsListed};
ghost use Rattle.tfmset_c.specs.Faults.{refusal_words};

use crate::arrays::report;
use crate::lines::TfmsetLine;
use crate::reading::{MEMORY, RANGE};
use std::alloc::{AllocError, Global};
use tfm_words::push_number;

/// Returns the reason in the record of a refused line: empty if the line is set. The error means that an allocation
/// failed.
#[tactic(auto, unfolding(crate::specs::Faults::refusal_words))]
fn reason(alloc: Global, line: &TfmsetLine) -> Result<Vec<u8>, AllocError>
    ensures { IfOk result (λ text. text.items ≡ refusal_words line.now) }
{
    let mut text = Vec::new(alloc);
    match line.refusal {
        1 => {
            push_number(&mut text, b"missing ", line.place)?;
            push_number(&mut text, b" ", line.code)?;
        }
        2 => push_number(&mut text, b"too-long ", line.place)?,
        3 => push_number(&mut text, b"steps ", line.steps)?,
        4 => text.extend_from_slice(b"outside")?,
        _ => {}
    }
    Ok(text)
}

/// Reports in `text` why a line is refused, as its record states it after the word `refused`: for example
/// `missing 7 65`; or why a span is. The text of a line that is set is empty. Returns: 0 after success; 2 if an
/// allocation fails; 3 if `text` is too short; 4 if `refusal` is above 4. After every code except 0 the array is
/// unchanged. `count` is the number of bytes after codes 0 and 3, and otherwise unchanged.
#[unsafe(no_mangle)]
pub extern "C" fn tfmset_refusal_text(
    alloc: Global,
    line: &TfmsetLine,
    text: &mut [u8],
    count: &mut usize,
) -> u32
    ensures answers { (result ≤ 4) × (result ≢ 1) }
    ensures range { (result ≡ 4) ↔ (4 < line.now.refusal) }
    ensures told { IsListed (refusal_words line.now) result count.old count.new text.old text.new }
{
    if line.refusal > 4 {
        return RANGE;
    }
    match reason(alloc, line) {
        Ok(told) => report(&told, text, count),
        Err(_) => MEMORY,
    }
}
