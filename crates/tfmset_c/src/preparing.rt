//! `tfmset_prepare`, and the font of a call that sets spans.
ghost use Rattle.std.specs.Prelude.{◌≡◌, ◌≢◌, ◌≤◌, ◌⊎◌, IfErr, IfOk, None};
ghost use Rattle.prepared_font.specs.Layout.{IsPreparedFrom};
ghost use Rattle.tfm_tables.specs.Acceptance.{font_fault_of};
ghost use Rattle.tfmset_c.specs.Prepared.{IsTableTold};
ghost use Rattle.tfmset_c.specs.Reading.{IsAnswer, IsDenial, IsNoSize, font_at};

use crate::arrays::{DONE, NO_ROOM};
use crate::reading::{Denial, MOST_SIZE, RANGE, read_metrics};
use prepared_font::{prepare, table_length};
use std::alloc::{AllocError, Global};
use tfm_tables::FontMetrics;

/// Returns the table of a font. The error means that an allocation failed.
fn make_table(alloc: Global, font: &FontMetrics) -> Result<Vec<u8>, AllocError>
    ensures { IfOk result (λ table. IsPreparedFrom font.now table.items) }
{
    let mut table = vec![in alloc; 0; table_length(font)]?;
    match prepare(font, &mut table) {
        Ok(_) => Ok(table),
        Err(_) => unreachable!(),
    }
}

/// Reads the font in these bytes of a TFM file, and returns its table. Returns a `Denial` if the font is refused, or an
/// allocation fails.
pub fn table_of(alloc: Global, bytes: &[u8], size: u32) -> Result<Vec<u8>, Denial>
    requires { size ≤ 134217727 }
    ensures accepted { IfOk result (λ _. font_fault_of bytes.now ≡ None) }
    ensures ok { IfOk result (λ table. IsPreparedFrom (font_at bytes.now size) table.items) }
    ensures denied { IfErr result (IsDenial bytes.now) }
{
    let font = read_metrics(alloc, bytes, size)?;
    match make_table(alloc, &font) {
        Ok(table) => Ok(table),
        Err(_) => Err(Denial::Memory),
    }
}

/// Writes the table of a font to the front of the array `table`. Returns: 0 after success; 3 if the array is too short,
/// which is then unchanged. `count` is the number of bytes of the table.
fn write_table(font: &FontMetrics, table: &mut [u8], count: &mut usize) -> u32
    ensures answers { (result ≡ 0) ⊎ (result ≡ 3) }
    ensures told { IsTableTold font.now result count.old count.new table.old table.new }
    ensures kept { result ≢ 0 → table.new ≡ table.old }
{
    let length = table_length(font);
    *count = length;
    if length > table.len() {
        return NO_ROOM;
    }
    match prepare(font, &mut table[..length]) {
        Ok(_) => DONE,
        Err(_) => unreachable!(),
    }
}

/// Writes the table of a font at a size to the front of the array `table`, for `tfmset_spans` and `tfmset_span_items`:
/// 2,084 bytes, and four for each instruction and for each kern. `size` is in sp, and 0 is the design size. Returns: 0
/// after success; 1 if the font is refused; 2 if an allocation fails; 3 if the array is too short; 4 if `size` is above
/// 134,217,727. After every code except 0 the array is unchanged. `count` is the number of bytes of the table after
/// codes 0 and 3, and otherwise unchanged.
#[unsafe(no_mangle)]
pub extern "C" fn tfmset_prepare(
    alloc: Global,
    font: &[u8],
    size: u32,
    table: &mut [u8],
    count: &mut usize,
) -> u32
    ensures font { IsAnswer (IsNoSize size) font.now result }
    ensures told { IsTableTold (font_at font.now size) result count.old count.new table.old table.new }
    ensures kept { result ≢ 0 → table.new ≡ table.old }
{
    if size > MOST_SIZE {
        return RANGE;
    }
    match read_metrics(alloc, font, size) {
        Ok(font) => write_table(&font, table, count),
        Err(denial) => denial.code(),
    }
}
