//! The cells of the table of texts.
ghost use Rattle.std.specs.Prelude.{◌≡◌, ◌≤◌, ◌<◌, [], IfSome, true, length, slice_index_or, vec_len};
ghost use Rattle.tfm_words.specs.Appending.{StaysInFront};
ghost use Rattle.line_records.specs.Additions.{one_step};
ghost use Rattle.line_records.specs.Cells.{AreSame, IsCell, style_of, symbol_of};
ghost use Rattle.line_records.specs.declared.text_entry.TextEntry.{TextEntry as EntryValue};

use crate::RecordFormat;
use crate::adding::{ByteAddition, END, added_at, symbol_in};
use crate::making::make_entry;
use crate::text_entry::TextEntry;
use lig_kern::Symbol;
use set_line::Terms;
use tfm_tables::Font;

/// The largest number of entries. They take at most 1 MiB. A cell with a number of at least `UNKNOWN` isn't an
/// index.
const MOST_ENTRIES: usize = 16_384;

/// The number of entries, the last ones, among which an equal one is searched for. The limit keeps the time for
/// a cell short in fonts with many different entries.
const SEARCHED: usize = 256;

/// A cell that isn't made yet.
pub(crate) const UNKNOWN: usize = 65_024;

/// A cell for the general way: a line that needs it has to be set in this way.
const GENERAL: usize = 65_025;

/// The first of the cells for ligatures that replace the current symbol and the byte. Such a cell is this
/// number plus the row of the ligature.
pub(crate) const LIGATURE: usize = 65_280;

/// Returns the row of the ligature that replaces the current symbol and a byte, if what the byte adds is such
/// a ligature.
fn ligature_row(font: &Font, added: &ByteAddition) -> Option<u8>
    ensures { IfSome result (λ row. added.now ≡ one_step [] (symbol_of font.now row)) }
{
    if added.passed.steps != 1 || added.passed.character.is_some() {
        return None;
    }
    if added.passed.kern.is_some() || added.cut.is_some() {
        return None;
    }
    match added.current {
        Symbol::Char(code) if symbol_in(font, code) == added.current => Some(code),
        _ => None,
    }
}

/// Returns whether the symbol of the byte's own row is current after the byte, or it is the end of the line.
fn is_in_own_row(font: &Font, added: &ByteAddition, next: usize) -> bool
    requires { next < 257 }
    ensures { result ≡ true → next < 256 → symbol_of font.now next ≡ added.now.current }
{
    next == END || symbol_in(font, (next % 256) as u8) == added.current
}

/// Returns whether two entries have the same text and sums.
fn is_same(one: &TextEntry, other: &TextEntry) -> bool
    ensures { result ≡ true → AreSame one.now other.now }
{
    one.width == other.width
        && one.length == other.length
        && one.steps == other.steps
        && one.tally == other.tally
        && one.text == other.text
}

/// Returns the index of an entry with the same text and sums among the last entries. Most cells of a row have
/// equal entries, and fewer entries take less of the processor's cache.
fn find_same(entries: &[TextEntry], entry: &TextEntry) -> Option<usize>
    ensures { IfSome result (λ index. (index < length entries.now)
        × ((d : EntryValue) → AreSame entry.now (slice_index_or entries.now index d))) }
{
    for index in entries.len().saturating_sub(SEARCHED)..entries.len() {
        if is_same(entry, &entries[index]) {
            return Some(index);
        }
    }
    None
}

/// Appends an entry, unless an equal one is found, and returns the index of the entry. Returns a cell for the
/// general way if there are too many entries or an allocation fails.
fn push_entry(entries: &mut Vec<TextEntry>, entry: TextEntry) -> usize
    requires { vec_len entries.old ≤ 65024 }
    ensures front { StaysInFront entries.old.items entries.new.items }
    ensures few { vec_len entries.new ≤ 65024 }
    ensures same { (d : EntryValue) → result < vec_len entries.new
        → AreSame entry (slice_index_or entries.new.items result d) }
    ensures mark { vec_len entries.new ≤ result → result ≡ 65025 }
{
    if let Some(index) = find_same(entries, &entry) {
        return index;
    }
    let index = entries.len();
    if index >= MOST_ENTRIES || entries.push(entry).is_err() {
        return GENERAL;
    }
    index
}

/// Returns the cell for what a byte adds after the current symbol of a row, or for the end of the line.
/// Appends an entry to `entries` if the cell needs one. The cell is one for the general way if it isn't defined
/// what the byte adds, if the text is too long, if there are too many entries, or if an allocation fails.
#[tactic(auto, using(crate::proofs::CellLemmas::made))]
pub(crate) fn make_cell(
    terms: &Terms,
    format: RecordFormat,
    row: u8,
    next: usize,
    entries: &mut Vec<TextEntry>,
) -> usize
    requires next { next < 257 }
    requires few { vec_len entries.old ≤ 65024 }
    ensures front { StaysInFront entries.old.items entries.new.items }
    ensures few { vec_len entries.new ≤ 65024 }
    ensures cell { IsCell (style_of terms.now format) entries.new.items row next result }
    ensures range { result < 65536 }
{
    let font = terms.font();
    let Some(added) = added_at(font, terms.policy(), symbol_in(font, row), next) else {
        return GENERAL;
    };
    if is_in_own_row(font, &added, next) {
        return match make_entry(&added, format) {
            Some(entry) => push_entry(entries, entry),
            None => GENERAL,
        };
    }
    match ligature_row(font, &added) {
        Some(row) => LIGATURE + usize::from(row),
        None => GENERAL,
    }
}
