//! Sets a line, and keeps the texts of its items.
ghost use Rattle.std.specs.Prelude.{◌≡◌, ◌≤◌, ◌^◌, ◌<◌, ◌+◌, ◌++◌, ℕ, List, [], ◌∷◌, flat_map, IfOk, IfSome, OnOk, true, length};
ghost use Rattle.std.specs.List.{count_by};
ghost use Rattle.encodings.specs.Parts.{joined};
ghost use Rattle.encodings.specs.Visited.{value_of};
ghost use Rattle.lig_kern.specs.declared.item.Item.{Item as ItemValue};
ghost use Rattle.lig_kern.specs.declared.item.Item.TheVariants.{Skipped};
ghost use Rattle.set_line.specs.Answer.{has_refused};
ghost use Rattle.set_line.specs.Onward.{AreFew, setting};
ghost use Rattle.set_line.specs.Pieces.{is_space};
ghost use Rattle.line_records.specs.Boxes.{code_in, is_glue, is_skipped, item_text};
ghost use Rattle.line_records.specs.Cells.{Fits, style_of};
ghost use Rattle.line_records.specs.Kept.{AreListed, IsKept, IsReached, IsThatOf, gaps_in, set_after, spaces_for};
ghost use Rattle.line_records.specs.Results.{only_part};

use crate::line_state::LineState;
use crate::table::TextTable;
use crate::text_entry::SKIPPED;
use crate::writing::write_line;
use crate::{RecordFormat, Sums};
use encodings::{Part, Parts};
use lig_kern::Item;
use set_line::{Policy, Terms, append_items, append_uncoded, set_stretch, total_width};
use std::alloc::AllocError;

/// A line that is set. The texts of its items are at the front of the list of texts; for a box they are the codes of
/// the characters.
#[derive(Clone, Copy)]
pub(crate) struct KeptLine {
    pub sums: Sums,
    /// The number of spaces, or 0 if the record doesn't have it.
    pub spaces: usize,
    /// The number of bytes of the texts.
    pub length: usize,
}

/// The lists that are used again from line to line.
#[derive(Drop)]
pub(crate) struct Lists {
    /// The items of a line that isn't set with the table of texts, without characters that have no codes.
    pub items: Vec<Item>,
    /// The texts of the items of a line, or the codes of its characters.
    pub texts: Vec<u8>,
}

/// Appends the codes of the characters among items.
fn append_codes(codes: &mut Vec<u8>, items: &[Item]) -> Result<(), AllocError>
    ensures { OnOk result (codes.new.items ≡ codes.old.items ++ flat_map code_in items.now) }
{
    for item in items {
        if let Item::Char { code, .. } = item {
            codes.push(*code)?;
        }
    }
    Ok(())
}

/// Appends the texts of items.
fn append_texts(texts: &mut Vec<u8>, items: &[Item], format: RecordFormat) -> Result<(), AllocError>
    ensures { OnOk result (texts.new.items ≡ texts.old.items ++ flat_map (item_text format) items.now) }
{
    match format {
        RecordFormat::Items(version) => append_items(texts, items, version),
        RecordFormat::Box(_) => append_codes(texts, items),
    }
}

/// Appends the text of a skipped character without codes if the record has it.
fn append_gap(texts: &mut Vec<u8>, character: char, format: RecordFormat) -> Result<(), AllocError>
    ensures { OnOk result (texts.new.items ≡ texts.old.items ++ item_text format (Skipped (256 + character))) }
{
    match format {
        RecordFormat::Items(version) => append_uncoded(texts, character, version),
        RecordFormat::Box(_) => Ok(()),
    }
}

/// Sets the codes of a part of a line, and appends its items and their texts. `used` is the number of steps
/// before it. Returns the number of steps with it, or `None` if it has a character that is refused, or if the
/// steps are above the limit.
fn set_part(
    terms: &Terms,
    format: RecordFormat,
    part: Part<'_>,
    used: u32,
    lists: &mut Lists,
) -> Result<Option<u32>, AllocError>
    requires { used ≤ terms.now.limit }
    ensures within { IfOk result (λ steps.
        IfSome steps (λ n. (n ≤ terms.now.limit) × (n ≤ 16777216))) }
    ensures few { IfOk result (λ steps. IfSome steps
        (AreFew used lists.old.items.items part.entry.codes.now lists.new.items.items)) }
    ensures reached { IfOk result (λ steps. (all : List ItemValue) (gaps : ℕ)
        → AreListed format all lists.old.items.items gaps lists.old.texts.items
        → IsReached format (set_after terms.now (setting used all) (value_of part.entry ∷ []))
        lists.new.items.items (gaps + gaps_in (value_of part.entry)) lists.new.texts.items steps) }
{
    let from = lists.items.len();
    let skipped = part.uncoded();
    let right = skipped.is_none();
    let Some(steps) = set_stretch(terms, part.codes, right, used, &mut lists.items)? else {
        return Ok(None);
    };
    let (_, added) = lists.items.split_at(from);
    append_texts(&mut lists.texts, added, format)?;
    match (skipped, terms.policy()) {
        (None, _) => Ok(Some(steps)),
        (Some(_), Policy::Refuse) => Ok(None),
        (Some(character), Policy::Skip) => {
            append_gap(&mut lists.texts, character, format)?;
            Ok(Some(steps))
        }
    }
}

/// Returns the number of spaces among items if the record has it, and otherwise 0.
fn count_spaces(format: RecordFormat, items: &[Item]) -> usize
    ensures { result ≡ spaces_for format (count_by is_glue items.now) }
{
    match format {
        RecordFormat::Items(_) => 0,
        RecordFormat::Box(_) => items
            .iter()
            .filter(|item| matches!(item, Item::Space(_)))
            .count(),
    }
}

/// Returns the number of skipped bytes among items.
#[tactic(auto, using(crate::proofs::BoxLemmas::counted))]
fn count_skipped(items: &[Item]) -> usize
    ensures value { result ≡ count_by is_skipped items.now }
    ensures few { result ≤ length items.now }
{
    items
        .iter()
        .filter(|item| matches!(item, Item::Skipped(_)))
        .count()
}

/// Sets the parts of a line one after the other. Returns `None` if a character is refused, or if the line takes
/// more steps than the limit.
pub(crate) fn set_parts(
    terms: &Terms,
    format: RecordFormat,
    parts: Parts<'_>,
    lists: &mut Lists,
) -> Result<Option<KeptLine>, AllocError>
    requires { length (joined parts) ≤ 65535 }
    ensures { IfOk result (IsKept format
        (set_after terms.now (setting 0 []) parts.entry) lists.new.texts.items) }
{
    lists.items.clear();
    lists.texts.clear();
    let mut steps = 0;
    let mut gaps = 0;
    for part in parts {
        let Some(after) = set_part(terms, format, part, steps, lists)? else {
            return Ok(None);
        };
        steps = after;
        gaps += usize::from(part.uncoded().is_some());
    }
    let sums = Sums {
        width: total_width(&lists.items),
        steps,
        items: lists.items.len() + gaps,
        skipped: count_skipped(&lists.items) + gaps,
    };
    Ok(Some(KeptLine {
        sums,
        spaces: count_spaces(format, &lists.items),
        length: lists.texts.len(),
    }))
}

/// Returns whether the code at this index is a missing character that is refused.
#[tactic(auto, using(crate::proofs::KeptLemmas::refused))]
fn refuses(terms: &Terms, codes: &[u8], at: usize) -> bool
    ensures { result ≡ true → has_refused terms.now.policy terms.now.font codes.now ≡ true }
{
    match codes.get(at) {
        Some(code) => {
            terms.policy() == Policy::Refuse && *code != b' ' && !terms.font().exists(*code)
        }
        None => false,
    }
}

/// Returns the number of spaces among the codes of a line if the record has it, and otherwise 0.
fn count_codes(format: RecordFormat, codes: &[u8]) -> usize
    ensures { result ≡ spaces_for format (count_by is_space codes.now) }
{
    match format {
        RecordFormat::Items(_) => 0,
        RecordFormat::Box(_) => codes.iter().filter(|code| **code == b' ').count(),
    }
}

/// Returns what was written, with this number of spaces, as a line that is kept.
fn as_kept(whole: LineState, spaces: usize) -> KeptLine
    requires { whole.steps < 2 ^ 32 }
    ensures { IsThatOf whole spaces result }
{
    KeptLine {
        sums: Sums {
            width: whole.width,
            steps: whole.steps as u32,
            items: whole.tally % SKIPPED,
            skipped: whole.tally / SKIPPED,
        },
        spaces,
        length: whole.length,
    }
}

/// Sets codes with the table of texts, as [`set_parts`] sets them. Returns `None` if they have to be set in the
/// general way.
#[tactic(auto, using(crate::proofs::KeptLemmas::plainly))]
fn set_plainly(
    table: &mut TextTable,
    terms: &Terms,
    codes: &[u8],
    texts: &mut Vec<u8>,
) -> Option<Option<KeptLine>>
    requires fits { Fits table.old terms.now }
    requires short { length codes.now ≤ 65535 }
    ensures table { table.new ≡ table.old }
    ensures kept { IfSome result (IsKept table.old.format
        (set_after terms.now (setting 0 []) (only_part codes.now)) texts.new.items) }
{
    let spaces = count_codes(table.format, codes);
    match write_line(table, terms, codes, texts) {
        Ok(line) if line.steps <= terms.limit().get() as usize => Some(Some(as_kept(line, spaces))),
        Ok(_) => None,
        Err(at) => refuses(terms, codes, at).then_some(None),
    }
}

/// Sets codes, with the table of texts if there is one and it is enough. Returns `None` if a character is
/// refused, or if the codes take more steps than the limit.
pub(crate) fn set_codes(
    table: &mut Option<TextTable>,
    terms: &Terms,
    format: RecordFormat,
    codes: &[u8],
    lists: &mut Lists,
) -> Result<Option<KeptLine>, AllocError>
    requires table { IfSome table.old (λ table. table ≡ style_of terms.now format) }
    requires short { length codes.now ≤ 65535 }
    ensures table { table.new ≡ table.old }
    ensures kept { IfOk result (IsKept format
        (set_after terms.now (setting 0 []) (only_part codes.now)) lists.new.texts.items) }
{
    if let Some(table) = table {
        if let Some(kept) = set_plainly(table, terms, codes, &mut lists.texts) {
            return Ok(kept);
        }
    }
    set_parts(terms, format, Parts::of_codes(codes), lists)
}
