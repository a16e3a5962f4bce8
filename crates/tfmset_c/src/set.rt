//! `tfmset_set` and `tfmset_widths`: set the lines of a text into arrays of the caller.
ghost use Rattle.std.specs.Prelude.{◌≡◌, [], false, true, map, IfOk, IfSome};
ghost use Rattle.tfmset_c.specs.Arrays.{ArePut};
ghost use Rattle.line_records.specs.Cells.{Fits};
ghost use Rattle.line_records.specs.Results.{IsOf};
ghost use Rattle.tfmset_c.specs.Filling.{AreFilled, AreTold, wanted};
ghost use Rattle.tfmset_c.specs.Options.{IsOutOfRange, outcome_within, outcomes_at, outcomes_of};
ghost use Rattle.tfmset_c.specs.Reading.{IsAnswer};
ghost use Rattle.tfmset_c.specs.Texts.{item_told, items_in, items_told, lines_told};

use crate::arrays::put_list;
use crate::filling::tell;
use crate::lines::{
    TfmsetCounts, TfmsetItem, TfmsetLine, item_for_c, line_for_c, result_of, steps_of,
};
use crate::options::{Text, TfmsetOptions, terms_of};
use crate::reading::RANGE;
use lig_kern::Item;
use line_records::{LineResult, LineWriter, RecordFormat, RecordOf, SourceLine};
use set_line::{LineRefusal, OutOfMemory, TextRefusal, Version, next_line, set_bytes};
use std::alloc::Global;

/// The largest number of bytes in a text whose widths are computed without a table of texts: with an empty
/// table they take about as long.
const FEW_FOR_TABLE: usize = 65_536;

/// The arguments of a call.
#[derive(Clone, Copy)]
struct LineCall<'a> {
    font: &'a [u8],
    options: &'a TfmsetOptions,
    text: &'a [u8],
    with_items: bool,
}

/// What is kept from one line to the next one: the items of the line, if they are wanted, or a writer with a table of
/// texts, which makes no items.
#[derive(Drop)]
struct LineScratch {
    with_items: bool,
    items: Vec<Item>,
    writer: Option<LineWriter>,
}

/// Returns what is kept for the lines of this text, before the first one.
fn scratch_for(alloc: Global, text: Text, with_items: bool) -> LineScratch
    ensures wanted { result.with_items ≡ with_items }
    ensures writer { IfSome result.writer (λ style. Fits style text.entry.terms.now × (with_items ≡ false)) }
{
    let mut writer = None;
    if !with_items && text.bytes.len() > FEW_FOR_TABLE {
        let mut made = LineWriter::new(alloc, text.terms, RecordFormat::Items(Version::One));
        made.prepare(text.terms);
        writer = Some(made);
    }
    LineScratch {
        with_items,
        items: Vec::new(alloc),
        writer,
    }
}

/// Sets a line of which `left` steps are left for the call: without any it is refused, and isn't set. Its items replace
/// those in `kept`, if they are wanted.
#[tactic(auto, using(crate::proofs::TextLemmas::bytes_within), unfolding(crate::specs::Options::outcome_within))]
fn set_within(
    kept: &mut LineScratch,
    text: Text,
    left: u64,
    bytes: &[u8],
) -> Result<LineResult, OutOfMemory>
    requires { IfSome kept.old.writer (λ style. Fits style text.terms.now × (kept.old.with_items ≡ false)) }
    ensures kept { (kept.new.writer ≡ kept.old.writer) × (kept.new.with_items ≡ kept.old.with_items) }
    ensures result { IfOk result (IsOf (outcome_within text.entry.terms.now left bytes.now)) }
    ensures items { IfOk result (λ _. kept.new.items.items
        ≡ wanted kept.old.with_items (items_in (outcome_within text.entry.terms.now left bytes.now))) }
{
    kept.items.clear();
    if left == 0 {
        return Ok(LineResult::Refused(TextRefusal::Line(LineRefusal::Steps(0))));
    }
    if let Some(writer) = &mut kept.writer {
        let of = RecordOf {
            terms: text.terms,
            encoding: None,
            source: 0,
        };
        let line = SourceLine {
            number: 0,
            first: false,
            bytes,
        };
        return writer.result(&of, line);
    }
    let outcome = set_bytes(text.terms, bytes, &mut kept.items)?;
    let result = result_of(&outcome);
    outcome.give_back(&mut kept.items);
    if kept.with_items {
        return Ok(result);
    }
    kept.items.clear();
    Ok(result)
}

/// Writes items, starting at index `first`, while there is room, and returns the index after all of them.
#[tactic(auto, using(crate::proofs::ArrayLemmas::put_both))]
fn put_items(items: &mut [TfmsetItem], first: usize, made: &[Item]) -> usize
    ensures { ArePut (map item_told made.now) first result items.old items.new }
{
    let mut at = first;
    for item in made {
        at = put_list(items, at, &[item_for_c(*item)]);
    }
    at
}

/// Sets the lines of a text, and writes their results and, if they are wanted, their items into the arrays while there
/// is room. Returns the numbers of results and items, and the number of items that are wanted. If an allocation fails,
/// the contents of the arrays are unspecified.
fn fill(
    kept: &mut LineScratch,
    text: Text,
    lines: &mut [TfmsetLine],
    items: &mut [TfmsetItem],
) -> Result<(TfmsetCounts, usize), OutOfMemory>
    requires { IfSome kept.old.writer (λ style. Fits style text.terms.now × (kept.old.with_items ≡ false)) }
    ensures { IfOk result (λ filled. AreFilled kept.old.with_items (lines_told 0 (outcomes_of text.entry))
        (items_told (outcomes_of text.entry)) filled.0 filled.1 lines.old lines.new items.old items.new) }
{
    let mut counts = TfmsetCounts { lines: 0, items: 0 };
    let mut placed = 0;
    let mut left = text.call_limit;
    let mut rest = text.bytes;
    while let Some((bytes, more)) = next_line(rest, text.crlf) {
        let result = set_within(kept, text, left, bytes)?;
        let line = line_for_c(result, counts.items);
        counts = TfmsetCounts {
            lines: put_list(lines, counts.lines, &[line]),
            items: counts.items.saturating_add(line.count),
        };
        placed = put_items(items, placed, &kept.items);
        left = left.saturating_sub(u64::from(steps_of(result)));
        rest = more;
    }
    Ok((counts, placed))
}

/// Reads the font of a call, and sets its lines.
fn run(
    alloc: Global,
    call: LineCall<'_>,
    lines: &mut [TfmsetLine],
    items: &mut [TfmsetItem],
    counts: &mut TfmsetCounts,
) -> u32
    ensures font { IsAnswer (IsOutOfRange call.entry.options.now) call.entry.font.now result }
    ensures told { AreTold call.entry.with_items
        (lines_told 0 (outcomes_at call.entry.font.now call.entry.options.now call.entry.text.now))
        (items_told (outcomes_at call.entry.font.now call.entry.options.now call.entry.text.now)) result
        counts.old counts.new lines.old lines.new items.old items.new }
{
    let Some(settings) = call.options.in_range() else {
        return RANGE;
    };
    let (crlf, call_limit) = (settings.crlf, settings.call_limit);
    match terms_of(alloc, call.font, settings) {
        Ok(terms) => {
            let text = Text {
                terms: &terms,
                bytes: call.text,
                crlf,
                call_limit,
            };
            let mut kept = scratch_for(alloc, text, call.with_items);
            let filled = fill(&mut kept, text, lines, items);
            tell(filled, call.with_items, lines, items, counts)
        }
        Err(denial) => denial.code(),
    }
}

/// Sets the lines of a text with these options. Returns: 0 after success, where `lines` and `items` have the
/// results, `counts` has their numbers, and the other elements are unchanged; 1 if the font is refused; 2 if an
/// allocation fails; 3 if an array is too short, where `counts` has the lengths needed; 4 if an option is out of
/// range. After 1 and 4 nothing is changed. After 2 `counts` is unchanged. After 2 and 3 the contents of the
/// arrays are unspecified.
#[unsafe(no_mangle)]
pub extern "C" fn tfmset_set(
    alloc: Global,
    font: &[u8],
    options: &TfmsetOptions,
    text: &[u8],
    lines: &mut [TfmsetLine],
    items: &mut [TfmsetItem],
    counts: &mut TfmsetCounts,
) -> u32
    ensures font { IsAnswer (IsOutOfRange options.now) font.now result }
    ensures told { AreTold true (lines_told 0 (outcomes_at font.now options.now text.now))
        (items_told (outcomes_at font.now options.now text.now)) result
        counts.old counts.new lines.old lines.new items.old items.new }
{
    let call = LineCall {
        font,
        options,
        text,
        with_items: true,
    };
    run(alloc, call, lines, items, counts)
}

/// Sets the lines of a text as [`tfmset_set`] does, without returning the items: only `lines` has to be long
/// enough. The numbers in `lines` and `counts`, and the codes, are those of `tfmset_set`.
#[unsafe(no_mangle)]
pub extern "C" fn tfmset_widths(
    alloc: Global,
    font: &[u8],
    options: &TfmsetOptions,
    text: &[u8],
    lines: &mut [TfmsetLine],
    counts: &mut TfmsetCounts,
) -> u32
    ensures font { IsAnswer (IsOutOfRange options.now) font.now result }
    ensures told { AreTold false (lines_told 0 (outcomes_at font.now options.now text.now))
        (items_told (outcomes_at font.now options.now text.now)) result
        counts.old counts.new lines.old lines.new [] [] }
{
    let call = LineCall {
        font,
        options,
        text,
        with_items: false,
    };
    run(alloc, call, lines, &mut [], counts)
}
