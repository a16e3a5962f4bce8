//! `tfmset_spans` and `tfmset_span_items`: set spans of a text into arrays of the caller.
ghost use Rattle.std.specs.Prelude.{◌≡◌, ◌≢◌, ◌≤◌, ◌⊎◌, [], true, false, IfErr, IfOk, map};
ghost use Rattle.tfmset_c.specs.Arrays.{ArePut};
ghost use Rattle.prepared_font.specs.Layout.{IsPreparedFrom};
ghost use Rattle.tfm_tables.specs.Font.{FontValue};
ghost use Rattle.tfmset_c.specs.Filling.{AreFilled, AreTold, wanted};
ghost use Rattle.tfmset_c.specs.Prepared.{IsFont, IsGiven, IsNoFont, IsOpenFor, IsOtherSize};
ghost use Rattle.tfmset_c.specs.Reading.{IsAnswerFor};
ghost use Rattle.tfmset_c.specs.Spans.{IsNoCall, items_at, items_told, job_terms, placed_told, span_items, span_within, spans_at, spans_told};

use crate::arrays::put_list;
use crate::filling::tell;
use crate::lines::{TfmsetCounts, TfmsetLine};
use crate::options::TfmsetOptions;
use crate::preparing::table_of;
use crate::reading::RANGE;
use crate::span::{TfmsetPlaced, TfmsetSpan, placed_for_c, settings_for, span_for, span_for_c};
use prepared_font::PreparedFont;
use set_line::{Limit, OutOfMemory};
use spans::{PlacedItem, SpanOutcome, SpanRefusal, SpanSetter, place_span};
use std::alloc::Global;

/// The spans of a call, and how they are set.
#[derive(Clone, Copy)]
pub struct SpanJob<'a> {
    font: &'a PreparedFont<'a>,
    text: &'a [u8],
    spans: &'a [TfmsetSpan],
    limit: Limit,
    call_limit: u64,
    with_items: bool,
}

/// The arguments of a call.
#[derive(Clone, Copy)]
pub struct SpanCall<'a> {
    font: &'a [u8],
    options: &'a TfmsetOptions,
    text: &'a [u8],
    spans: &'a [TfmsetSpan],
    with_items: bool,
}

/// What is kept from one span to the next one: a setter, and the items of the span if they are wanted.
#[derive(Drop)]
struct SpanScratch {
    setter: SpanSetter,
    items: Vec<PlacedItem>,
}

/// Opens the font in these bytes: a table, or a TFM file, whose table is written to `made`. `size` is in sp; 0 is the
/// design size of a TFM file, or the size of a table. The error is the code that the call returns: 1 if the bytes are
/// neither an accepted TFM file nor have the header of a table; 2 if an allocation fails; 4 if the table has another
/// size in its header.
pub fn open_font<'a>(
    alloc: Global,
    bytes: &'a [u8],
    size: u32,
    made: &'a mut Vec<u8>,
) -> Result<PreparedFont<'a>, u32>
    requires { size ≤ 134217727 }
    ensures ok { IfOk result (IsOpenFor size bytes.now) }
    ensures code { IfErr result (IsNoFont size bytes.now) }
{
    if let Some(prepared) = PreparedFont::open(bytes) {
        if size != 0 && size != prepared.size() {
            return Err(RANGE);
        }
        return Ok(prepared);
    }
    match table_of(alloc, bytes, size) {
        Ok(table) => *made = table,
        Err(denial) => return Err(denial.code()),
    }
    match PreparedFont::open(made) {
        Some(prepared) => Ok(prepared),
        None => unreachable!(),
    }
}

/// Sets a span of which `left` steps are left for the call: without any it is refused, and isn't set. `first` is the
/// index of its first item. Its items replace those in `kept`, if they are wanted.
#[tactic(auto, unfolding(crate::specs::Spans::span_within))]
fn set_within(
    kept: &mut SpanScratch,
    job: &SpanJob<'_>,
    left: u64,
    first: usize,
    span: &TfmsetSpan,
) -> Result<TfmsetLine, OutOfMemory>
    ensures line { (font : FontValue) → IsPreparedFrom font job.now.font.now
        → IfOk result (λ line. line ≡ span_within (job_terms font job.now.text.now job.now.limit) left first span.now) }
    ensures items { (font : FontValue) → IsPreparedFrom font job.now.font.now
        → IfOk result (λ line. map placed_told kept.new.items.items
        ≡ wanted job.now.with_items (span_items (job_terms font job.now.text.now job.now.limit) span.now line)) }
{
    kept.items.clear();
    if left == 0 {
        let refused = SpanOutcome::Refused(SpanRefusal::Steps);
        return Ok(span_for_c(refused, span, 0, first));
    }
    let one = span_for(span);
    if job.with_items {
        let outcome = place_span(job.font, job.text, &one, job.limit, &mut kept.items)?;
        return Ok(span_for_c(outcome, span, job.limit.get(), first));
    }
    let outcome = kept.setter.set(job.font, job.text, &one, job.limit)?;
    Ok(span_for_c(outcome, span, job.limit.get(), first))
}

/// Writes items, starting at index `first`, while there is room, and returns the index after all of them.
#[tactic(auto, using(crate::proofs::ArrayLemmas::put_both))]
fn put_all(items: &mut [TfmsetPlaced], first: usize, made: &[PlacedItem]) -> usize
    ensures { ArePut (map placed_told made.now) first result items.old items.new }
{
    let mut at = first;
    for item in made {
        at = put_list(items, at, &[placed_for_c(*item)]);
    }
    at
}

/// Sets spans, and writes their results and, if they are wanted, their items into the arrays while there is room.
/// Returns the numbers of results and items, and the number of items that are wanted. If an allocation fails, the
/// contents of the arrays are unspecified.
fn fill_spans(
    alloc: Global,
    job: &SpanJob<'_>,
    lines: &mut [TfmsetLine],
    items: &mut [TfmsetPlaced],
) -> Result<(TfmsetCounts, usize), OutOfMemory>
    ensures { (font : FontValue) → IsPreparedFrom font job.now.font.now → IfOk result (λ filled.
        AreFilled job.now.with_items
        (spans_told (job_terms font job.now.text.now job.now.limit) job.now.call_limit 0 job.now.spans.now)
        (items_told (job_terms font job.now.text.now job.now.limit) job.now.spans.now
        (spans_told (job_terms font job.now.text.now job.now.limit) job.now.call_limit 0 job.now.spans.now))
        filled.0 filled.1 lines.old lines.new items.old items.new) }
{
    let mut kept = SpanScratch {
        setter: SpanSetter::new(alloc),
        items: Vec::new(alloc),
    };
    let mut counts = TfmsetCounts { lines: 0, items: 0 };
    let mut placed = 0;
    let mut left = job.call_limit;
    for span in job.spans {
        let line = set_within(&mut kept, job, left, counts.items, span)?;
        counts = TfmsetCounts {
            lines: put_list(lines, counts.lines, &[line]),
            items: counts.items.saturating_add(line.count),
        };
        placed = put_all(items, placed, &kept.items);
        left = left.saturating_sub(u64::from(line.steps));
    }
    Ok((counts, placed))
}

/// Opens the font of a call, and sets its spans.
fn run(
    alloc: Global,
    call: SpanCall<'_>,
    lines: &mut [TfmsetLine],
    items: &mut [TfmsetPlaced],
    counts: &mut TfmsetCounts,
) -> u32
    ensures font { IsAnswerFor (IsNoCall call.entry.options.now call.entry.spans.now
        ⊎ IsOtherSize call.entry.options.now.size call.entry.font.now) (IsFont call.entry.font.now) result }
    ensures told { (value : FontValue) → IsGiven call.entry.font.now call.entry.options.now.size value
        → AreTold call.entry.with_items
        (spans_at value call.entry.options.now call.entry.text.now call.entry.spans.now)
        (items_at value call.entry.options.now call.entry.text.now call.entry.spans.now)
        result counts.old counts.new lines.old lines.new items.old items.new }
    ensures counts { result ≢ 0 → result ≢ 3 → counts.new ≡ counts.old }
    ensures kept { (result ≡ 1) ⊎ (result ≡ 4) → (lines.new ≡ lines.old) × (items.new ≡ items.old) }
{
    let Some(settings) = settings_for(call.options, call.spans) else {
        return RANGE;
    };
    let mut made = Vec::new(alloc);
    match open_font(alloc, call.font, settings.size, &mut made) {
        Ok(font) => {
            let job = SpanJob {
                font: &font,
                text: call.text,
                spans: call.spans,
                limit: settings.limit,
                call_limit: settings.call_limit,
                with_items: call.with_items,
            };
            let filled = fill_spans(alloc, &job, lines, items);
            tell(filled, call.with_items, lines, items, counts)
        }
        Err(code) => code,
    }
}

/// Sets spans of a text, each as one run. `font` is a TFM file, or a table that `tfmset_prepare` wrote. Returns: 0
/// after success, where `lines` has a result for each span, in order, `counts` has the numbers of results and of
/// their items, and the other elements are unchanged; 1 if the bytes are neither an accepted TFM file nor have the
/// header of a table; 2 if an allocation fails; 3 if `lines` is too short, where `counts` is as after 0; 4 if an option
/// or a span is out of range, or if the bytes have the header of a table, and the size is neither 0 nor the one in the
/// header. After 1 and 4 nothing is changed. After 2 `counts` is unchanged. After 2 and 3 the contents of the array are
/// unspecified.
#[unsafe(no_mangle)]
pub extern "C" fn tfmset_spans(
    alloc: Global,
    font: &[u8],
    options: &TfmsetOptions,
    text: &[u8],
    spans: &[TfmsetSpan],
    lines: &mut [TfmsetLine],
    counts: &mut TfmsetCounts,
) -> u32
    ensures font { IsAnswerFor (IsNoCall options.now spans.now ⊎ IsOtherSize options.now.size font.now)
        (IsFont font.now) result }
    ensures told { (value : FontValue) → IsGiven font.now options.now.size value → AreTold false
        (spans_at value options.now text.now spans.now) (items_at value options.now text.now spans.now)
        result counts.old counts.new lines.old lines.new [] [] }
    ensures counts { result ≢ 0 → result ≢ 3 → counts.new ≡ counts.old }
    ensures kept { (result ≡ 1) ⊎ (result ≡ 4) → lines.new ≡ lines.old }
{
    let call = SpanCall {
        font,
        options,
        text,
        spans,
        with_items: false,
    };
    run(alloc, call, lines, &mut [], counts)
}

/// Sets spans of a text as [`tfmset_spans`] does, and returns their items, too, each with the bytes of the text that it
/// comes from. The codes are those of `tfmset_spans`; after 3 `counts` has the lengths needed of both arrays.
#[unsafe(no_mangle)]
pub extern "C" fn tfmset_span_items(
    alloc: Global,
    font: &[u8],
    options: &TfmsetOptions,
    text: &[u8],
    spans: &[TfmsetSpan],
    lines: &mut [TfmsetLine],
    items: &mut [TfmsetPlaced],
    counts: &mut TfmsetCounts,
) -> u32
    ensures font { IsAnswerFor (IsNoCall options.now spans.now ⊎ IsOtherSize options.now.size font.now)
        (IsFont font.now) result }
    ensures told { (value : FontValue) → IsGiven font.now options.now.size value → AreTold true
        (spans_at value options.now text.now spans.now) (items_at value options.now text.now spans.now)
        result counts.old counts.new lines.old lines.new items.old items.new }
    ensures counts { result ≢ 0 → result ≢ 3 → counts.new ≡ counts.old }
    ensures kept { (result ≡ 1) ⊎ (result ≡ 4) → (lines.new ≡ lines.old) × (items.new ≡ items.old) }
{
    let call = SpanCall {
        font,
        options,
        text,
        spans,
        with_items: true,
    };
    run(alloc, call, lines, items, counts)
}
