//! A span as C passes it, and its result and its items as C gets them.
ghost use Rattle.std.specs.Prelude.{◌≡◌, MatchOption};
ghost use Rattle.std.specs.List.{list_all};
ghost use Rattle.tfmset_c.specs.Options.{IsReadAs};
ghost use Rattle.tfmset_c.specs.Spans.{IsNoCall, is_in_range, placed_told, span_of, span_told};

use crate::lines::{TfmsetLine, item_for_c, refused_for_c};
use crate::options::{Settings, TfmsetOptions};
use spans::{PlacedItem, Span, SpanOutcome, SpanRefusal};

/// A part of a text that is set as one run.
#[repr(C)]
#[derive(Clone, Copy, Debug, PartialEq, Eq)]
pub struct TfmsetSpan {
    /// The byte offset of the first code in the text.
    pub offset: usize,
    /// The number of codes.
    pub length: usize,
    /// The sum of 1, if the left boundary of the font precedes the codes, and 2, if the right boundary follows them.
    pub edges: u32,
    /// The code that is set after the last one, or 256 for none.
    pub hyphen: u32,
}

/// An item of a span, with the bytes of the text that it comes from.
#[repr(C)]
#[derive(Clone, Copy, Debug, PartialEq, Eq)]
pub struct TfmsetPlaced {
    /// The byte offset of the first of these bytes in the text.
    pub offset: usize,
    /// The number of these bytes.
    pub length: usize,
    /// 0: a character. 1: a kern.
    pub kind: u32,
    /// The code of a character. Otherwise 0.
    pub code: u32,
    /// The width in sp.
    pub width: i32,
}

/// Returns whether the edges and the hyphens of all spans are in range.
fn are_in_range(spans: &[TfmsetSpan]) -> bool
    ensures { result ≡ list_all is_in_range spans.now }
{
    spans
        .iter()
        .all(|span| span.edges <= 3 && span.hyphen <= 256)
}

/// Returns these options as settings, or `None` if one of them, or a span, is out of range.
pub fn settings_for(options: &TfmsetOptions, spans: &[TfmsetSpan]) -> Option<Settings>
    ensures { MatchOption result (IsNoCall options.now spans.now)
        (λ settings. IsReadAs options.now settings × (IsNoCall options.now spans.now → ⊥)) }
{
    if options.policy != 0 || options.crlf != 0 || !are_in_range(spans) {
        return None;
    }
    options.in_range()
}

/// Returns a span.
#[tactic(auto, unfolding(crate::specs::Spans::span_of))]
pub fn span_for(span: &TfmsetSpan) -> Span
    ensures { result ≡ span_of span.now }
{
    Span {
        offset: span.offset,
        length: span.length,
        left: span.edges == 1 || span.edges == 3,
        right: span.edges >= 2,
        hyphen: u8::try_from(span.hyphen).ok(),
    }
}

/// Returns the result of a span as C gets it. `limit` is the largest number of steps, and `first` is the index of its
/// first item.
#[tactic(auto, unfolding(crate::specs::Spans::span_told))]
pub fn span_for_c(outcome: SpanOutcome, span: &TfmsetSpan, limit: u32, first: usize) -> TfmsetLine
    ensures { result ≡ span_told limit first span.now outcome }
{
    match outcome {
        SpanOutcome::Set(size) => TfmsetLine {
            width: size.width,
            count: size.items,
            steps: size.steps,
            ..refused_for_c(first, 0, 0, 0, 0)
        },
        SpanOutcome::Refused(refusal) => match refusal {
            SpanRefusal::Missing { offset, code } => refused_for_c(first, 1, offset, 0, code),
            SpanRefusal::TooLong => refused_for_c(first, 2, span.length, 0, 0),
            SpanRefusal::Steps => refused_for_c(first, 3, 0, limit, 0),
            SpanRefusal::Outside => refused_for_c(first, 4, 0, 0, 0),
        },
    }
}

/// Returns an item as C gets it.
#[tactic(auto, unfolding(crate::specs::Spans::placed_told))]
pub fn placed_for_c(placed: PlacedItem) -> TfmsetPlaced
    ensures { result ≡ placed_told placed }
{
    let item = item_for_c(placed.item);
    TfmsetPlaced {
        offset: placed.place.start,
        // For the proof: the end is never before the start, but the contract of a table's items doesn't say so.
        length: placed.place.end.saturating_sub(placed.place.start),
        kind: item.kind,
        code: item.code,
        width: item.width,
    }
}
