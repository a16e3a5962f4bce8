ghost use Rattle.std.specs.Prelude.{◌≡◌, None, IfOk, OnErr};
ghost use Rattle.tfm_tables.specs.Font.{FontValue};
ghost use Rattle.spans.specs.PlaceLaws.{AreItemsBy, AreItemsOf, HasGrown, IsBounded};
ghost use Rattle.spans.specs.Spans.{outcome_of, refusal_of};

use crate::refusing::accepted_codes;
use crate::{PlacedItem, Span, SpanOutcome, SpanRefusal, SpanSize};
use lig_kern::{Ends, Item, RunItem, WordFault, WordFont, set_run_of};
use set_line::{Limit, OutOfMemory, total_width};
use std::alloc::Global;

/// Sets a span of a text as [`SpanSetter::set`] does, and appends its items to `out`.
#[tactic(auto, using(crate::proofs::OutcomeLemmas::outcomes))]
fn set_span<F: WordFont, O: RunItem>(
    font: &F,
    text: &[u8],
    span: &Span,
    limit: Limit,
    out: &mut Vec<O>,
) -> Result<SpanOutcome, OutOfMemory>
    ensures bounded { IfOk result (IsBounded limit) }
    ensures grown { IfOk result (HasGrown out.old.items out.new.items) }
    ensures ok { (value : FontValue) → F.is_of font.now value
        → IfOk result (λ outcome. outcome ≡ outcome_of value text.now span.now limit) }
    ensures placed { (value : FontValue) → F.is_of font.now value
        → IfOk result (AreItemsBy O.made value text.now span.now limit out.old.items out.new.items) }
    ensures unchanged { OnErr result (out.new.items ≡ out.old.items) }
    ensures memory { (value : FontValue) → F.is_of font.now value
        → OnErr result (refusal_of value text.now span.now ≡ None) }
{
    let codes = match accepted_codes(font, text, span) {
        Ok(codes) => codes,
        Err(refusal) => return Ok(SpanOutcome::Refused(refusal)),
    };
    let ends = Ends {
        offset: span.offset,
        left: span.left,
        hyphen: span.hyphen,
        right: span.right,
    };
    let before = out.len();
    match set_run_of(font, codes, ends, limit.get(), out) {
        Ok(steps) => Ok(SpanOutcome::Set(SpanSize {
            width: total_width(&out[before..]),
            items: out.len() - before,
            steps,
        })),
        Err(WordFault::TooManySteps) => Ok(SpanOutcome::Refused(SpanRefusal::Steps)),
        Err(WordFault::OutOfMemory) => Err(OutOfMemory),
    }
}

/// Sets spans one after the other, and keeps the memory of the list of items for the next span.
#[derive(Drop)]
pub struct SpanSetter {
    items: Vec<Item>,
}

impl SpanSetter {
    /// Returns a setter with an empty list. This allocates no memory.
    pub fn new(alloc: Global) -> Self {
        SpanSetter {
            items: Vec::new(alloc),
        }
    }

    /// Sets a span of a text, and returns its width, its number of items and its number of steps, or the
    /// reason why it is refused (The METAFONTbook, Appendix F; tex.web, sections 906 to 911). `limit` is the
    /// largest number of steps. With a `font` that isn't a source of the data of a font the outcome can be
    /// any.
    ///
    /// The error is that an allocation failed. A span that is refused before it is set gets this refusal even
    /// then.
    pub fn set<F: WordFont>(
        &mut self,
        font: &F,
        text: &[u8],
        span: &Span,
        limit: Limit,
    ) -> Result<SpanOutcome, OutOfMemory>
        ensures bounded { IfOk result (IsBounded limit) }
        ensures ok { (value : FontValue) → F.is_of font.now value
            → IfOk result (λ outcome. outcome ≡ outcome_of value text.now span.now limit) }
        ensures memory { (value : FontValue) → F.is_of font.now value
            → OnErr result (refusal_of value text.now span.now ≡ None) }
    {
        self.items.clear();
        set_span(font, text, span, limit, &mut self.items)
    }
}

/// Sets a span of a text as [`SpanSetter::set`] does, and appends its items to `out`,
/// each with the bytes of the text that it comes from. A character of the span comes from its own byte, and a
/// character that a ligature operation inserts from the bytes of the neighbours that the operation deletes.
/// The hyphen has an empty place at the end of the span, and a kern and a character for which nothing is
/// deleted have an empty place before what follows. The places follow one another from the start of the span
/// to its end: each byte of the span is in exactly one of them.
///
/// The outcome is that of `set`. After a refusal and after an error `out` is unchanged. The error is that an
/// allocation failed. A span that is refused before it is set gets this refusal even then.
pub fn place_span<F: WordFont>(
    font: &F,
    text: &[u8],
    span: &Span,
    limit: Limit,
    out: &mut Vec<PlacedItem>,
) -> Result<SpanOutcome, OutOfMemory>
    ensures bounded { IfOk result (IsBounded limit) }
    ensures grown { IfOk result (HasGrown out.old.items out.new.items) }
    ensures ok { (value : FontValue) → F.is_of font.now value
        → IfOk result (λ outcome. outcome ≡ outcome_of value text.now span.now limit) }
    ensures placed { (value : FontValue) → F.is_of font.now value
        → IfOk result (AreItemsOf value text.now span.now out.old.items out.new.items) }
    ensures unchanged { OnErr result (out.new.items ≡ out.old.items) }
    ensures memory { (value : FontValue) → F.is_of font.now value
        → OnErr result (refusal_of value text.now span.now ≡ None) }
{
    set_span(font, text, span, limit, out)
}
