//! Refuses a span before it is set.
ghost use Rattle.std.specs.Prelude.{◌≡◌, ◌≤◌, ◌<◌, ◌+◌, length, None, Some, IfOk, IfSome, MatchOption, MatchResult};
ghost use Rattle.std.specs.List.{position};
ghost use Rattle.tfm_tables.specs.Font.{FontValue};
ghost use Rattle.spans.specs.Spans.{HasCodes, codes_of as codes_in, is_missing, refusal_of};

use crate::{Span, SpanRefusal};
use lig_kern::WordFont;

/// The largest number of codes of a span, without its hyphen.
pub const MOST_CODES: usize = 65_535;

/// Returns the codes of a span, or `None` if the end of the span is after the end of the text.
fn codes_of<'a>(text: &'a [u8], span: &Span) -> Option<&'a [u8]>
    ensures { MatchOption result (length text.now < span.now.offset + span.now.length)
        (λ codes. (codes.now ≡ codes_in text.now span.now)
        × (span.now.offset + span.now.length ≤ length text.now)) }
{
    if span.offset <= text.len() && span.length <= text.len() - span.offset {
        Some(&text[span.offset..span.offset + span.length])
    } else {
        None
    }
}

/// Returns the index of the first code that is no character of the font.
fn first_missing<F: WordFont>(font: &F, codes: &[u8]) -> Option<usize>
    ensures within { IfSome result (λ at. at < length codes.now) }
    ensures first { (value : FontValue) → F.is_of font.now value
        → result ≡ position (is_missing value) codes.now }
{
    for at in 0..codes.len() {
        if !font.exists(codes[at]) {
            return Some(at);
        }
    }
    None
}

/// Returns the codes of a span, or the refusal that is known before the span is set. This allocates no
/// memory.
#[tactic(auto, using(crate::proofs::RefusalLemmas::refusals))]
pub(crate) fn accepted_codes<'a, F: WordFont>(
    font: &F,
    text: &'a [u8],
    span: &Span,
) -> Result<&'a [u8], SpanRefusal>
    ensures codes { IfOk result (λ codes. HasCodes text.now span.now codes.now) }
    ensures refusal { (value : FontValue) → F.is_of font.now value → MatchResult result
        (λ codes. refusal_of value text.now span.now ≡ None)
        (λ refusal. refusal_of value text.now span.now ≡ Some refusal) }
{
    let Some(codes) = codes_of(text, span) else {
        return Err(SpanRefusal::Outside);
    };
    if codes.len() > MOST_CODES {
        return Err(SpanRefusal::TooLong);
    }
    if let Some(at) = first_missing(font, codes) {
        let offset = span.offset + at;
        return Err(SpanRefusal::Missing {
            offset,
            code: codes[at],
        });
    }
    let offset = span.offset + span.length;
    match span.hyphen {
        Some(code) if !font.exists(code) => Err(SpanRefusal::Missing { offset, code }),
        _ => Ok(codes),
    }
}
