//! The refusals that are known before a line is set. Finding them needs no memory.
ghost use Rattle.std.specs.Prelude.{◌≡◌, flat_map};
ghost use Rattle.std.specs.List.{find};
ghost use Rattle.std.specs.Option.{option_map, option_or};
ghost use Rattle.run_plan.specs.declared.policy.Policy.TheVariants.{Refuse as RefusePolicy};
ghost use Rattle.set_line.specs.declared.outcome.LineRefusal.TheVariants.{Missing};
ghost use Rattle.set_line.specs.declared.records.text_refusal.TextRefusal.TheVariants.{Line};
ghost use Rattle.set_line.specs.Pieces.{is_neither as is_neither_in};
ghost use Rattle.encodings.specs.Lines.{elements_at};
ghost use Rattle.line_records.specs.Results.{missing_code_in, refusal_in, uncoded_in, utf8_refusal};

use crate::{RecordOf, SourceLine};
use encodings::{Encoding, Place, Places, codes_of, utf8_fault};
use set_line::{LineRefusal, MOST_BYTES, Policy, Terms, TextRefusal};
use tfm_tables::Font;

/// Returns whether a code is neither a space nor a character of the font.
fn is_neither(font: &Font, code: u8) -> bool
    ensures { result ≡ is_neither_in font.now code }
{
    code != b' ' && !font.exists(code)
}

/// Returns the first of these codes that is neither a space nor a character of the font.
fn first_missing_code(font: &Font, codes: &[u8]) -> Option<u8>
    ensures { result ≡ find (is_neither_in font.now) codes.now }
{
    codes.iter().copied().find(|code| is_neither(font, *code))
}

/// Returns the refusal for the first missing code among those of the character at an offset.
fn missing_code(font: &Font, offset: usize, codes: &[u8]) -> Option<TextRefusal>
    ensures { result ≡ option_map (λ code. Line (Missing offset code)) (find (is_neither_in font.now) codes.now) }
{
    let code = first_missing_code(font, codes)?;
    Some(TextRefusal::Line(LineRefusal::Missing { offset, code }))
}

/// Returns the refusal of a line with these characters, if missing characters are refused. A character without codes
/// comes before a code that isn't a character of the font, also if it is behind it in the line.
#[tactic(auto, using(crate::proofs::RefusalLemmas::steps))]
fn refusal_of(font: &Font, encoding: Encoding, places: Places<'_>) -> Option<TextRefusal>
    ensures { result ≡ option_or (uncoded_in RefusePolicy encoding.entry places.entry)
        (missing_code_in RefusePolicy font.now (flat_map (elements_at encoding.entry) places.entry)) }
{
    let mut missing = None;
    for place in places {
        let Place { offset, character } = place;
        let Some(codes) = codes_of(encoding, character) else {
            return Some(TextRefusal::Uncoded { offset, character });
        };
        if missing.is_none() {
            missing = missing_code(font, offset, codes);
        }
    }
    missing
}

/// Returns the refusal of a line in UTF-8 that is known before it is set.
#[tactic(auto, using(crate::proofs::RefusalLemmas::refusals), unfolding(crate::specs::Results::utf8_refusal))]
fn find_in_text(terms: &Terms, encoding: Encoding, line: SourceLine<'_>) -> Option<TextRefusal>
    ensures { result ≡ utf8_refusal terms.now encoding.entry line.entry.first line.entry.bytes.now }
{
    if line.bytes.len() > MOST_BYTES {
        return Some(TextRefusal::Line(LineRefusal::TooLong(line.bytes.len())));
    }
    let Some(places) = Places::of_line(line.first, line.bytes) else {
        return Some(TextRefusal::NotUtf8(utf8_fault(line.bytes)?));
    };
    match terms.policy() {
        Policy::Refuse => refusal_of(terms.font(), encoding, places),
        Policy::Skip => None,
    }
}

/// Returns the refusal of a line that is known before it is set.
#[tactic(auto, unfolding(crate::specs::Results::refusal_in))]
pub(crate) fn find_refusal(of: &RecordOf<'_>, line: SourceLine<'_>) -> Option<TextRefusal>
    ensures { result ≡ refusal_in of.now.terms.now of.now.encoding line.entry.first line.entry.bytes.now }
{
    match of.encoding {
        None => Some(TextRefusal::Line(set_line::find_refusal(of.terms, line.bytes)?)),
        Some(encoding) => find_in_text(of.terms, encoding, line),
    }
}
