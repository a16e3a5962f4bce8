//! Appends the names and the values of a listing in its two formats.
ghost use Rattle.std.specs.Prelude.{◌≡◌, ◌++◌, OnOk};
ghost use Rattle.font_texts.specs.ListingFields.{length_field};
ghost use Rattle.font_texts.specs.ListingFormats.{field_name, hidden_name, in_format, length_in, length_quote as quote_of, name_in, word_in};

use crate::appending::Pushed;
use crate::{ListLayout, OutputFormat};
use itoa::Integer;
use tex_sizes::{LengthUnit, push_length};
use tfm_words::push_number;

/// Returns the first of these in text, and the second one in JSON.
pub fn pick<'a>(format: OutputFormat, text: &'a [u8], json: &'a [u8]) -> &'a [u8]
    ensures { result.now ≡ in_format format text.now json.now }
{
    match format {
        OutputFormat::Text => text,
        OutputFormat::Json => json,
    }
}

/// Appends `before`, a name, and what follows it.
#[tactic(auto, using(crate::proofs::ListingLemmas::joined))]
pub fn push_name(text: &mut Vec<u8>, format: OutputFormat, before: &[u8], name: &[u8]) -> Pushed
    ensures { OnOk result (text.new.items ≡ text.old.items ++ (before.now ++ name_in format name.now)) }
{
    text.extend_from_slice(before)?;
    text.extend_from_slice(name)?;
    text.extend_from_slice(pick(format, b" ", b"\":"))
}

/// Appends the name of a field.
#[tactic(auto, unfolding(crate::specs::ListingFormats::field_name))]
pub fn push_field_name(text: &mut Vec<u8>, format: OutputFormat, name: &[u8]) -> Pushed
    ensures { OnOk result (text.new.items ≡ text.old.items ++ field_name format name.now) }
{
    push_name(text, format, pick(format, b" ", b",\""), name)
}

/// Appends the name of a field that text doesn't have.
#[tactic(auto, unfolding(crate::specs::ListingFormats::hidden_name))]
pub fn push_hidden_name(text: &mut Vec<u8>, format: OutputFormat, name: &[u8]) -> Pushed
    ensures { OnOk result (text.new.items ≡ text.old.items ++ hidden_name format name.now) }
{
    match format {
        OutputFormat::Text => text.extend_from_slice(b" "),
        OutputFormat::Json => push_name(text, format, b",\"", name),
    }
}

/// Appends a name that is a value.
#[tactic(auto, unfolding(crate::specs::ListingFormats::word_in))]
pub fn push_word(text: &mut Vec<u8>, format: OutputFormat, word: &[u8]) -> Pushed
    ensures { OnOk result (text.new.items ≡ text.old.items ++ word_in format word.now) }
{
    match format {
        OutputFormat::Text => text.extend_from_slice(word),
        OutputFormat::Json => {
            text.extend_from_slice(b"\"")?;
            text.extend_from_slice(word)?;
            text.extend_from_slice(b"\"")
        }
    }
}

/// Returns what precedes and follows a length: a double quote in JSON, if the unit isn't sp.
#[tactic(auto, unfolding(crate::specs::ListingFormats::length_quote))]
fn length_quote(layout: ListLayout) -> &'static [u8]
    ensures { result.now ≡ quote_of layout.format layout.unit }
{
    match (layout.format, layout.unit) {
        (OutputFormat::Text, _) | (OutputFormat::Json, LengthUnit::ScaledPoints) => b"",
        (OutputFormat::Json, _) => b"\"",
    }
}

/// Appends a length of so many sp.
#[tactic(auto, using(crate::proofs::ListingLemmas::joined), unfolding(crate::specs::ListingFormats::length_in))]
pub fn push_length_in(text: &mut Vec<u8>, layout: ListLayout, sp: i64) -> Pushed
    ensures { OnOk result (text.new.items ≡ text.old.items ++ length_in layout sp) }
{
    let quote = length_quote(layout);
    push_length(text, quote, sp, layout.unit)?;
    text.extend_from_slice(quote)
}

/// Appends a field with a length of so many sp.
#[tactic(auto, using(crate::proofs::ListingLemmas::joined))]
pub fn push_length_field(text: &mut Vec<u8>, layout: ListLayout, name: &[u8], sp: i64) -> Pushed
    ensures { OnOk result (text.new.items ≡ text.old.items ++ length_field layout name.now sp) }
{
    push_field_name(text, layout.format, name)?;
    push_length_in(text, layout, sp)
}

/// Appends a field with a number.
#[tactic(auto, using(crate::proofs::ListingLemmas::joined))]
pub fn push_number_field<I: Integer>(
    text: &mut Vec<u8>,
    format: OutputFormat,
    name: &[u8],
    number: I,
) -> Pushed
    ensures { OnOk result (text.new.items ≡ text.old.items ++ (field_name format name.now ++ I.text number)) }
{
    push_field_name(text, format, name)?;
    push_number(text, b"", number)
}
