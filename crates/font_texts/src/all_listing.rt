//! The full listing of a font: its counts, listing, extensible recipes, and each of its lf words.
ghost use Rattle.std.specs.Prelude.{◌≡◌, ◌+◌, ◌*◌, ◌<◌, ◌≤◌, ◌++◌, length, IfOk, IfErr, OnOk};
ghost use Rattle.tfm_words.specs.declared.table.Table.TheVariants.{Exten};
ghost use Rattle.tfm_tables.specs.Font.{FontValue, IsFontOf, IsRefusalOf};
ghost use Rattle.tfm_tables.specs.Table.{entries_of};
ghost use Rattle.font_texts.specs.AllListing.{all_listing_of, piece_fields, recipe_line, recipe_lines as recipe_lines_of, word_line, word_lines as word_lines_of};
ghost use Rattle.font_texts.specs.ListingFormats.{word_in};
ghost use Rattle.font_texts.specs.ListingWords.{hex_text};

use crate::appending::{Pushed, push_hex};
use crate::counts::push_counts;
use crate::fields::{pick, push_hidden_name, push_number_field};
use crate::listing::{push_contents, push_end, push_head};
use crate::rows::{push_line_end, push_line_start, push_table};
use crate::{ListLayout, OutputFormat};
use std::alloc::{AllocError, Global};
use tfm_tables::{FontFault, FontMetrics};
use tfm_words::{Size, word_at};

/// Reads a font at `size`, or at its design size for `None`, and returns its full listing in this layout: the
/// twelve counts, the contents of the listing, a line for each extensible recipe (tftopl.web, section 14), and a
/// line for each of the lf words of the file (bytes after these aren't part of the font). The error is that
/// of `FontMetrics::read`, or `OutOfMemory` if an allocation fails after it.
pub fn list_all_text(
    alloc: Global,
    bytes: &[u8],
    size: Option<Size>,
    layout: ListLayout,
) -> Result<Vec<u8>, FontFault>
    ensures text { IfOk result (λ text. (f : FontValue) × IsFontOf bytes.now size f
        × (text.items ≡ all_listing_of layout f)) }
    ensures fault { IfErr result (IsRefusalOf bytes.now) }
{
    let font = FontMetrics::read(alloc, bytes, size)?;
    match text_of(alloc, &font, layout) {
        Ok(text) => Ok(text),
        Err(_) => Err(FontFault::OutOfMemory),
    }
}

/// Returns the full listing of a font.
#[tactic(auto, using(crate::proofs::ListingLemmas::joined), unfolding(crate::specs::AllListing::all_listing_of))]
fn text_of(alloc: Global, font: &FontMetrics, layout: ListLayout) -> Result<Vec<u8>, AllocError>
    ensures { IfOk result (λ text. text.items ≡ all_listing_of layout font.now) }
{
    let mut text = Vec::new(alloc);
    push_head(&mut text, layout)?;
    push_counts(&mut text, layout.format, font.counts())?;
    push_contents(alloc, &mut text, font, layout)?;
    let recipes = recipe_lines(alloc, layout.format, font)?;
    push_table(&mut text, layout.format, b"recipes", recipes.as_slice())?;
    let words = word_lines(alloc, layout.format, font)?;
    push_table(&mut text, layout.format, b"words", words.as_slice())?;
    push_end(&mut text, layout.format)?;
    Ok(text)
}

/// Returns the lines of the extensible recipes.
#[tactic(auto, using(crate::proofs::ListingLemmas::more), unfolding(crate::specs::AllListing::recipe_lines))]
fn recipe_lines(
    alloc: Global,
    format: OutputFormat,
    font: &FontMetrics,
) -> Result<Vec<u8>, AllocError>
    ensures { IfOk result (λ lines. lines.items ≡ recipe_lines_of format font.now) }
{
    let mut text = Vec::new(alloc);
    for i in 0..font.recipes() {
        push_recipe(&mut text, format, font, i)?;
    }
    Ok(text)
}

#[tactic(auto, using(crate::proofs::ListingLemmas::joined), unfolding(crate::specs::ListingFormats::line_of, crate::specs::AllListing::recipe_line))]
fn push_recipe(text: &mut Vec<u8>, format: OutputFormat, font: &FontMetrics, i: usize) -> Pushed
    requires { i < entries_of font.now.words Exten }
    ensures { OnOk result (text.new.items ≡ text.old.items ++ recipe_line format font.now i) }
{
    push_line_start(text, format, b"recipe", i)?;
    push_pieces(text, format, font.recipe(i))?;
    push_line_end(text, format)
}

#[tactic(auto, using(crate::proofs::ListingLemmas::joined), unfolding(crate::specs::AllListing::piece_fields))]
fn push_pieces(text: &mut Vec<u8>, format: OutputFormat, recipe: [u8; 4]) -> Pushed
    ensures { OnOk result (text.new.items ≡ text.old.items ++ piece_fields format recipe) }
{
    push_number_field(text, format, b"top", recipe[0])?;
    push_number_field(text, format, b"mid", recipe[1])?;
    push_number_field(text, format, b"bot", recipe[2])?;
    push_number_field(text, format, b"rep", recipe[3])
}

/// Returns the lines of the words.
#[tactic(auto, using(crate::proofs::ListingLemmas::more), unfolding(crate::specs::AllListing::word_lines))]
fn word_lines(
    alloc: Global,
    format: OutputFormat,
    font: &FontMetrics,
) -> Result<Vec<u8>, AllocError>
    ensures { IfOk result (λ lines. lines.items ≡ word_lines_of format font.now) }
{
    let mut text = Vec::new(alloc);
    for i in 0..usize::from(font.counts().lf()) {
        push_word_line(&mut text, format, font.words(), i)?;
    }
    Ok(text)
}

#[tactic(auto, using(crate::proofs::ListingLemmas::joined), unfolding(crate::specs::ListingFormats::line_of, crate::specs::AllListing::word_line))]
fn push_word_line(text: &mut Vec<u8>, format: OutputFormat, words: &[u8], i: usize) -> Pushed
    requires { 4 * i + 4 ≤ length words.now }
    ensures { OnOk result (text.new.items ≡ text.old.items ++ word_line format words.now i) }
{
    push_line_start(text, format, b"word", i)?;
    push_hidden_name(text, format, b"bytes")?;
    push_digits(text, format, &word_at(words, i))?;
    push_line_end(text, format)
}

/// Appends the hexadecimal digits of these bytes.
#[tactic(auto, using(crate::proofs::ListingLemmas::joined), unfolding(crate::specs::ListingFormats::word_in))]
fn push_digits(text: &mut Vec<u8>, format: OutputFormat, bytes: &[u8]) -> Pushed
    ensures { OnOk result (text.new.items ≡ text.old.items ++ word_in format (hex_text bytes.now)) }
{
    let quote = pick(format, b"", b"\"");
    text.extend_from_slice(quote)?;
    push_hex(text, bytes)?;
    text.extend_from_slice(quote)
}
