ghost use Rattle.std.specs.Prelude.{◌≡◌, ◌<◌, ◌++◌, [], IfOk, IfErr, OnOk, if◌then◌else◌};
ghost use Rattle.tfm_tables.specs.Font.{FontValue, IsFontOf, IsRefusalOf};
ghost use Rattle.tfm_tables.specs.Character.{exists};
ghost use Rattle.font_texts.specs.Listing.{boundary_entries, char_line, char_lines, contents_of, header_entries, kern_lines, listing_end as end_of, listing_head as head_of, listing_of, param_layout as layout_of, param_lines, size_entries, step_lines};

use crate::appending::Pushed;
use crate::fields::pick;
use crate::rows::{
    push_char_line, push_flag_where, push_length_entry, push_length_line, push_number_entry,
    push_number_or_none, push_number_where, push_step_line, push_table, push_text_where,
};
use crate::{ListLayout, OutputFormat};
use std::alloc::{AllocError, Global};
use tex_sizes::LengthUnit;
use tfm_tables::{Font, FontFault, FontMetrics, LeftSide};
use tfm_words::Size;

/// Returns the listing of a font, as lines of text or as a JSON object in one line: its check sum, design size
/// and size; the coding scheme, the family, the seven-bit flag and the face, if its header contains them; the
/// boundaries; the characters, instructions, kerns and parameters. Dimensions are in the unit of the layout,
/// except the slant, which is a number of units of 2^-20. Fails if an allocation fails.
pub fn list_text(alloc: Global, font: &Font, layout: ListLayout) -> Result<Vec<u8>, AllocError>
    ensures { IfOk result (λ text. text.items ≡ listing_of layout font.now) }
{
    text_of(alloc, font, layout)
}

/// Reads a font at `size`, or at its design size for `None`, and returns its listing, as `list_text` does.
/// The tables that are needed only to set lines aren't made. The error is that of `FontMetrics::read`, or
/// `OutOfMemory` if an allocation fails after it.
pub fn list_file_text(
    alloc: Global,
    bytes: &[u8],
    size: Option<Size>,
    layout: ListLayout,
) -> Result<Vec<u8>, FontFault>
    ensures text { IfOk result (λ text. (f : FontValue) × IsFontOf bytes.now size f
        × (text.items ≡ listing_of layout f)) }
    ensures fault { IfErr result (IsRefusalOf bytes.now) }
{
    let font = FontMetrics::read(alloc, bytes, size)?;
    match text_of(alloc, &font, layout) {
        Ok(text) => Ok(text),
        Err(_) => Err(FontFault::OutOfMemory),
    }
}

#[tactic(auto, using(crate::proofs::ListingLemmas::joined), unfolding(crate::specs::Listing::listing_of))]
fn text_of(alloc: Global, font: &FontMetrics, layout: ListLayout) -> Result<Vec<u8>, AllocError>
    ensures { IfOk result (λ text. text.items ≡ listing_of layout font.now) }
{
    let mut text = Vec::new(alloc);
    push_head(&mut text, layout)?;
    push_contents(alloc, &mut text, font, layout)?;
    push_end(&mut text, layout.format)?;
    Ok(text)
}

/// Appends what a listing begins with.
#[tactic(auto, unfolding(crate::specs::Listing::listing_head))]
pub fn push_head(text: &mut Vec<u8>, layout: ListLayout) -> Pushed
    ensures { OnOk result (text.new.items ≡ text.old.items ++ head_of layout) }
{
    match layout.format {
        OutputFormat::Text => Ok(()),
        OutputFormat::Json => {
            text.extend_from_slice(b"{\"unit\":\"")?;
            text.extend_from_slice(layout.unit.name().as_bytes())?;
            text.extend_from_slice(b"\"")
        }
    }
}

/// Appends the end of a listing.
pub fn push_end(text: &mut Vec<u8>, format: OutputFormat) -> Pushed
    ensures { OnOk result (text.new.items ≡ text.old.items ++ end_of format) }
{
    text.extend_from_slice(pick(format, b"", b"}\n"))
}

/// Appends the entries and the tables of a font.
#[tactic(auto, using(crate::proofs::ListingLemmas::joined), unfolding(crate::specs::Listing::contents_of))]
pub fn push_contents(
    alloc: Global,
    text: &mut Vec<u8>,
    font: &FontMetrics,
    layout: ListLayout,
) -> Pushed
    ensures { OnOk result (text.new.items ≡ text.old.items ++ contents_of layout font.now) }
{
    push_sizes(text, font, layout)?;
    push_header(text, font, layout.format)?;
    push_boundaries(text, font, layout.format)?;
    let chars = chars(alloc, font, layout)?;
    push_table(text, layout.format, b"chars", chars.as_slice())?;
    let steps = steps(alloc, font, layout)?;
    push_table(text, layout.format, b"steps", steps.as_slice())?;
    let kerns = kerns(alloc, font, layout)?;
    push_table(text, layout.format, b"kerns", kerns.as_slice())?;
    let params = params(alloc, font, layout)?;
    push_table(text, layout.format, b"params", params.as_slice())
}

#[tactic(auto, using(crate::proofs::ListingLemmas::joined), unfolding(crate::specs::Listing::size_entries))]
fn push_sizes(text: &mut Vec<u8>, font: &FontMetrics, layout: ListLayout) -> Pushed
    ensures { OnOk result (text.new.items ≡ text.old.items ++ size_entries layout font.now) }
{
    push_number_entry(text, layout.format, b"checksum", font.check_sum())?;
    push_length_entry(text, layout, b"design", i64::from(font.design().get()))?;
    push_length_entry(text, layout, b"size", i64::from(font.size().get()))
}

#[tactic(auto, using(crate::proofs::ListingLemmas::joined), unfolding(crate::specs::Listing::header_entries))]
fn push_header(text: &mut Vec<u8>, font: &FontMetrics, format: OutputFormat) -> Pushed
    ensures { OnOk result (text.new.items ≡ text.old.items ++ header_entries format font.now) }
{
    push_text_where(text, format, b"coding", font.coding())?;
    push_text_where(text, format, b"family", font.family())?;
    push_flag_where(text, format, b"sevenbit", font.seven_bit())?;
    push_number_where(text, format, b"face", font.face())
}

#[tactic(auto, using(crate::proofs::ListingLemmas::joined), unfolding(crate::specs::Listing::boundary_entries))]
fn push_boundaries(text: &mut Vec<u8>, font: &FontMetrics, format: OutputFormat) -> Pushed
    ensures { OnOk result (text.new.items ≡ text.old.items ++ boundary_entries format font.now) }
{
    push_number_or_none(text, format, b"right", font.right_boundary())?;
    push_number_or_none(text, format, b"left", font.start(LeftSide::Boundary))
}

#[tactic(auto, unfolding(crate::specs::Listing::char_line))]
fn push_char_where(text: &mut Vec<u8>, font: &FontMetrics, code: u8, layout: ListLayout) -> Pushed
    ensures { OnOk result (text.new.items ≡ text.old.items
        ++ (if exists font.now.words code then char_line layout font.now code else [])) }
{
    let Some(metrics) = font.metrics(code) else {
        return Ok(());
    };
    let Some(tag) = font.tag(code) else {
        return Ok(());
    };
    push_char_line(text, layout, code, metrics, tag)
}

/// Returns the lines of the characters.
#[tactic(auto, using(crate::proofs::ListingLemmas::more), unfolding(crate::specs::Listing::char_lines))]
fn chars(alloc: Global, font: &FontMetrics, layout: ListLayout) -> Result<Vec<u8>, AllocError>
    ensures { IfOk result (λ lines. lines.items ≡ char_lines layout font.now) }
{
    let mut text = Vec::new(alloc);
    for code in 0..256u16 {
        push_char_where(&mut text, font, code as u8, layout)?;
    }
    Ok(text)
}

/// Returns the lines of the instructions.
#[tactic(auto, using(crate::proofs::ListingLemmas::more), unfolding(crate::specs::Listing::step_lines, crate::specs::Listing::step_line))]
fn steps(alloc: Global, font: &FontMetrics, layout: ListLayout) -> Result<Vec<u8>, AllocError>
    ensures { IfOk result (λ lines. lines.items ≡ step_lines layout font.now) }
{
    let mut text = Vec::new(alloc);
    for i in 0..font.steps() {
        push_step_line(&mut text, layout, font, i, font.step(i))?;
    }
    Ok(text)
}

/// Returns the lines of the kerns.
#[tactic(auto, using(crate::proofs::ListingLemmas::more), unfolding(crate::specs::Listing::kern_lines, crate::specs::Listing::kern_line))]
fn kerns(alloc: Global, font: &FontMetrics, layout: ListLayout) -> Result<Vec<u8>, AllocError>
    ensures { IfOk result (λ lines. lines.items ≡ kern_lines layout font.now) }
{
    let mut text = Vec::new(alloc);
    for k in 0..font.kerns() {
        push_length_line(&mut text, layout, b"kern", k, font.kern(k))?;
    }
    Ok(text)
}

/// Returns the lines of the parameters.
#[tactic(auto, using(crate::proofs::ListingLemmas::more), unfolding(crate::specs::Listing::param_lines, crate::specs::Listing::param_line))]
fn params(alloc: Global, font: &FontMetrics, layout: ListLayout) -> Result<Vec<u8>, AllocError>
    ensures { IfOk result (λ lines. lines.items ≡ param_lines layout font.now) }
{
    let mut text = Vec::new(alloc);
    for i in 0..font.params() {
        let layout = param_layout(layout, i + 1);
        push_length_line(&mut text, layout, b"param", i + 1, font.param(i + 1))?;
    }
    Ok(text)
}

/// Returns the layout of a parameter: the slant, number 1, isn't a dimension.
fn param_layout(layout: ListLayout, number: usize) -> ListLayout
    ensures { result ≡ layout_of layout number }
{
    ListLayout {
        unit: if number == 1 {
            LengthUnit::ScaledPoints
        } else {
            layout.unit
        },
        ..layout
    }
}
