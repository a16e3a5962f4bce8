ghost use Rattle.std.specs.Prelude.{◌≡◌, ◌++◌, None, IfOk, IfErr, OnOk};
ghost use Rattle.formats.specs.declared.listing.OutputFormat.TheVariants.{Text};
ghost use Rattle.font_texts.specs.CountsText.{IsHeadRefusalOf, count_rows, counts_text_of, head_rows, head_fault_of, count_rows_text};

use crate::OutputFormat;
use crate::appending::Pushed;
use crate::rows::push_number_entry;
use std::alloc::{AllocError, Global};
use tfm_tables::FontFault;
use tfm_words::{Counts, Size, design_size};

/// The capacity for the longest text: twelve lines of at most 9 bytes, and one of at most 17, are 125
/// bytes.
const TEXT_ROOM: usize = 128;

/// Returns the twelve counts of a font and its design size in scaled points (sp), one per line. The names
/// and the order of the counts are those of tftopl.web, section 8. The tables of the font aren't checked.
///
/// The error is the first error of the counts or the design size. It is `OutOfMemory` only if they have none
/// and an allocation failed.
pub fn counts_text(alloc: Global, bytes: &[u8]) -> Result<Vec<u8>, FontFault>
    ensures accepted { IfOk result (λ text. head_fault_of bytes.now ≡ None) }
    ensures text { IfOk result (λ text. text.items ≡ counts_text_of bytes.now) }
    ensures fault { IfErr result (IsHeadRefusalOf bytes.now) }
{
    let counts = Counts::read(bytes).map_err(FontFault::Counts)?;
    let design = design_size(bytes, &counts).map_err(FontFault::Design)?;
    text_of(alloc, &counts, design).map_err(|_| FontFault::OutOfMemory)
}

/// Returns the text of these counts and this design size.
fn text_of(alloc: Global, counts: &Counts, design: Size) -> Result<Vec<u8>, AllocError>
    ensures { IfOk result (λ text. text.items ≡ count_rows_text Text (head_rows counts.now design)) }
{
    let mut text = Vec::with_capacity(alloc, TEXT_ROOM)?;
    push_counts(&mut text, OutputFormat::Text, counts)?;
    push_number_entry(&mut text, OutputFormat::Text, b"design", design.get())?;
    Ok(text)
}

/// Appends an entry for each of the twelve counts, in the order of the file.
#[tactic(auto, using(crate::proofs::ListingLemmas::joined), unfolding(crate::specs::CountsText::count_rows))]
pub fn push_counts(text: &mut Vec<u8>, format: OutputFormat, counts: &Counts) -> Pushed
    ensures { OnOk result (text.new.items ≡ text.old.items ++ count_rows_text format (count_rows counts.now)) }
{
    push_number_entry(text, format, b"lf", counts.lf())?;
    push_number_entry(text, format, b"lh", counts.lh())?;
    push_number_entry(text, format, b"bc", counts.bc())?;
    push_number_entry(text, format, b"ec", counts.ec())?;
    push_number_entry(text, format, b"nw", counts.nw())?;
    push_number_entry(text, format, b"nh", counts.nh())?;
    push_number_entry(text, format, b"nd", counts.nd())?;
    push_number_entry(text, format, b"ni", counts.ni())?;
    push_number_entry(text, format, b"nl", counts.nl())?;
    push_number_entry(text, format, b"nk", counts.nk())?;
    push_number_entry(text, format, b"ne", counts.ne())?;
    push_number_entry(text, format, b"np", counts.np())
}
