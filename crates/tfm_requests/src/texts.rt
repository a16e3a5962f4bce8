//! The output about a font: its counts, its listing and its pairs.
ghost use Rattle.std.specs.Prelude.{Option, ◌≡◌, ◌≢◌, ◌↔◌, ◌⊎◌, List, Some, Err, IfErr, IfOk, OnOk};
ghost use Rattle.std.specs.Io.KnownBytes.{Appends};
ghost use Rattle.encodings.specs.declared.encoding.Encoding.{Encoding as EncodingValue};
ghost use Rattle.font_texts.specs.CountsText.{counts_text_of, head_fault_of};
ghost use Rattle.font_texts.specs.Listing.{listing_of};
ghost use Rattle.formats.specs.declared.listing.OutputFormat.TheVariants.{Text};
ghost use Rattle.tex_sizes.specs.declared.length_unit.LengthUnit.TheVariants.{ScaledPoints};
ghost use Rattle.tfm_tables.specs.Font.{FontValue, IsFontOf, IsRefusalOf};
ghost use Rattle.tfm_tables.specs.declared.fault.FontFault.{FontFault as Fault};
ghost use Rattle.tfm_requests.specs.Causes.{IsFontError, IsHeadError, IsTextCause};
ghost use Rattle.tfm_requests.specs.Known.{OfKnown, font_bytes_of};
ghost use Rattle.tfm_requests.specs.Requests.{IsCountsText, IsListText, IsPairsText, list_text_of};
ghost use Rattle.tfm_requests.specs.Vectors.{IsEncodingOf};

use crate::failures::errors::FontError;
use crate::failures::failure::Failure;
use crate::files::opening::Opens;
use crate::files::reading::font_bytes;
use crate::files::vectors::encoding_of;
use command_line::{Listing, Pairing};
use font_texts::{ListLayout, OutputFormat, PairsLayout};
use run_texts::{ToolFault, write_text};
use std::alloc::Global;
use std::io::{Read, Write};
use tex_sizes::LengthUnit;
use tfm_tables::{Font, FontFault};

/// Writes the twelve counts and the design size of a font, one per line, as `font_texts::counts_text` returns
/// them. The error is `Font`, with the first error, exactly if the counts or the design size have an error:
/// nothing was written. Otherwise it is `OutOfMemory` if an allocation fails, or `Write` if the writer fails.
pub fn counts_text<W: Write>(alloc: Global, bytes: &[u8], out: &mut W) -> Result<(), ToolFault>
    ensures text { OnOk result
        (Appends (W.contents out.old) (W.contents out.new) (counts_text_of bytes.now)) }
    ensures font { (f : Fault) →
        (result ≡ Err (ToolFault.Font f)) ↔ (head_fault_of bytes.now ≡ Some f) }
    ensures untouched { IfErr result (λ fault. fault ≢ ToolFault.Write → out.new ≡ out.old) }
    ensures fault { IfErr result (λ fault. (fault ≡ ToolFault.OutOfMemory)
        ⊎ (fault ≡ ToolFault.Write) ⊎ ((f : Fault) × (fault ≡ ToolFault.Font f))) }
{
    let text = font_texts::counts_text(alloc, bytes)?;
    write_text(text.as_slice(), out)
}

/// Writes the listing of a font as text, in sp, as `font_texts::list_text` returns it. The error is
/// `OutOfMemory` if an allocation fails, or `Write` if the writer fails.
pub fn list_text<W: Write>(alloc: Global, font: &Font, out: &mut W) -> Result<(), ToolFault>
    ensures text { OnOk result
        (Appends (W.contents out.old) (W.contents out.new) (listing_of (record { format = Text; unit = ScaledPoints }) font.now)) }
    ensures fault { IfErr result (λ fault. (fault ≡ ToolFault.OutOfMemory) ⊎ (fault ≡ ToolFault.Write)) }
{
    let layout = ListLayout {
        format: OutputFormat::Text,
        unit: LengthUnit::ScaledPoints,
    };
    let text = font_texts::list_text(alloc, font, layout)?;
    write_text(text.as_slice(), out)
}

/// Returns the output of `counts` for the font of this name.
pub(crate) fn counts_of<F, I>(
    alloc: Global,
    files: &F,
    font: &str,
    input: &mut I,
) -> Result<Vec<u8>, FontError>
where
    F: Opens,
    I: Read,
    ensures text { IfOk result (λ text. IsCountsText
        (font_bytes_of (F.known files.now) (I.remaining input.old) font.now) text.items) }
    ensures cause { IfErr result (IsHeadError
        (font_bytes_of (F.known files.now) (I.remaining input.old) font.now)) }
{
    let bytes = font_bytes(alloc, files, font, input)?;
    let text = font_texts::counts_text(alloc, bytes.as_slice())?;
    Ok(text)
}

/// Returns the output of `list` for this font.
pub(crate) fn listing<F, I>(
    alloc: Global,
    files: &F,
    listed: &Listing<'_>,
    input: &mut I,
) -> Result<Vec<u8>, FontError>
where
    F: Opens,
    I: Read,
    ensures text { IfOk result (λ text. IsListText
        (font_bytes_of (F.known files.now) (I.remaining input.old) listed.now.font.now)
        listed.now text.items) }
    ensures cause { IfErr result (IsFontError
        (font_bytes_of (F.known files.now) (I.remaining input.old) listed.now.font.now)) }
{
    let bytes = font_bytes(alloc, files, listed.font, input)?;
    let text = list_bytes(alloc, bytes.as_slice(), listed)?;
    Ok(text)
}

/// Returns the listing of the font in these bytes, or its full listing.
fn list_bytes(alloc: Global, bytes: &[u8], listed: &Listing<'_>) -> Result<Vec<u8>, FontFault>
    ensures text { IfOk result (λ text. (f : FontValue) × IsFontOf bytes.now listed.now.size f
        × (text.items ≡ list_text_of listed.now.layout listed.now.all f)) }
    ensures fault { IfErr result (IsRefusalOf bytes.now) }
{
    if listed.all {
        return font_texts::list_all_text(alloc, bytes, listed.size, listed.layout);
    }
    font_texts::list_file_text(alloc, bytes, listed.size, listed.layout)
}

/// Reads the font of this name at this size.
fn read_font<F, I>(
    alloc: Global,
    files: &F,
    asked: &Pairing<'_>,
    input: &mut I,
) -> Result<Font, FontError>
where
    F: Opens,
    I: Read,
    ensures font { IfOk result (λ font. OfKnown
        (font_bytes_of (F.known files.now) (I.remaining input.old) asked.now.font.now)
        (λ all. IsFontOf all asked.now.size font)) }
    ensures cause { IfErr result (IsFontError
        (font_bytes_of (F.known files.now) (I.remaining input.old) asked.now.font.now)) }
{
    let bytes = font_bytes(alloc, files, asked.font, input)?;
    let font = Font::read(alloc, bytes.as_slice(), asked.size)?;
    Ok(font)
}

/// Returns the output of `pairs` for this font. `vector` is the file with the encoding vector, if the arguments
/// name one.
pub(crate) fn pairs<F, I>(
    alloc: Global,
    files: &F,
    asked: &Pairing<'_>,
    vector: Option<&str>,
    input: &mut I,
) -> Result<Vec<u8>, Failure>
where
    F: Opens,
    I: Read,
    ensures text { IfOk result (λ text. (encoding : Option EncodingValue)
        × IsEncodingOf (F.known files.now) vector.entry asked.now.layout.encoding encoding
        × IsPairsText (font_bytes_of (F.known files.now) (I.remaining input.old) asked.now.font.now)
        asked.now.size asked.now.layout encoding text.items) }
    ensures cause { IfErr result (IsTextCause (F.known files.now)
        (IsFontError (font_bytes_of (F.known files.now) (I.remaining input.old) asked.now.font.now))
        vector.entry) }
{
    let font = read_font(alloc, files, asked, input)?;
    let encoding = encoding_of(alloc, files, vector, asked.layout.encoding)?;
    let layout = PairsLayout {
        encoding,
        ..asked.layout
    };
    match font_texts::pairs_text(alloc, &font, layout) {
        Ok(text) => Ok(text),
        Err(_) => Err(Failure::Font(FontError::OutOfMemory)),
    }
}
