//! `tfmset_font`, `tfmset_parameters` and `tfmset_header_text`: what a font states about itself.
ghost use Rattle.std.specs.Prelude.{◌≡◌, ◌≢◌, ◌<◌, IfOk};
ghost use Rattle.tfm_tables.specs.Acceptance.{words_of};
ghost use Rattle.tfm_tables.specs.Measure.{parameters_of as all_parameters};
ghost use Rattle.tfmset_c.specs.Arrays.{IsListed};
ghost use Rattle.tfmset_c.specs.Fonts.{font_told, header_text_of, right_or_none};
ghost use Rattle.tfmset_c.specs.Reading.{IsAnswer, IsNoSize, font_at};

use crate::arrays::{DONE, report};
use crate::reading::{MEMORY, MOST_SIZE, RANGE, read_metrics};
use std::alloc::{AllocError, Global};
use tfm_tables::{FontMetrics, LeftSide};

/// The sizes, boundaries and counts of a font. Sizes are in sp.
#[repr(C)]
#[derive(Clone, Copy, Debug, PartialEq, Eq)]
pub struct TfmsetAbout {
    /// The number of parameters.
    pub parameters: usize,
    /// The number of kerns.
    pub kerns: usize,
    /// The number of instructions in the lig/kern program.
    pub instructions: usize,
    /// The design size.
    pub design_size: u32,
    /// The size at which the font is read.
    pub size: u32,
    /// The check sum, as it is in the file.
    pub check_sum: u32,
    /// The code of the right boundary character, or 256 if the font has none.
    pub right_boundary: u32,
    /// 1 if the left boundary has a starting address in the lig/kern program. Otherwise 0.
    pub left_boundary: u32,
}

/// Returns the code of the right boundary character, or 256.
#[tactic(auto, unfolding(crate::specs::Fonts::right_or_none))]
fn right_boundary(font: &FontMetrics) -> u32
    ensures { result ≡ right_or_none font.now.words }
{
    match font.right_boundary() {
        Some(code) => u32::from(code),
        None => 256,
    }
}

/// Returns the data of a font as C gets them.
#[tactic(auto, unfolding(crate::specs::Fonts::font_told))]
fn font_for_c(font: &FontMetrics) -> TfmsetAbout
    ensures { result ≡ font_told font.now }
{
    TfmsetAbout {
        parameters: font.params(),
        kerns: font.kerns(),
        instructions: font.steps(),
        design_size: font.design().get(),
        size: font.size().get(),
        check_sum: font.check_sum(),
        right_boundary: right_boundary(font),
        left_boundary: u32::from(font.start(LeftSide::Boundary).is_some()),
    }
}

/// Reports the sizes, boundaries and counts of a font in `about`. `size` is in sp, and 0 is the design size.
/// Returns: 0 after success; 1 if the font is refused; 2 if an allocation fails; 4 if `size` is above 134,217,727.
/// After every code except 0 `about` is unchanged.
#[unsafe(no_mangle)]
pub extern "C" fn tfmset_font(alloc: Global, font: &[u8], size: u32, about: &mut TfmsetAbout) -> u32
    ensures answers { result ≢ 3 }
    ensures font { IsAnswer (IsNoSize size) font.now result }
    ensures done { result ≡ 0 → about.new ≡ font_told (font_at font.now size) }
    ensures kept { result ≢ 0 → about.new ≡ about.old }
{
    if size > MOST_SIZE {
        return RANGE;
    }
    match read_metrics(alloc, font, size) {
        Ok(font) => {
            *about = font_for_c(&font);
            DONE
        }
        Err(denial) => denial.code(),
    }
}

/// Returns all parameters of a font, from number 1. The error means that an allocation failed.
#[tactic(auto, using(tfm_tables::proofs::DecodedLemmas::grown_signed))]
fn parameters_of(alloc: Global, font: &FontMetrics) -> Result<Vec<i32>, AllocError>
    ensures { IfOk result (λ list. list.items ≡ all_parameters font.now.words font.now.size) }
{
    let mut list = Vec::with_capacity(alloc, font.params())?;
    for number in 1..font.params() + 1 {
        list.push(font.param(number))?;
    }
    Ok(list)
}

/// Reports all parameters of a font, from number 1, in the array `parameters`: the slant in units of 2^-20, and the
/// others in sp. `size` is in sp, and 0 is the design size. Returns: 0 after success; 1 if the font is refused; 2 if
/// an allocation fails; 3 if the array is too short; 4 if `size` is above 134,217,727. After every code except 0 the
/// array is unchanged. `count` is the number of parameters after codes 0 and 3, and otherwise unchanged.
#[unsafe(no_mangle)]
pub extern "C" fn tfmset_parameters(
    alloc: Global,
    font: &[u8],
    size: u32,
    parameters: &mut [i32],
    count: &mut usize,
) -> u32
    ensures font { IsAnswer (IsNoSize size) font.now result }
    ensures told { IsListed (all_parameters (font_at font.now size).words (font_at font.now size).size) result
        count.old count.new parameters.old parameters.new }
{
    if size > MOST_SIZE {
        return RANGE;
    }
    let listed = match read_metrics(alloc, font, size) {
        Ok(font) => parameters_of(alloc, &font),
        Err(denial) => return denial.code(),
    };
    match listed {
        Ok(list) => report(&list, parameters, count),
        Err(_) => MEMORY,
    }
}

/// Reports a text in the header of a font in the array `text`: its coding scheme, if `which` is 0, or its family, if
/// `which` is 1. The text is empty if the header is too short for it. Returns: 0 after success; 1 if the font is
/// refused; 2 if an allocation fails; 3 if the array is too short; 4 if `which` is above 1. After every code except 0
/// the array is unchanged. `count` is the number of bytes, at most 39, after codes 0 and 3, and otherwise unchanged.
#[unsafe(no_mangle)]
pub extern "C" fn tfmset_header_text(
    alloc: Global,
    font: &[u8],
    which: u32,
    text: &mut [u8],
    count: &mut usize,
) -> u32
    ensures font { IsAnswer (1 < which) font.now result }
    ensures told { IsListed (header_text_of (words_of font.now) which) result count.old count.new text.old text.new }
{
    if which > 1 {
        return RANGE;
    }
    match read_metrics(alloc, font, 0) {
        Ok(font) => report(header_text(&font, which), text, count),
        Err(denial) => denial.code(),
    }
}

/// Returns a text in the header of a font: its coding scheme for 0, and its family for any other number.
#[tactic(auto, unfolding(crate::specs::Fonts::header_text_of))]
fn header_text(font: &FontMetrics, which: u32) -> &[u8]
    ensures { result.now ≡ header_text_of font.now.words which }
{
    let text = if which == 0 {
        font.coding()
    } else {
        font.family()
    };
    match text {
        Some(text) => text,
        None => b"",
    }
}
