//! `tfmset_characters`: the dimensions, the tags and the extensible recipes of all characters.
ghost use Rattle.std.specs.Prelude.{◌≡◌, ◌≤◌, None, IfOk, IfErr};
ghost use Rattle.tfm_tables.specs.Acceptance.{font_fault_of};
ghost use Rattle.tfmset_c.specs.Arrays.{IsListed};
ghost use Rattle.tfmset_c.specs.Characters.{character_at, characters_told, recipe_of, tag_number, tag_rest};
ghost use Rattle.tfmset_c.specs.Reading.{IsAnswer, IsDenial, IsNoSize, font_at};

use crate::arrays::report;
use crate::reading::{Denial, MOST_SIZE, RANGE, read_metrics};
use std::alloc::{AllocError, Global};
use tfm_tables::{FontMetrics, Tag};

/// The dimensions of a character, in sp, its tag and its extensible recipe.
#[repr(C)]
#[derive(Clone, Copy, Debug, Default, PartialEq, Eq)]
pub struct TfmsetCharacter {
    /// 1 if the font has the character. Otherwise 0, and all other fields are 0.
    pub exists: u32,
    /// The width.
    pub width: i32,
    /// The height.
    pub height: i32,
    /// The depth.
    pub depth: i32,
    /// The italic correction.
    pub italic: i32,
    /// 0: no tag. 1: the character has instructions in the lig/kern program. 2: it has a next larger
    /// character. 3: it has an extensible recipe.
    pub tag: u32,
    /// Tag 1: the address of an instruction, as it is in the file. 2: the code of the next larger character.
    /// 3: the number of the recipe, starting at 0. Otherwise 0.
    pub remainder: u32,
    /// Tag 3: the code of the top piece, or 0 if the recipe has none. Otherwise 0.
    pub top: u8,
    /// Tag 3: the code of the middle piece, or 0 if the recipe has none. Otherwise 0.
    pub middle: u8,
    /// Tag 3: the code of the bottom piece, or 0 if the recipe has none. Otherwise 0.
    pub bottom: u8,
    /// Tag 3: the code of the piece that is repeated. Otherwise 0.
    pub repeated: u8,
}

/// Returns the number of a tag, and its remainder, or 0 if it has none.
fn tag_for_c(tag: Tag) -> (u32, u32)
    ensures { (result.0 ≡ tag_number tag) × (result.1 ≡ tag_rest tag) }
{
    match tag {
        Tag::Plain => (0, 0),
        Tag::Lig(remainder) => (1, u32::from(remainder)),
        Tag::List(remainder) => (2, u32::from(remainder)),
        Tag::Ext(remainder) => (3, u32::from(remainder)),
    }
}

/// Returns the four bytes of the recipe of a tag, or zeros if it has none.
fn recipe(font: &FontMetrics, tag: Tag) -> [u8; 4]
    ensures { result ≡ recipe_of font.now.words tag }
{
    match tag {
        Tag::Ext(number) if usize::from(number) < font.recipes() => {
            font.recipe(usize::from(number))
        }
        _ => [0; 4],
    }
}

/// Returns a character as C gets it.
#[tactic(auto, unfolding(crate::specs::Characters::character_at, crate::specs::Characters::character_told))]
fn character(font: &FontMetrics, code: u8) -> TfmsetCharacter
    ensures { result ≡ character_at font.now code }
{
    let nothing = TfmsetCharacter::default();
    let Some(metrics) = font.metrics(code) else {
        return nothing;
    };
    let Some(tag) = font.tag(code) else {
        return nothing;
    };
    let (number, remainder) = tag_for_c(tag);
    let [top, middle, bottom, repeated] = recipe(font, tag);
    TfmsetCharacter {
        exists: 1,
        width: metrics.width,
        height: metrics.height,
        depth: metrics.depth,
        italic: metrics.italic,
        tag: number,
        remainder,
        top,
        middle,
        bottom,
        repeated,
    }
}

/// Returns the characters of a font, by code.
#[tactic(auto, using(tfm_tables::proofs::DecodedLemmas::grown), unfolding(crate::specs::Characters::characters_told))]
fn list_characters(alloc: Global, font: &FontMetrics) -> Result<Vec<TfmsetCharacter>, AllocError>
    ensures { IfOk result (λ list. list.items ≡ characters_told font.now) }
{
    let mut list = Vec::with_capacity(alloc, 256)?;
    for code in 0..256u16 {
        list.push(character(font, code as u8))?;
    }
    Ok(list)
}

/// Reads the font in these bytes, and returns its characters, by code. Returns a `Denial` if the font is refused, or
/// an allocation fails.
fn read_characters(alloc: Global, bytes: &[u8], size: u32) -> Result<Vec<TfmsetCharacter>, Denial>
    requires { size ≤ 134217727 }
    ensures accepted { IfOk result (λ _. font_fault_of bytes.now ≡ None) }
    ensures ok { IfOk result (λ list. list.items ≡ characters_told (font_at bytes.now size)) }
    ensures denied { IfErr result (IsDenial bytes.now) }
{
    let font = read_metrics(alloc, bytes, size)?;
    match list_characters(alloc, &font) {
        Ok(list) => Ok(list),
        Err(_) => Err(Denial::Memory),
    }
}

/// Reports the characters of a font in the array `characters`: 256 elements, by code. `size` is in sp, and 0 is the
/// design size. Returns: 0 after success; 1 if the font is refused; 2 if an allocation fails; 3 if the array is too
/// short; 4 if `size` is above 134,217,727. After every code except 0 the array is unchanged. `count` is 256 after
/// codes 0 and 3, and otherwise unchanged.
#[unsafe(no_mangle)]
pub extern "C" fn tfmset_characters(
    alloc: Global,
    font: &[u8],
    size: u32,
    characters: &mut [TfmsetCharacter],
    count: &mut usize,
) -> u32
    ensures font { IsAnswer (IsNoSize size) font.now result }
    ensures told { IsListed (characters_told (font_at font.now size)) result count.old count.new
        characters.old characters.new }
{
    if size > MOST_SIZE {
        return RANGE;
    }
    match read_characters(alloc, font, size) {
        Ok(list) => report(&list, characters, count),
        Err(denial) => denial.code(),
    }
}
