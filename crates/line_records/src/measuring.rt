//! Measures the box of a line, and writes its record.
ghost use Rattle.std.specs.Prelude.{◌≡◌, ◌++◌, OnOk, map};
ghost use Rattle.std.specs.Int.{int_max};
ghost use Rattle.line_records.specs.Boxes.{box_record, box_text, depth_of, height_of, largest, numbers_text};
ghost use Rattle.line_records.specs.Kept.{as_box};

use crate::keeping::KeptLine;
use set_line::RecordNumber;
use std::alloc::AllocError;
use tex_sizes::{LengthUnit, push_length};
use tfm_tables::Font;
use tfm_words::push_number;

/// The height and the depth of a character or a box, in sp.
#[derive(Clone, Copy)]
pub(crate) struct Extent {
    pub height: i32,
    pub depth: i32,
}

/// The extent of a box without characters.
const EMPTY: Extent = Extent {
    height: 0,
    depth: 0,
};

/// Returns the height and the depth of a character.
fn extent_of(font: &Font, code: u8) -> Extent
    ensures height { result.height ≡ height_of font.now code }
    ensures depth { result.depth ≡ depth_of font.now code }
{
    match font.metrics(code) {
        Some(metrics) => Extent {
            height: metrics.height,
            depth: metrics.depth,
        },
        None => EMPTY,
    }
}

/// Returns the height and the depth of a box with one more character.
fn with_code(font: &Font, before: Extent, code: u8) -> Extent
    ensures height { result.height ≡ int_max before.height (height_of font.now code) }
    ensures depth { result.depth ≡ int_max before.depth (depth_of font.now code) }
{
    let more = extent_of(font, code);
    Extent {
        height: before.height.max(more.height),
        depth: before.depth.max(more.depth),
    }
}

/// Returns the height and the depth of the box of characters (tex.web, sections 649 and 654).
pub(crate) fn measure(font: &Font, codes: &[u8]) -> Extent
    ensures height { result.height ≡ largest (map (height_of font.now) codes.now) }
    ensures depth { result.depth ≡ largest (map (depth_of font.now) codes.now) }
{
    let mut extent = EMPTY;
    for code in codes {
        extent = with_code(font, extent, *code);
    }
    extent
}

/// Appends the numbers of spaces and of skipped characters.
#[tactic(auto, using(crate::proofs::BoxLemmas::boxes), unfolding(crate::specs::Boxes::numbers_text))]
fn push_numbers(text: &mut Vec<u8>, spaces: usize, skipped: usize) -> Result<(), AllocError>
    ensures { OnOk result (text.new.items ≡ text.old.items ++ numbers_text spaces skipped) }
{
    push_number(text, b" ", spaces)?;
    push_number(text, b" ", skipped)
}

/// Appends the dimensions of the box of a line in this unit, and its numbers of spaces and of skipped characters.
#[tactic(auto, using(crate::proofs::BoxLemmas::boxes), unfolding(crate::specs::Boxes::box_text))]
fn push_box(
    text: &mut Vec<u8>,
    unit: LengthUnit,
    kept: KeptLine,
    extent: Extent,
) -> Result<(), AllocError>
    ensures { OnOk result (text.new.items ≡ text.old.items ++ box_text unit (as_box kept extent)) }
{
    push_length(text, b" ", kept.sums.width, unit)?;
    push_length(text, b" ", i64::from(extent.height), unit)?;
    push_length(text, b" ", i64::from(extent.depth), unit)?;
    push_numbers(text, kept.spaces, kept.sums.skipped)
}

/// Appends the record of a line that is set, with its box, which has this height and this depth. After an error a part of
/// it may have been appended.
pub(crate) fn append_box(
    out: &mut Vec<u8>,
    number: RecordNumber,
    unit: LengthUnit,
    kept: KeptLine,
    extent: Extent,
) -> Result<(), AllocError>
    ensures { OnOk result (out.new.items ≡ out.old.items
        ++ box_record number.source number.line (box_text unit (as_box kept extent))) }
{
    push_number(out, b"", number.source)?;
    push_number(out, b":", number.line)?;
    out.extend_from_slice(b" box")?;
    push_box(out, unit, kept, extent)?;
    out.extend_from_slice(b"\n")
}
