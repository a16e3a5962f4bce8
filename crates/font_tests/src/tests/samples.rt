//! Fonts with some words of their files changed.
use std::alloc::{AllocError, Global};
use std::process::Abort;
use test_support::fonts::{AHEAD, BACK, HALF, LIGATURE, QUARTER, Sample, THREE_QUARTERS};
use tfm_tables::Font;
use tfm_words::Size;

/// The number of a word in a file, and the word that takes its place.
pub type Change = (usize, u32);

/// A font with each kind of table: words 8 to 10 are a, b and c; 11 to 14 widths, 15 to 17 heights, 18 to 20
/// depths, 21 to 23 italic corrections, 24 to 26 instructions, 27 and 28 kerns, 29 to 32 parameters.
pub const FULL: Sample<'static> = Sample {
    height: &[0, HALF, QUARTER],
    depth: &[0, THREE_QUARTERS, AHEAD],
    italic: &[0, BACK, HALF],
    parameters: &[1, HALF, BACK, 0],
    ..LIGATURE
};

/// Returns the file of a font with these words changed.
pub fn changed(
    alloc: Global,
    font: &Sample<'_>,
    changes: &[Change],
) -> Result<Vec<u8>, AllocError> {
    let mut file = font.file(alloc)?;
    for (number, word) in changes {
        put(&mut file, *number, *word);
    }
    Ok(file)
}

fn put(file: &mut [u8], number: usize, word: u32) {
    let (words, _) = file.as_chunks_mut::<4>();
    if let Some(place) = words.get_mut(number) {
        *place = word.to_be_bytes();
    }
}

/// Reads the font with these words changed, at its design size or at a number of scaled points.
pub fn read<R: Abort + AllocGlobal>(
    rt: &R,
    font: &Sample<'_>,
    changes: &[Change],
    points: Option<u32>,
) -> Font {
    let file = changed(rt.alloc(), font, changes).expect(rt, "memory");
    let size = match points {
        Some(points) => Size::new(points),
        None => None,
    };
    Font::read(rt.alloc(), &file, size).expect(rt, "a font")
}
