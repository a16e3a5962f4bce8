//! A font of its parts, and the file that it makes.
use std::alloc::{AllocError, Global};
use tfm_tables::Step;

/// A char_info word, field by field.
#[derive(Clone, Copy)]
pub struct Info {
    /// Which of the widths; 0 for a code without a character.
    pub width: u8,
    /// Which of the heights, of 16 at most.
    pub height: u8,
    /// Which of the depths, of 16 at most.
    pub depth: u8,
    /// Which of the italic corrections, of 64 at most.
    pub italic: u8,
    /// What the remainder is: 0 nothing, 1 where a program begins, 2 a larger character, 3 a recipe.
    pub tag: u8,
    /// The number that the tag speaks of.
    pub remainder: u8,
}

impl Info {
    /// The word. Height, depth, italic correction and tag have 4, 4, 6 and 2 bits.
    fn bytes(&self) -> [u8; 4] {
        [
            self.width,
            (self.height & 15) << 4 | (self.depth & 15),
            (self.italic & 63) << 2 | (self.tag & 3),
            self.remainder,
        ]
    }
}

/// The parts of a font.
#[derive(Clone, Copy)]
pub struct Sample<'a> {
    /// The code of the first char_info word.
    pub bc: u16,
    /// The code of the last one.
    pub ec: u16,
    /// The first word of the header.
    pub check_sum: u32,
    /// The second one: the design size, in points times 2^20.
    pub design: u32,
    /// The header from its third word on.
    pub texts: &'a [u8],
    /// The char_info words.
    pub characters: &'a [Info],
    /// The widths, of which the first is that of no character.
    pub width: &'a [u32],
    /// The heights.
    pub height: &'a [u32],
    /// The depths.
    pub depth: &'a [u32],
    /// The italic corrections.
    pub italic: &'a [u32],
    /// The instructions of the ligature and kerning program.
    pub program: &'a [Step],
    /// The kerns.
    pub kerns: &'a [u32],
    /// The recipes, each a word.
    pub recipes: &'a [u32],
    /// The parameters from number 1 on.
    pub parameters: &'a [u32],
}

impl Sample<'_> {
    /// The font's file, for which memory is taken once unless it is a large one.
    pub fn file(&self, alloc: Global) -> Result<Vec<u8>, AllocError> {
        let mut file = Vec::with_capacity(alloc, ROOM)?;
        for count in self.counts() {
            file.extend_from_slice(&count.to_be_bytes())?;
        }
        append(&mut file, &[self.check_sum, self.design])?;
        file.extend_from_slice(self.texts)?;
        append_infos(&mut file, self.characters)?;
        for table in [self.width, self.height, self.depth, self.italic] {
            append(&mut file, table)?;
        }
        append_steps(&mut file, self.program)?;
        for table in [self.kerns, self.recipes, self.parameters] {
            append(&mut file, table)?;
        }
        Ok(file)
    }

    /// The twelve counts, which are those of the parts.
    fn counts(&self) -> [u16; 12] {
        let lh = count(self.texts.len() / 4).wrapping_add(2);
        let tables = [
            count(self.width.len()),
            count(self.height.len()),
            count(self.depth.len()),
            count(self.italic.len()),
            count(self.program.len()),
            count(self.kerns.len()),
            count(self.recipes.len()),
            count(self.parameters.len()),
        ];
        let mut lf = count(self.characters.len())
            .wrapping_add(lh)
            .wrapping_add(6);
        for entries in tables {
            lf = lf.wrapping_add(entries);
        }
        let [nw, nh, nd, ni, nl, nk, ne, np] = tables;
        [lf, lh, self.bc, self.ec, nw, nh, nd, ni, nl, nk, ne, np]
    }
}

fn append(bytes: &mut Vec<u8>, words: &[u32]) -> Result<(), AllocError> {
    for word in words {
        bytes.extend_from_slice(&word.to_be_bytes())?;
    }
    Ok(())
}

fn append_infos(bytes: &mut Vec<u8>, characters: &[Info]) -> Result<(), AllocError> {
    for info in characters {
        bytes.extend_from_slice(&info.bytes())?;
    }
    Ok(())
}

fn append_steps(bytes: &mut Vec<u8>, program: &[Step]) -> Result<(), AllocError> {
    for step in program {
        bytes.extend_from_slice(&[step.skip, step.next, step.op, step.remainder])?;
    }
    Ok(())
}

/// Room for the files of most samples.
const ROOM: usize = 512;

/// A count of this many entries; of too many, one that no font has.
fn count(entries: usize) -> u16 {
    u16::try_from(entries).unwrap_or(u16::MAX)
}
