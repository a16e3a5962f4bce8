//! Counts, positions of tables, words, sizes and scaling.
use super::same;
use super::samples::changed;
use std::process::Abort;
use test_support::fonts::{LIGATURE, NO_CHARACTERS, PLAIN, Sample, files};
use tfm_words::Table::{
    CharInfo, Depth, Exten, Header, Height, Italic, Kern, LigKern, Param, Width,
};
use tfm_words::{Counts, FixWord, Size, Table, design_size, word_at};

fn numbers_of(counts: &Counts) -> [u16; 12] {
    [
        counts.lf(),
        counts.lh(),
        counts.bc(),
        counts.ec(),
        counts.nw(),
        counts.nh(),
        counts.nd(),
        counts.ni(),
        counts.nl(),
        counts.nk(),
        counts.ne(),
        counts.np(),
    ]
}

/// Fonts that are lent: a constant is copied at each use.
static FONTS: [Sample<'static>; 3] = [NO_CHARACTERS, PLAIN, LIGATURE];

/// The font's file is this one.
fn is_file<R: Abort + AllocGlobal>(rt: &R, font: &Sample<'_>, wanted: &[u8], case: &str) {
    let file = font.file(rt.alloc()).expect(rt, "memory");
    same(rt, &file.as_slice(), &wanted, &case);
}

#[test]
fn the_files_are_those_of_the_parts(rt: HostRuntime) {
    is_file(&rt, &FONTS[0], &files::NO_CHARACTERS, "no characters");
    is_file(&rt, &FONTS[1], &files::PLAIN, "plain");
}

/// The counts and the design size of a font whose file has this many bytes.
fn has_counts<R: Abort>(rt: &R, bytes: &[u8], wanted: [u16; 12]) {
    let found = match Counts::read(bytes) {
        Ok(counts) => {
            let design = design_size(bytes, &counts).map(Size::get);
            Ok((numbers_of(&counts), design))
        }
        Err(fault) => Err(fault),
    };
    same(rt, &found, &Ok((wanted, Ok(327_680))), &bytes.len());
}

/// The font without characters has these counts if its word 1 is this one, and with a byte more, too.
fn has_codes<R: Abort + AllocGlobal>(rt: &R, (word, bc, ec): (u32, u16, u16)) {
    let mut bytes = changed(rt.alloc(), &FONTS[0], &[(1, word)]).expect(rt, "memory");
    let wanted = [12, 2, bc, ec, 1, 1, 1, 1, 0, 0, 0, 0];
    has_counts(rt, &bytes, wanted);
    bytes.push(0xFF).expect(rt, "memory"); // 49 bytes
    has_counts(rt, &bytes, wanted);
}

#[test]
fn counts_of_the_empty_font(rt: HostRuntime) {
    has_codes(&rt, (0x0001_0000, 1, 0));
    has_codes(&rt, (0x0100_00FF, 256, 255));
}

/// The tables, and where they are in the plain font and in the font with a ligature.
static PLACES: [(Table, (usize, usize), (usize, usize)); 10] = [
    (Header, (6, 2), (6, 2)),
    (CharInfo, (8, 3), (8, 3)),
    (Width, (11, 4), (11, 4)),
    (Height, (15, 1), (15, 1)),
    (Depth, (16, 1), (16, 1)),
    (Italic, (17, 1), (17, 1)),
    (LigKern, (18, 0), (18, 3)),
    (Kern, (18, 0), (21, 2)),
    (Exten, (18, 0), (23, 0)),
    (Param, (18, 2), (23, 2)),
];

/// The counts of a font.
fn counts_of<R: Abort + AllocGlobal>(rt: &R, font: &Sample<'_>) -> Counts {
    let file = font.file(rt.alloc()).expect(rt, "memory");
    Counts::read(&file).expect(rt, "counts")
}

#[test]
fn places_of_tables(rt: HostRuntime) {
    let (plain, ligature) = (counts_of(&rt, &FONTS[1]), counts_of(&rt, &FONTS[2]));
    for (table, in_plain, in_ligature) in &PLACES {
        let places = (plain.table(*table), ligature.table(*table));
        same(&rt, &places, &(*in_plain, *in_ligature), table);
    }
}

/// Words, and their numbers.
static WORDS: [([u8; 4], i32); 5] = [
    ([0x00, 0x10, 0x00, 0x00], 1_048_576),
    ([0x01, 0x02, 0x03, 0x04], 16_909_060),
    ([0x7F, 0xFF, 0xFF, 0xFF], i32::MAX),
    ([0x80, 0x00, 0x00, 0x00], i32::MIN),
    ([0xFF, 0xFF, 0xFF, 0xFF], -1),
];

/// The word is this number, and is read as it is.
fn is_word<R: Abort>(rt: &R, (word, number): ([u8; 4], i32)) {
    let [a, b, c, d] = word;
    let found = (FixWord::of(word), word_at(&[1, 2, 3, 4, a, b, c, d, 5], 1));
    same(rt, &found, &(FixWord(number), word), &word);
}

#[test]
fn words(rt: HostRuntime) {
    for row in &WORDS {
        is_word(&rt, *row);
    }
}

/// Numbers of scaled points, and whether they are sizes.
static SIZES: [(u32, bool); 6] = [
    (0, false),
    (1, true),
    (65_536, true),
    (134_217_727, true),
    (134_217_728, false),
    (u32::MAX, false),
];

/// Words, a size, and the words scaled to it.
static SCALED: [([u8; 4], u32, Option<i32>); 10] = [
    ([0x00, 0x08, 0x00, 0x00], 655_360, Some(327_680)),
    ([0x00, 0x00, 0x00, 0x01], 655_360, Some(0)),
    ([0xFF, 0xFF, 0xFF, 0xFF], 655_360, Some(-1)),
    ([0x01, 0x00, 0x00, 0x00], 655_360, None),
    ([0xFE, 0xFF, 0xFF, 0xFF], 655_360, None),
    ([0xFF, 0xFF, 0x00, 0x00], 655_360, Some(-40_960)),
    ([0x00, 0x05, 0x55, 0x55], 655_360, Some(218_453)),
    ([0x00, 0x10, 0x00, 0x00], 134_217_727, Some(134_217_712)),
    ([0x00, 0x10, 0x00, 0x00], 8_388_609, Some(8_388_608)),
    ([0x00, 0x10, 0x00, 0x00], 8_388_607, Some(8_388_607)),
];

/// The number of scaled points is a size if the row says so.
fn is_size<R: Abort>(rt: &R, (points, is_size): (u32, bool)) {
    let size = Size::new(points).map(Size::get);
    same(rt, &size, &is_size.then_some(points), &points);
}

/// The word is scaled to this.
fn is_scaled<R: Abort>(rt: &R, (word, points, wanted): ([u8; 4], u32, Option<i32>)) {
    let scaled = match Size::new(points) {
        Some(size) => FixWord::of(word).scaled(size),
        None => None,
    };
    same(rt, &scaled, &wanted, &(word, points));
}

#[test]
fn sizes_and_scaling(rt: HostRuntime) {
    for row in &SIZES {
        is_size(&rt, *row);
    }
    for row in &SCALED {
        is_scaled(&rt, *row);
    }
}

/// TeX's own scaling, byte by byte (tex.web, section 572).
fn scaled_by_bytes(word: [u8; 4], size: Size) -> Option<i32> {
    let mut z = u64::from(size.get());
    let mut alpha = 16;
    // TeX tests z alone: no size is halved more than four times
    while z >= 0x80_0000 && alpha <= 128 {
        z /= 2;
        alpha += alpha;
    }
    let beta = 256 / alpha;
    let [a, b, c, d] = word;
    let lower = u64::from(d) * z / 256 + u64::from(c) * z;
    let sw = i64::try_from((lower / 256 + u64::from(b) * z) / beta).ok()?;
    match a {
        0 => i32::try_from(sw).ok(),
        255 => i32::try_from(sw - i64::try_from(alpha * z).ok()?).ok(),
        _ => None,
    }
}

/// The lower three bytes of words.
static LOWER_BYTES: [u32; 14] = [
    0x00_0000, 0x00_0001, 0x00_00FF, 0x00_0100, 0x00_FFFF, 0x01_0000, 0x05_5555, 0x0F_FFFF,
    0x10_0000, 0x7F_FFFF, 0x80_0000, 0xAB_CDEF, 0xFF_0001, 0xFF_FFFF,
];

/// Sizes on both sides of those at which TeX halves once more, and a few others.
static POINTS: [u32; 22] = [
    0x1, 0x2, 0x3, 0xFF, 0xFFFF, 0x1_0000, 0x5_0000, 0xA_0001, 0x7F_FFFF, 0x80_0000, 0x80_0001,
    0xFF_FFFF, 0x100_0000, 0x131_2D03, 0x1FF_FFFF, 0x200_0000, 0x2FA_F081, 0x3FF_FFFF, 0x400_0000,
    0x5F5_E107, 0x7FF_FFFE, 0x7FF_FFFF,
];

fn scales_as_tex_does<R: Abort>(rt: &R, points: u32) {
    let size = Size::new(points).expect(rt, "a size");
    for lower in &LOWER_BYTES {
        let [_, b, c, d] = lower.to_be_bytes();
        for a in &[0, 1, 127, 128, 254, 255] {
            let word = [*a, b, c, d];
            let scaled = FixWord::of(word).scaled(size);
            same(rt, &scaled, &scaled_by_bytes(word, size), &(word, size));
        }
    }
}

#[test]
fn scaling_byte_by_byte(rt: HostRuntime) {
    for points in &POINTS {
        scales_as_tex_does(&rt, *points);
    }
}
