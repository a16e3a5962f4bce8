//! The error of each font with some words changed: of single errors and, for their order, of two or more.
use super::faulty::{OF_FULL, OF_LIGATURE, OF_NO_CHARACTERS, OF_PLAIN, Row};
use super::same;
use super::samples::{Change, FULL, changed};
use std::alloc::Global;
use std::process::Abort;
use test_support::fonts::{LEFT_BOUNDARY, LIGATURE, NO_CHARACTERS, PLAIN, RIGHT_BOUNDARY, Sample};
use tfm_tables::{Font, FontFault};
use tfm_words::{Counts, Size, design_size};

/// Returns the error with which a font is refused.
pub fn fault_of(alloc: Global, bytes: &[u8], size: Option<Size>) -> Option<FontFault> {
    Font::read(alloc, bytes, size).err()
}

/// Returns the error in the counts or the design size.
pub fn head_fault(bytes: &[u8]) -> Option<FontFault> {
    match Counts::read(bytes) {
        Err(fault) => Some(FontFault::Counts(fault)),
        Ok(counts) => design_size(bytes, &counts).err().map(FontFault::Design),
    }
}

/// Returns this error, if it is one of the counts or the design size.
fn in_head(fault: Option<FontFault>) -> Option<FontFault> {
    match fault {
        Some(FontFault::Counts(_) | FontFault::Design(_)) => fault,
        _ => None,
    }
}

/// The file has this error at each size, and in its head if it is one of these.
fn has_fault<R: Abort + AllocGlobal>(
    rt: &R,
    file: &[u8],
    fault: Option<FontFault>,
    case: (&str, &[Change]),
) {
    same(rt, &head_fault(file), &in_head(fault), &case);
    for size in &[None, Size::new(1), Size::new(134_217_727)] {
        same(
            rt,
            &fault_of(rt.alloc(), file, *size),
            &fault,
            &(case, size),
        );
    }
}

/// The font has the error of each row if its words are changed as there.
fn has_faults<R: Abort + AllocGlobal>(rt: &R, case: &str, font: &Sample<'_>, rows: &[Row]) {
    for (changes, fault) in rows {
        let file = changed(rt.alloc(), font, changes).expect(rt, "memory");
        has_fault(rt, &file, *fault, (case, changes));
    }
}

/// Fonts, and their rows.
static FONTS: [(&str, Sample<'static>, &[Row]); 6] = [
    ("no characters", NO_CHARACTERS, OF_NO_CHARACTERS),
    ("plain", PLAIN, OF_PLAIN),
    ("a ligature", LIGATURE, OF_LIGATURE),
    ("each table", FULL, OF_FULL),
    ("a right boundary", RIGHT_BOUNDARY, &[(&[], None)]),
    ("a left boundary", LEFT_BOUNDARY, &[(&[], None)]),
];

#[test]
fn the_first_fault_of_a_font_is_named(rt: HostRuntime) {
    for (case, font, rows) in &FONTS {
        has_faults(&rt, case, font, rows);
    }
}

/// The font is truncated at each length below its own.
fn is_cut_at_each_length<R: Abort + AllocGlobal>(rt: &R, font: &Sample<'_>) {
    let file = font.file(rt.alloc()).expect(rt, "memory");
    for len in 0..file.len() {
        let need = if len < 24 { 24 } else { file.len() };
        let cut = counts!(Truncated { need });
        let bytes = &file[..len];
        let found = (head_fault(bytes), fault_of(rt.alloc(), bytes, None));
        same(rt, &found, &(cut, cut), &len);
    }
}

/// A font of 48 bytes and one of 100.
static CUT: [Sample<'static>; 2] = [NO_CHARACTERS, LIGATURE];

#[test]
fn cut_files(rt: HostRuntime) {
    for font in &CUT {
        is_cut_at_each_length(&rt, font);
    }
}
