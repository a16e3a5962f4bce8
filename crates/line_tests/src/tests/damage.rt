//! Damaged fonts that are still accepted, and short lines of their characters.
use super::same;
use set_line::{Limit, LineRefusal, Outcome, Policy, Terms, set_bytes};
use std::alloc::AllocError;
use std::process::Abort;
use test_support::fonts::examples::{
    left_boundary, ligature, ligature_with_long_header, long_header, right_boundary,
};
use tfm_tables::Font;

/// The limit that the lines are set with.
const LIMIT: u32 = 100;

/// What a byte of a font becomes.
const DAMAGE: [u8; 5] = [0x00, 0x01, 0x7F, 0x80, 0xFF];

/// The codes that exist.
fn characters<R: Abort + AllocGlobal>(rt: &R, font: &Font) -> Vec<u8> {
    let mut codes = Vec::new(rt.alloc());
    for code in 0..=255 {
        if font.exists(code) {
            codes.push(code).expect(rt, "memory");
        }
    }
    codes
}

/// The line is set, or it takes more steps than the limit. Returns whether it is set.
fn is_set<R: Abort + AllocGlobal>(rt: &R, terms: &Terms, line: &[u8]) -> bool {
    let mut list = Vec::new(rt.alloc());
    match set_bytes(terms, line, &mut list).expect(rt, "memory") {
        Outcome::Set { steps, .. } => {
            same(rt, &(steps <= LIMIT), &true, &line);
            true
        }
        Outcome::Refused(refusal) => {
            same(rt, &refusal, &LineRefusal::Steps(LIMIT), &line);
            false
        }
    }
}

/// Sets the lines of one and of two of these codes. Returns whether one is set.
fn sets_short_lines<R: Abort + AllocGlobal>(rt: &R, terms: &Terms, codes: &[u8]) -> bool {
    let mut any = false;
    for first in codes {
        any = is_set(rt, terms, &[*first]) || any;
        for second in codes {
            any = is_set(rt, terms, &[*first, *second]) || any;
        }
    }
    any
}

/// Sets the short lines of a font, if it is accepted. Returns whether one is set.
fn sets_lines<R: Abort + AllocGlobal>(rt: &R, file: &[u8]) -> bool {
    let Ok(font) = Font::read(rt.alloc(), file, None) else {
        return false;
    };
    let codes = characters(rt, &font);
    let limit = Limit::new(LIMIT).expect(rt, "a limit");
    sets_short_lines(rt, &Terms::new(font, limit, Policy::Refuse), &codes)
}

/// A font with each of its bytes damaged. Returns whether a line is set in one of these fonts.
fn sets_with_damage<R: Abort + AllocGlobal>(rt: &R, file: &[u8]) -> bool {
    let mut damaged = Vec::from_slice(rt.alloc(), file).expect(rt, "memory");
    let mut any = false;
    for place in 0..file.len() {
        for byte in &DAMAGE {
            damaged[place] = *byte;
            any = sets_lines(rt, &damaged) || any;
        }
        damaged[place] = file[place];
    }
    any
}

/// Sets the lines of a font that is cut at every length, and of fonts with one damaged byte. Lines are set in
/// both kinds of fonts if the font has characters.
fn tries<R: Abort + AllocGlobal>(
    rt: &R,
    file: Result<Vec<u8>, AllocError>,
    case: &str,
    has_characters: bool,
) {
    let file = file.expect(rt, "memory");
    let mut any = false;
    for len in 0..=file.len() {
        any = sets_lines(rt, &file[..len]) || any;
    }
    let found = (any, sets_with_damage(rt, &file));
    same(rt, &found, &(has_characters, has_characters), &case);
}

#[test]
fn short_lines_in_damaged_fonts(rt: HostRuntime) {
    tries(&rt, ligature(rt.alloc(), 0), "a ligature", true);
    tries(&rt, right_boundary(rt.alloc()), "a right boundary", true);
    tries(&rt, left_boundary(rt.alloc()), "a left boundary", true);
}

#[test]
fn short_lines_in_damaged_fonts_with_a_long_header(rt: HostRuntime) {
    tries(&rt, long_header(rt.alloc()), "no characters", false);
    let file = ligature_with_long_header(rt.alloc(), 3);
    tries(&rt, file, "a ligature and a long header", true);
}
