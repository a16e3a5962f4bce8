//! Damaged fonts are refused as a list of all conditions says.
use super::faults::fault_of;
use super::same;
use super::slow::slow_fault;
use std::process::Abort;
use test_support::fonts::{
    LEFT_BOUNDARY, LIGATURE, PLAIN, RIGHT_BOUNDARY, Sample, header, header_texts,
};

/// The reading of a file and the slow checker agree. Whether a fault was found.
fn agrees<R: Abort + AllocGlobal>(rt: &R, case: &str, bytes: &[u8]) -> bool {
    let slow = slow_fault(bytes);
    same(rt, &fault_of(rt.alloc(), bytes, None), &slow, &case);
    slow.is_some()
}

/// Puts a byte into a file. The byte that was there.
fn replaced(file: &mut [u8], place: usize, byte: u8) -> u8 {
    match file.get_mut(place) {
        Some(there) => {
            let before = *there;
            *there = byte;
            before
        }
        None => byte,
    }
}

/// They agree on a file with each of its bytes damaged. How many of the damaged files were refused.
fn agrees_on_damage<R: Abort + AllocGlobal>(rt: &R, case: &str, file: &mut [u8]) -> u32 {
    let mut refused = 0u32;
    for place in 0..file.len() {
        for damage in &[0x00, 0x01, 0x7F, 0x80, 0xFF] {
            let before = replaced(file, place, *damage);
            refused = refused.wrapping_add(u32::from(agrees(rt, case, file)));
            replaced(file, place, before);
        }
    }
    refused
}

/// They agree on a font, cut at every length, and with each of its bytes damaged, and some damage shows.
fn damage_shows<R: Abort + AllocGlobal>(rt: &R, case: &str, font: &Sample<'_>) {
    let mut file = font.file(rt.alloc()).expect(rt, "memory");
    same(rt, &agrees(rt, case, &file), &false, &case);
    for len in 0..file.len() {
        same(rt, &agrees(rt, case, &file[..len]), &true, &(len, case));
    }
    let shows = agrees_on_damage(rt, case, &mut file) > 0;
    same(rt, &shows, &true, &("some damage shows", case));
}

static FONTS: [(&str, Sample<'static>); 4] = [
    ("the plain font", PLAIN),
    ("a font with a ligature", LIGATURE),
    ("a font with a right boundary", RIGHT_BOUNDARY),
    ("a font with a left boundary", LEFT_BOUNDARY),
];

#[test]
fn damaged_fonts_are_refused_as_the_definition_says(rt: HostRuntime) {
    for (case, font) in &FONTS {
        damage_shows(&rt, case, font);
    }
    damage_shows(&rt, "a font with a long header", &header(&header_texts()));
}
