//! Runs in many small fonts, set by `set_word` and by the definition alone.
use super::same;
use super::slow::slow_set;
use lig_kern::{WordFault, set_word};
use std::process::Abort;
use test_support::fonts;
use test_support::fonts::{
    A_FROM_0, A_FROM_1, Info, KERNS, PLAIN, Sample, boundary, go_to, kern_before, last,
    ligature_before,
};
use test_support::terms::font_of;
use tfm_tables::{Font, FontMetrics, Step};

pub const A: u8 = 97;

pub const B: u8 = 98;

pub const C: u8 = 99;

/// The right boundary character of the fonts that have one.
const D: u8 = 100;

/// The listed operations, and two codes that aren't.
pub const OPERATIONS: [u8; 10] = [0, 1, 2, 3, 5, 6, 7, 11, 4, 127];

/// Two ligatures, each by the code that it is before and the one that it inserts, and perhaps a kern before a
/// third code.
pub type Shape = ((u8, u8), (u8, u8), Option<u8>);

pub static SHAPES: [Shape; 12] = [
    ((B, C), (A, C), None),
    ((B, A), (A, B), None),
    ((B, C), (C, B), Some(A)),
    ((A, B), (B, A), Some(C)),
    ((A, C), (C, A), Some(B)),
    ((C, A), (B, C), None),
    ((A, A), (B, B), None),
    ((D, B), (B, C), None),
    ((B, C), (D, A), Some(A)),
    ((D, A), (C, D), Some(B)),
    ((B, D), (D, C), Some(C)),
    ((D, C), (C, B), Some(D)),
];

/// All runs of a and b of up to four letters.
static RUNS: [&str; 31] = [
    "", "a", "b", "aa", "ab", "ba", "bb", "aaa", "aab", "aba", "abb", "baa", "bab", "bba", "bbb",
    "aaaa", "aaab", "aaba", "aabb", "abaa", "abab", "abba", "abbb", "baaa", "baab", "baba", "babb",
    "bbaa", "bbab", "bbba", "bbbb",
];

/// The letters a, b, c and d. The programs of a and c begin with the first ligature, that of b begins with
/// the second, and d has none.
pub static LETTERS: [Info; 4] = [
    A_FROM_1,
    Info {
        tag: 1,
        remainder: 2,
        ..fonts::B
    },
    Info {
        tag: 1,
        remainder: 1,
        ..fonts::C
    },
    fonts::A,
];

/// The program of a shape by two operations, with or without the boundaries: the left one's begins with the
/// first ligature.
pub fn program_of(
    shape: Shape,
    (first, second): (u8, u8),
    (left, right): (bool, bool),
) -> [Step; 5] {
    let ((before_first, one), (before_second, other), kern) = shape;
    let second = ligature_before(before_second, second, other);
    [
        if right { boundary(D, 1) } else { go_to(D, 1) },
        ligature_before(before_first, first, one),
        if kern.is_some() { second } else { last(second) },
        last(kern_before(kern.unwrap_or(A), 0)),
        if left { boundary(D, 1) } else { go_to(D, 1) },
    ]
}

/// The font with these characters from a on, this program and both kerns.
pub fn with_letters<'a, R: Abort + AllocGlobal>(
    rt: &R,
    ec: u16,
    characters: &'a [Info],
    program: &'a [Step],
) -> Font {
    let sample = Sample {
        ec,
        characters,
        program,
        kerns: KERNS,
        ..PLAIN
    };
    font_of(rt.alloc(), sample.file(rt.alloc())).expect(rt, "a font")
}

/// Both ways agree on a run, with and without the right boundary. Returns whether both have an end within the
/// limit.
fn agree<R: Abort + AllocGlobal>(rt: &R, font: &Font, run: &str, limit: u32) -> bool {
    let file: &FontMetrics = font;
    let mut end = true;
    for right in &[false, true] {
        let run = (run.as_bytes(), *right);
        let mut wanted = Vec::new(rt.alloc());
        let steps = slow_set(rt, font, run, limit, &mut wanted);
        let mut found = Vec::new(rt.alloc());
        let set = set_word(font, run.0, run.1, limit, &mut found);
        let wanted = (steps.ok_or(WordFault::TooManySteps), wanted.as_slice());
        same(rt, &(set, found.as_slice()), &wanted, &(run, file));
        end = end && steps.is_some();
    }
    end
}

/// Both ways agree on all runs, within 40 steps. Returns whether all have an end within these.
fn agree_on_all<R: Abort + AllocGlobal>(rt: &R, program: &[Step]) -> bool {
    let font = with_letters(rt, 100, &LETTERS, program);
    let mut end = true;
    for run in &RUNS {
        end = agree(rt, &font, run, 40) && end;
    }
    end
}

/// Both ways agree in the fonts of these operations, with and without each boundary.
fn agree_by<R: Abort + AllocGlobal>(rt: &R, shape: Shape, operations: (u8, u8)) -> bool {
    let mut end = true;
    for boundaries in &[(false, false), (false, true), (true, false), (true, true)] {
        end = agree_on_all(rt, &program_of(shape, operations, *boundaries)) && end;
    }
    end
}

/// Both ways agree in these shapes by all pairs of operations: some 25,000 runs a shape. Some have no end.
fn agree_in<R: Abort + AllocGlobal>(rt: &R, shapes: &[Shape]) {
    for shape in shapes {
        let mut end = true;
        for first in &OPERATIONS {
            for second in &OPERATIONS {
                end = agree_by(rt, *shape, (*first, *second)) && end;
            }
        }
        same(rt, &end, &false, shape);
    }
}

#[test]
fn ligatures_before_b(rt: HostRuntime) {
    agree_in(&rt, &SHAPES[..2]);
}

#[test]
fn ligatures_beside_a_kern(rt: HostRuntime) {
    agree_in(&rt, &SHAPES[2..4]);
}

#[test]
fn ligatures_before_c(rt: HostRuntime) {
    agree_in(&rt, &SHAPES[4..6]);
}

#[test]
fn ligatures_of_a_letter_and_itself(rt: HostRuntime) {
    agree_in(&rt, &SHAPES[6..8]);
}

#[test]
fn ligatures_before_d(rt: HostRuntime) {
    agree_in(&rt, &SHAPES[8..10]);
}

#[test]
fn ligatures_that_insert_d(rt: HostRuntime) {
    agree_in(&rt, &SHAPES[10..]);
}

/// Between a and each other letter, the letter after that one: between a and b stand all of them in the end,
/// the last one first. They are so many that not all of them have room without an allocation.
fn agree_with_many_ahead<R: Abort + AllocGlobal>(rt: &R) {
    let mut letters = [fonts::A; 25];
    letters[0] = A_FROM_0;
    let mut program = Vec::new(rt.alloc());
    for code in B..120 {
        program
            .push(ligature_before(code, 3, code.wrapping_add(1)))
            .expect(rt, "memory");
    }
    program.push(last(kern_before(A, 0))).expect(rt, "memory");
    let font = with_letters(rt, 121, &letters, &program);
    for run in &["ab", "aab", "abab"] {
        same(rt, &agree(rt, &font, run, 200), &true, run);
    }
}

#[test]
fn many_characters_ahead(rt: HostRuntime) {
    agree_with_many_ahead(&rt);
}
