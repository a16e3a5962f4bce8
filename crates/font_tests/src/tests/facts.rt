//! What the readers of a font return: a list of facts for each font, with some words changed.
use super::readers::{Group, HEADERS, PROGRAMS, SEARCHES, SIZES};
use super::same;
use super::samples::read;
use std::process::Abort;
use tfm_tables::{Font, LeftSide, Metrics, Step, Tag};

/// What the readers of a font return.
#[derive(Clone, Copy)]
pub enum Fact {
    /// The check sum, the design size and the size.
    Header(u32, u32, u32),
    /// The codes of all characters.
    Codes(&'static [u8]),
    /// A character's width, height, depth and italic correction, and its tag.
    Character(u8, [i32; 4], Tag),
    /// The right boundary character.
    Right(Option<u8>),
    /// Where the program of a left side begins.
    Start(LeftSide, Option<usize>),
    /// Where the programs of the boundary, a, b, c and d begin.
    Starts([Option<usize>; 5]),
    /// All instructions.
    Program(&'static [Step]),
    /// All kerns.
    Kerns(&'static [i32]),
    /// All parameters, from number 1 on.
    Parameters(&'static [i32]),
    /// The address of the instruction for a left side and the code to its right.
    Finds(LeftSide, u8, Option<usize>),
}

/// The font returns this.
fn holds(font: &Font, fact: Fact) -> bool {
    match fact {
        Fact::Header(check_sum, design, size) => {
            (font.check_sum(), font.design().get(), font.size().get()) == (check_sum, design, size)
        }
        Fact::Codes(codes) => has_codes(font, codes),
        Fact::Character(code, metrics, tag) => has_character(font, code, metrics, tag),
        Fact::Right(right) => font.right_boundary() == right,
        Fact::Start(left, start) => font.start(left) == start,
        Fact::Starts(starts) => starts_of(font) == starts,
        Fact::Program(program) => has_program(font, program),
        Fact::Kerns(kerns) => has_kerns(font, kerns),
        Fact::Parameters(parameters) => has_parameters(font, parameters),
        Fact::Finds(left, code, address) => font.find(left, code) == address,
    }
}

/// The character has this width, height, depth and italic correction, and this tag.
fn has_character(
    font: &Font,
    code: u8,
    [width, height, depth, italic]: [i32; 4],
    tag: Tag,
) -> bool {
    let metrics = Metrics {
        width,
        height,
        depth,
        italic,
    };
    font.metrics(code) == Some(metrics) && font.tag(code) == Some(tag) && font.width(code) == width
}

/// A character exists for these codes, and for no other.
fn has_codes(font: &Font, codes: &[u8]) -> bool {
    let mut same = true;
    for code in 0..=255 {
        let exists = [
            font.exists(code),
            font.metrics(code).is_some(),
            font.tag(code).is_some(),
        ];
        same &= exists == [codes.contains(&code); 3];
        same &= codes.contains(&code) || font.width(code) == 0;
    }
    same
}

fn starts_of(font: &Font) -> [Option<usize>; 5] {
    [
        font.start(LeftSide::Boundary),
        font.start(LeftSide::Char(97)),
        font.start(LeftSide::Char(98)),
        font.start(LeftSide::Char(99)),
        font.start(LeftSide::Char(100)),
    ]
}

fn has_program(font: &Font, program: &[Step]) -> bool {
    let mut same = font.steps() == program.len();
    for (i, step) in program.iter().enumerate() {
        same &= i < font.steps() && font.step(i) == *step;
    }
    same
}

fn has_kerns(font: &Font, kerns: &[i32]) -> bool {
    let mut same = font.kerns() == kerns.len();
    for (k, kern) in kerns.iter().enumerate() {
        same &= k < font.kerns() && font.kern(k) == *kern;
    }
    same
}

/// The font has these parameters, and 0 for every other number. Number 2 is the space.
fn has_parameters(font: &Font, parameters: &[i32]) -> bool {
    let mut same = font.params() == parameters.len();
    for number in [0, parameters.len().saturating_add(1), usize::MAX] {
        same &= font.param(number) == 0;
    }
    for (number, value) in (1..).zip(parameters) {
        same &= font.param(number) == *value;
    }
    same && font.space() == parameters.get(1).copied().unwrap_or_default()
}

/// The number of the first of these facts that isn't true of the font.
fn first_false(font: &Font, facts: &[Fact]) -> Option<usize> {
    facts.iter().position(|fact| !holds(font, *fact))
}

/// Each of these fonts returns the facts of its rows.
fn return_facts<R: Abort + AllocGlobal>(rt: &R, fonts: &[Group]) {
    for (case, font, points, rows) in fonts {
        for (changes, facts) in *rows {
            let font = read(rt, font, changes, *points);
            same(rt, &first_false(&font, facts), &None, &(case, changes));
        }
    }
}

#[test]
fn fonts_return_what_their_files_have(rt: HostRuntime) {
    return_facts(&rt, &HEADERS);
    return_facts(&rt, &SIZES);
    return_facts(&rt, &PROGRAMS);
    return_facts(&rt, &SEARCHES);
}
