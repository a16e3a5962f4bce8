//! `Font::find` beside a linear search, in small programs and in a long one.
use super::same;
use std::process::Abort;
use test_support::fonts::{A_FROM_0, A_FROM_1, BACK, C_FROM_2, Info, PLAIN, Sample, kern_before};
use test_support::terms::font_of;
use tfm_tables::{Font, LeftSide, Step};

/// The address for a code in a program from its start, by the definition: one instruction after
/// the other.
fn first_address(program: &[Step], start: Option<usize>, code: u8) -> Option<usize> {
    let mut address = start?;
    for _ in program {
        let step = program.get(address)?;
        if step.skip <= 128 && step.next == code {
            return Some(address);
        }
        if step.skip >= 128 {
            return None;
        }
        address += usize::from(step.skip) + 1;
    }
    None
}

/// The codes 0, 1 and 2, whose programs begin at instructions 0, 1 and 2.
fn three_codes(program: &[Step]) -> Sample<'_> {
    Sample {
        bc: 0,
        ec: 2,
        characters: &[A_FROM_0, A_FROM_1, C_FROM_2],
        program,
        ..PLAIN
    }
}

/// The boundary, the three codes, and one that doesn't exist.
static SIDES: [LeftSide; 5] = [
    LeftSide::Boundary,
    LeftSide::Char(0),
    LeftSide::Char(1),
    LeftSide::Char(2),
    LeftSide::Char(100),
];

/// All pairs of a small program are found where the definition says, if the font is accepted. Whether it is.
fn finds_all<R: Abort + AllocGlobal>(rt: &R, program: &[Step]) -> bool {
    let file = three_codes(program).file(rt.alloc()).expect(rt, "memory");
    let Ok(font) = Font::read(rt.alloc(), &file, None) else {
        return false;
    };
    for left in &SIDES {
        for code in 0..4 {
            let wanted = first_address(program, font.start(*left), code);
            same(rt, &font.find(*left, code), &wanted, &(left, code, program));
        }
    }
    true
}

/// The instruction with this number, of 18.
fn small_step(number: usize) -> Step {
    let skips = [0, 1, 127, 128, 129, 255];
    let next = [0, 1, 2][number % 3];
    Step {
        skip: skips[number / 3 % 6],
        next,
        op: 0,
        remainder: next.wrapping_add(1) % 3,
    }
}

#[test]
fn small_programs(rt: HostRuntime) {
    let mut accepted = 0u32;
    for number in 0..18 * 18 * 18 {
        let program = [
            small_step(number / 324 % 18),
            small_step(number / 18 % 18),
            small_step(number % 18),
        ];
        accepted = accepted.wrapping_add(u32::from(finds_all(&rt, &program)));
    }
    // the last instruction may not skip, and skips of 127 lead nowhere: of 18 instructions each,
    // 9 may stand last, 12 before it and 15 first
    same(&rt, &accepted, &(9 * 12 * 15), &"accepted");
}

/// Kerns before all codes in turn, again and again, and the end after 32,000 instructions.
fn long_program<R: Abort + AllocGlobal>(rt: &R) -> Vec<Step> {
    let mut program = Vec::new(rt.alloc());
    for i in 0..32_000u16 {
        let [_, next] = i.to_be_bytes();
        let skip = if i == 31_999 { 128 } else { 0 };
        let step = Step {
            skip,
            ..kern_before(next, 0)
        };
        program.push(step).expect(rt, "memory");
    }
    program
}

/// All 256 codes, each with a program that begins at the instruction of its number.
fn all_codes() -> [Info; 256] {
    let mut characters = [A_FROM_0; 256];
    for code in 0..=255 {
        characters[usize::from(code)].remainder = code;
    }
    characters
}

/// All of these characters with this program.
fn long_chains<'a>(characters: &'a [Info], program: &'a [Step]) -> Sample<'a> {
    Sample {
        bc: 0,
        ec: 255,
        characters,
        program,
        kerns: &[BACK],
        ..PLAIN
    }
}

/// The next instruction for a code is found, from that of the left side's number.
fn finds_next<R: Abort>(rt: &R, font: &Font) {
    for left in 0..=255 {
        for code in 0..=255 {
            let round = if code < left { 256 } else { 0 };
            let found = font.find(LeftSide::Char(left), code);
            same(rt, &found, &Some(usize::from(code) + round), &(left, code));
        }
    }
    same(
        rt,
        &font.find(LeftSide::Boundary, 0),
        &None,
        &"the boundary",
    );
}

#[test]
fn long_chains_of_all_characters(rt: HostRuntime) {
    let program = long_program(&rt);
    let file = long_chains(&all_codes(), &program).file(rt.alloc());
    finds_next(&rt, &font_of(rt.alloc(), file).expect(&rt, "a font"));
}
