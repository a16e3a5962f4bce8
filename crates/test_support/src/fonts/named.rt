//! The sample fonts, by what they show. Their characters are a, b and c, of 10 points: at that size
//! a is 327,680 scaled points wide, b 163,840 and c 491,520.
use super::instructions::{boundary, kern_before};
use super::sample::{Info, Sample};
use std::alloc::{AllocError, Global};
use tfm_tables::Step;

/// An instruction: skip, next, op and remainder.
macro_rules! step {
    ($skip:literal, $next:literal, $op:literal, $remainder:literal) => {
        Step {
            skip: $skip,
            next: $next,
            op: $op,
            remainder: $remainder,
        }
    };
}

/// Half of the size.
pub const HALF: u32 = 0x08_0000;
/// A quarter of the size.
pub const QUARTER: u32 = 0x04_0000;
/// Three quarters of the size.
pub const THREE_QUARTERS: u32 = 0x0C_0000;
/// A sixteenth of the size, to the left: -40,960 scaled points.
pub const BACK: u32 = 0xFFFF_0000;
/// A thirty-second of the size: 20,480 scaled points.
pub const AHEAD: u32 = 0x8000;
/// Both kerns.
pub const KERNS: &[u32] = &[BACK, AHEAD];

/// The least that a font may have, of 5 points: no characters.
pub const NO_CHARACTERS: Sample<'static> = Sample {
    bc: 1,
    ec: 0,
    check_sum: 0,
    design: 0x50_0000,
    texts: &[],
    characters: &[],
    width: &[0],
    height: &[0],
    depth: &[0],
    italic: &[0],
    program: &[],
    kerns: &[],
    recipes: &[],
    parameters: &[],
};

/// A code without a character.
pub const NOTHING: Info = Info {
    width: 0,
    height: 0,
    depth: 0,
    italic: 0,
    tag: 0,
    remainder: 0,
};

/// A character of half the size.
pub const A: Info = Info {
    width: 1,
    ..NOTHING
};
/// Of a quarter.
pub const B: Info = Info {
    width: 2,
    ..NOTHING
};
/// Of three quarters.
pub const C: Info = Info {
    width: 3,
    ..NOTHING
};

/// The a whose program begins at instruction 0.
pub const A_FROM_0: Info = Info { tag: 1, ..A };

/// The a whose program begins at instruction 1.
pub const A_FROM_1: Info = Info {
    remainder: 1,
    ..A_FROM_0
};

/// The b whose program begins at instruction 3.
pub const B_FROM_3: Info = Info {
    tag: 1,
    remainder: 3,
    ..B
};

/// The c whose program begins at instruction 2.
pub const C_FROM_2: Info = Info {
    tag: 1,
    remainder: 2,
    ..C
};

/// The characters a, b and c without programs, of 10 points.
pub const PLAIN: Sample<'static> = Sample {
    bc: 97,
    ec: 99,
    design: 0xA0_0000,
    characters: &[A, B, C],
    width: &[0, HALF, QUARTER, THREE_QUARTERS],
    parameters: PLAIN_PARAMETERS,
    ..NO_CHARACTERS
};

/// Its parameters.
pub const PLAIN_PARAMETERS: &[u32] = &[
    0, // the slant
    0x05_5555, // the space, a third of the size: 218,453 scaled points
];

/// Before b, the ligature c.
pub const LIGATURE_C: Step = step!(0, 98, 0, 99);

/// Before c, kern 0, and the end.
pub const KERN_BEFORE_C: Step = step!(128, 99, 128, 0);

/// Before b, kern 1, and the end.
pub const KERN_BEFORE_B: Step = step!(128, 98, 128, 1);

/// A ligature of a and b to c, and kerns between a and c and between c and b.
pub const LIGATURE: Sample<'static> = Sample {
    characters: &[A_FROM_0, B, C_FROM_2],
    program: &[LIGATURE_C, KERN_BEFORE_C, KERN_BEFORE_B],
    kerns: KERNS,
    ..PLAIN
};

/// The same program with another operation code and remainder in its first instruction.
pub fn ligature_program(op: u8, remainder: u8) -> [Step; 3] {
    [
        Step {
            op,
            remainder,
            ..LIGATURE_C
        },
        KERN_BEFORE_C,
        KERN_BEFORE_B,
    ]
}

/// Two kerns between a and b, of which the first is made.
pub const TWO_KERNS: Sample<'static> = Sample {
    program: &[
        step!(0, 98, 128, 0), // before b, kern 0
        KERN_BEFORE_B,
        KERN_BEFORE_B,
    ],
    ..LIGATURE
};

/// A kern before c that skips another one, which ends the search.
pub const SKIPPING: Sample<'static> = Sample {
    program: &[
        step!(1, 99, 128, 0), // before c, kern 0; otherwise one instruction is skipped
        KERN_BEFORE_C,
        KERN_BEFORE_B,
    ],
    ..LIGATURE
};

/// The plain font with these characters.
pub fn with_characters(characters: &[Info]) -> Sample<'_> {
    Sample {
        characters,
        ..PLAIN
    }
}

/// The font with a ligature, with this program.
pub fn with_program(program: &[Step]) -> Sample<'_> {
    Sample {
        program,
        ..LIGATURE
    }
}

/// A right boundary character, code 124, that doesn't exist. After a the boundary becomes b, and
/// after b a kern stands before it. Another kern stands between a and b.
pub const RIGHT_BOUNDARY: Sample<'static> = Sample {
    characters: &[A_FROM_1, B_FROM_3, C],
    program: &[
        step!(255, 124, 0, 0), // the right boundary character
        step!(0, 124, 2, 98), // before the boundary, b in its place
        step!(128, 98, 128, 0), // before b, kern 0, and the end
        step!(128, 124, 128, 1), // before the boundary, kern 1, and the end
    ],
    kerns: KERNS,
    ..PLAIN
};

/// A right boundary character that exists: b. Before it stands a kern after a.
pub const BOUNDARY_EXISTS: Sample<'static> = Sample {
    characters: &[A_FROM_1, B, C],
    program: &[
        step!(255, 98, 0, 0), // the right boundary character
        step!(128, 98, 128, 0), // before b, kern 0, and the end
    ],
    kerns: &[BACK],
    ..PLAIN
};

/// A left boundary, whose program begins at instruction 0.
pub const LEFT_BOUNDARY: Sample<'static> = Sample {
    program: &[
        step!(0, 97, 128, 0), // before a, kern 0
        step!(128, 98, 3, 99), // before b, c between the two, and the end
        step!(255, 0, 0, 0), // the left boundary's program
    ],
    kerns: &[BACK],
    ..PLAIN
};

/// A right boundary character without a program in a font without characters. The same instruction
/// gives the left boundary a program, in which nothing is done.
pub const NO_PROGRAM: Sample<'static> = Sample {
    program: &[step!(255, 65, 0, 0)],
    ..NO_CHARACTERS
};

/// The program of a begins elsewhere, with an instruction that itself points elsewhere.
pub const INDIRECT: Sample<'static> = Sample {
    characters: &[A_FROM_0, B, C],
    program: &[
        step!(200, 0, 0, 1), // to instruction 1
        step!(200, 98, 0, 0), // to instruction 0
    ],
    ..PLAIN
};

/// A program with no end: before a, one more a between the two.
pub const ENDLESS: Sample<'static> = Sample {
    characters: &[A_FROM_0, B, C],
    program: &[step!(128, 97, 3, 97)],
    ..PLAIN
};

/// The same program with another operation: some of these have an end.
pub fn endless_program(op: u8) -> [Step; 1] {
    [Step {
        op,
        ..step!(128, 97, 3, 97)
    }]
}

/// The coding scheme, the family, the seven-bit flag and the face of a header of 18 words.
pub fn header_texts() -> [u8; 64] {
    let mut texts = [0; 64];
    // the coding scheme: a length, and 39 bytes
    texts[0] = 8;
    texts[1..9].copy_from_slice(b"TEX TEXT");
    // the family: a length, and 19 bytes
    texts[40] = 3;
    texts[41..44].copy_from_slice(b"CMR");
    // the face, in the last byte of the word that begins with the seven-bit flag
    texts[63] = 234;
    texts
}

/// The font without characters, with these texts in its header.
pub fn header(texts: &[u8]) -> Sample<'_> {
    Sample {
        texts,
        ..NO_CHARACTERS
    }
}

/// The program of the largest file. It names code 65 as the right boundary character, and has
/// kern 0 before that, again and again.
pub fn largest_program(alloc: Global) -> Result<Vec<Step>, AllocError> {
    let mut program = Vec::new(alloc);
    // the right boundary character, and where its own program would begin
    program.push(boundary(65, 1))?;
    for _ in 1..32_753 {
        program.push(kern_before(65, 0))?;
    }
    // the left boundary's program begins at instruction 1
    program.push(boundary(0, 1))?;
    Ok(program)
}

/// The largest file that the counts allow, of 32,767 words: nearly all of it a program.
pub fn largest(program: &[Step]) -> Sample<'_> {
    Sample {
        program,
        kerns: &[0x1_0000],
        ..NO_CHARACTERS
    }
}
