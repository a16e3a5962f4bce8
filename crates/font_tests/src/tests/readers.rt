//! Fonts with some words changed, the sizes that they are read at, and what they return.
use super::facts::Fact;
use super::facts::Fact::{
    Character, Codes, Finds, Header, Kerns, Parameters, Program, Right, Start, Starts,
};
use super::samples::{Change, FULL};
use test_support::fonts::{
    BOUNDARY_EXISTS, ENDLESS, INDIRECT, KERN_BEFORE_B, KERN_BEFORE_C, LEFT_BOUNDARY, LIGATURE,
    LIGATURE_C, NO_CHARACTERS, NO_PROGRAM, PLAIN, RIGHT_BOUNDARY, SKIPPING, Sample, TWO_KERNS,
};
use tfm_tables::LeftSide;
use tfm_tables::Tag::{Ext, Lig, List, Plain};

const BOUNDARY: LeftSide = LeftSide::Boundary;

const A: LeftSide = LeftSide::Char(97);

const B: LeftSide = LeftSide::Char(98);

const C: LeftSide = LeftSide::Char(99);

const D: LeftSide = LeftSide::Char(100);

/// Changed words, and what the font then returns.
pub type Row = (&'static [Change], &'static [Fact]);

/// A font, its size in scaled points if it isn't the design size, and the rows.
pub type Group = (&'static str, Sample<'static>, Option<u32>, &'static [Row]);

const NO_PARAMETERS: Sample<'static> = Sample {
    parameters: &[],
    ..PLAIN
};

const SLANT_ALONE: Sample<'static> = Sample {
    parameters: &[0x0100_0000],
    ..PLAIN
};

/// Headers, codes and parameters.
pub static HEADERS: [Group; 2] = [
    (
        "no characters",
        NO_CHARACTERS,
        None,
        &[
            (
                &[],
                &[
                    Header(0, 327_680, 327_680),
                    Codes(&[]),
                    Right(None),
                    Starts([None; 5]),
                    Program(&[]),
                    Kerns(&[]),
                    Parameters(&[]),
                    Finds(BOUNDARY, 0, None),
                ],
            ),
            (&[(1, 0x0100_00FF)], &[Codes(&[])]),
            (&[(7, 0x0010_0000)], &[Header(0, 65_536, 65_536)]),
            (&[(7, 0x0010_000F)], &[Header(0, 65_536, 65_536)]),
            (&[(7, 0x0010_0010)], &[Header(0, 65_537, 65_537)]),
            (
                &[(6, 0xFEDC_BA98), (7, 0x7FFF_FFFF)],
                &[Header(4_275_878_552, 134_217_727, 134_217_727)],
            ),
        ],
    ),
    (
        "plain",
        PLAIN,
        None,
        &[
            (
                &[],
                &[
                    Header(0, 655_360, 655_360),
                    Codes(&[97, 98, 99]),
                    Character(97, [327_680, 0, 0, 0], Plain),
                    Character(98, [163_840, 0, 0, 0], Plain),
                    Character(99, [491_520, 0, 0, 0], Plain),
                    Starts([None; 5]),
                    Parameters(&[0, 218_453]),
                    Finds(A, 98, None),
                ],
            ),
            (&[(1, 0x0000_0002)], &[Codes(&[0, 1, 2])]),
            (&[(1, 0x00FD_00FF)], &[Codes(&[253, 254, 255])]),
            (&[(9, 0)], &[Codes(&[97, 99])]),
            (&[(18, 0x0100_0000)], &[Parameters(&[16_777_216, 218_453])]),
            (&[(18, 0x8000_0000)], &[Parameters(&[i32::MIN, 218_453])]),
        ],
    ),
];

/// Sizes, and other parameters and tags.
pub static SIZES: [Group; 6] = [
    (
        "plain, at 20 points",
        PLAIN,
        Some(1_310_720),
        &[(
            &[(6, 0x0102_0304), (18, 0x0100_0000)],
            &[
                Header(16_909_060, 655_360, 1_310_720),
                Character(97, [655_360, 0, 0, 0], Plain),
                Character(98, [327_680, 0, 0, 0], Plain),
                Character(99, [983_040, 0, 0, 0], Plain),
                Parameters(&[16_777_216, 436_906]),
            ],
        )],
    ),
    (
        "plain, at the smallest size",
        PLAIN,
        Some(1),
        &[(&[], &[Header(0, 655_360, 1), Character(99, [0; 4], Plain)])],
    ),
    (
        "plain, at the largest size",
        PLAIN,
        Some(134_217_727),
        &[(
            &[],
            &[
                Header(0, 655_360, 134_217_727),
                Character(97, [67_108_856, 0, 0, 0], Plain),
                Character(98, [33_554_428, 0, 0, 0], Plain),
                Character(99, [100_663_284, 0, 0, 0], Plain),
            ],
        )],
    ),
    (
        "no parameters",
        NO_PARAMETERS,
        None,
        &[(&[], &[Parameters(&[])])],
    ),
    (
        "the slant",
        SLANT_ALONE,
        None,
        &[(&[], &[Parameters(&[16_777_216])])],
    ),
    (
        "each table and each tag",
        FULL,
        None,
        &[(
            &[(8, 0x0112_0662), (9, 0x0321_0B07)],
            &[
                Character(97, [327_680, 327_680, 20_480, -40_960], List(98)),
                Character(98, [491_520, 163_840, 491_520, 327_680], Ext(7)),
                Character(99, [491_520, 0, 0, 0], Lig(2)),
                Parameters(&[1, 327_680, -40_960, 0]),
            ],
        )],
    ),
];

/// Programs.
pub static PROGRAMS: [Group; 3] = [
    (
        "a ligature",
        LIGATURE,
        None,
        &[
            (
                &[],
                &[
                    Right(None),
                    Starts([None, Some(0), None, Some(2), None]),
                    Program(&[LIGATURE_C, KERN_BEFORE_C, KERN_BEFORE_B]),
                    Kerns(&[-40_960, 20_480]),
                    Finds(A, 98, Some(0)),
                    Finds(A, 99, Some(1)),
                    Finds(A, 97, None),
                    Finds(C, 98, Some(2)),
                    Finds(C, 99, None),
                    Finds(BOUNDARY, 97, None),
                    Finds(B, 98, None),
                    Finds(D, 98, None),
                ],
            ),
            // b doesn't exist, and has a program in vain
            (
                &[(9, 0x0100), (18, 0x8063_8000), (20, 0x8063_8000)],
                &[
                    Codes(&[97, 99]),
                    Starts([None, Some(0), None, Some(2), None]),
                ],
            ),
        ],
    ),
    (
        "a ligature, at 20 points",
        LIGATURE,
        Some(1_310_720),
        &[(&[], &[Kerns(&[-81_920, 40_960])])],
    ),
    (
        "a right boundary",
        RIGHT_BOUNDARY,
        None,
        &[
            (
                &[],
                &[
                    Right(Some(124)),
                    Starts([None, Some(1), Some(3), None, None]),
                    Finds(A, 124, Some(1)),
                    Finds(A, 98, Some(2)),
                    Finds(A, 97, None),
                    Finds(B, 124, Some(3)),
                    Finds(B, 98, None),
                    Finds(BOUNDARY, 124, None),
                    Finds(LeftSide::Char(124), 98, None),
                ],
            ),
            // a skip above 128 is an indirection of a and of b; only one of 255 in the last instruction names
            // the left boundary's program, which has no indirection
            (
                &[(19, 0xFF00_0002), (21, 0xFF00_0001)],
                &[Starts([Some(1), Some(2), Some(1), None, None])],
            ),
            (
                &[(19, 0xFE00_0002), (21, 0xFE00_0001)],
                &[Starts([None, Some(2), Some(1), None, None])],
            ),
            (
                &[(19, 0x8100_0002), (21, 0x8100_0001)],
                &[Starts([None, Some(2), Some(1), None, None])],
            ),
        ],
    ),
];

/// Boundaries and searches.
pub static SEARCHES: [Group; 7] = [
    (
        "a right boundary that exists",
        BOUNDARY_EXISTS,
        None,
        &[(
            &[],
            &[Right(Some(98)), Start(A, Some(1)), Finds(A, 98, Some(1))],
        )],
    ),
    (
        "one instruction for both boundaries",
        NO_PROGRAM,
        None,
        &[(
            &[],
            &[
                Right(Some(65)),
                Starts([Some(0), None, None, None, None]),
                Finds(BOUNDARY, 65, None),
            ],
        )],
    ),
    (
        "a left boundary",
        LEFT_BOUNDARY,
        None,
        &[(
            &[],
            &[
                Right(None),
                Starts([Some(0), None, None, None, None]),
                Finds(BOUNDARY, 97, Some(0)),
                Finds(BOUNDARY, 98, Some(1)),
                Finds(BOUNDARY, 0, None),
                Finds(A, 98, None),
            ],
        )],
    ),
    (
        "a second indirection is not followed, and a halt that is met",
        INDIRECT,
        None,
        &[(&[], &[Start(A, Some(1)), Finds(A, 98, None)])],
    ),
    (
        "no end",
        ENDLESS,
        None,
        &[(&[], &[Start(A, Some(0)), Finds(A, 97, Some(0))])],
    ),
    (
        "the first of two instructions for b",
        TWO_KERNS,
        None,
        &[(&[], &[Finds(A, 98, Some(0)), Finds(A, 99, None)])],
    ),
    (
        "a skip",
        SKIPPING,
        None,
        &[(&[], &[Finds(A, 99, Some(0)), Finds(A, 98, Some(2))])],
    ),
];
