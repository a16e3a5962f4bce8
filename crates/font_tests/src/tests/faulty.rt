//! Words of the sample fonts that are changed, and the error that the font then has, if it has one.
use super::samples::Change;
use tfm_tables::FontFault;
use tfm_words::Count::{Lf, Nd, Nh, Np};
use tfm_words::DesignFault;
use tfm_words::Table::{Depth, Height, Italic, Kern, Param, Width};

/// Changed words, and the error.
pub type Row = (&'static [Change], Option<FontFault>);

/// The error of a design size below 1 point.
pub const BELOW_ONE: Option<FontFault> = Some(FontFault::Design(DesignFault::DesignSize));

/// The font without characters: words 0 to 5 are the counts, 7 the design size, 8 to 11 the tables' entries 0.
pub const OF_NO_CHARACTERS: &[Row] = &[
    (&[], None),
    (&[(1, 0x0100_00FF)], None), // bc 256, ec 255
    (&[(0, 0x000D_0002)], counts!(LengthEquation)),
    (&[(2, 0x0001_8000)], counts!(CountRange(Nh))),
    (&[(1, 0x0002_0000)], counts!(CharRange)),
    (&[(1, 0x0001_0100)], counts!(CharRange)),
    (&[(0, 0x000C_0001)], counts!(HeaderShort)),
    (&[(3, 0x0001_0000)], counts!(EmptyTable(Italic))),
    (&[(5, 0x0101_0000)], counts!(TooManyRecipes)),
    (&[(7, 0)], BELOW_ONE),
    (&[(7, 0x000F_FFFF)], BELOW_ONE),
    (&[(7, 0x0010_0000)], None),
    (&[(7, 0x7FFF_FFFF)], None),
    (&[(7, 0x8000_0000)], BELOW_ONE),
    (&[(7, 0xFFFF_FFFF)], BELOW_ONE),
    (&[(7, 0x000F_FFFF), (8, 1)], BELOW_ONE),
    (&[(10, 1), (11, 1)], first!(Depth)),
];

/// The plain font: words 0 to 5 are the counts, 7 the design size, 8 to 10 the characters, 11 to 14 the widths,
/// 15 to 17 the other entries 0, 18 and 19 the parameters.
pub const OF_PLAIN: &[Row] = &[
    (&[], None),
    // two errors of the counts
    (&[(0, 0xFFFF_0002), (5, 0x9C40)], counts!(CountRange(Lf))),
    (&[(3, 0x8000_0001), (4, 0x8000)], counts!(CountRange(Nd))),
    (&[(1, 0x0065_0063), (5, 0x8000)], counts!(CountRange(Np))),
    (&[(0, 0x0014_0001), (1, 0x0065_0063)], counts!(CharRange)),
    (&[(0, 0x0014_0000), (2, 1)], counts!(HeaderShort)),
    (&[(2, 1), (3, 0x0001_0000)], counts!(EmptyTable(Width))),
    (&[(2, 0x0004_0000), (3, 1)], counts!(EmptyTable(Height))),
    (
        &[(2, 0x0004_0000), (5, 0x0101_0002)],
        counts!(EmptyTable(Height)),
    ),
    (&[(3, 0)], counts!(EmptyTable(Depth))),
    (
        &[(0, 0x0013_0002), (5, 0x0101_0002)],
        counts!(TooManyRecipes),
    ),
    (&[(0, 0x0015_0002)], counts!(LengthEquation)),
    // the design size, and an index
    (&[(7, 0), (9, 0x0400_0000)], BELOW_ONE),
    (&[(7, 0x8000_0000), (9, 0x0400_0000)], BELOW_ONE),
    (&[(7, 0x0010_0000)], None),
    // the indices of b; no tag, a program, a list and a recipe
    (&[(9, 0x0400_0000)], index!(98, Width)),
    (&[(9, 0x0010_0000)], index!(98, Height)),
    (&[(9, 0x0001_0000)], index!(98, Depth)),
    (&[(9, 0x0000_0400)], index!(98, Italic)),
    (&[(9, 0x0011_0000)], index!(98, Height)),
    (&[(9, 0x0001_0400)], index!(98, Depth)),
    (&[(9, 0)], None),
    (&[(9, 0x0000_0100)], start!(98)),
    (&[(9, 0x0000_0200)], None),
    (&[(9, 0x0000_03FF)], None),
    // the program of a, and an index of a smaller or a larger code
    (&[(8, 0x0100_0100)], start!(97)),
    (&[(8, 0x0100_0100), (9, 0x0400_0000)], index!(98, Width)),
    (&[(8, 0x0010_0000), (9, 0x0400_0000)], index!(97, Height)),
    (&[(9, 0x0100_0100), (10, 0x0100_0100), (11, 1)], start!(98)),
    // entries 0; that of the heights scales to 0
    (&[(11, 0x0100_0000)], first!(Width)),
    (&[(11, 0x0100_0000), (12, 0x0100_0000)], first!(Width)),
    (&[(15, 1)], first!(Height)),
    (&[(16, 0xFFFF_0000), (17, 0xFFFF_0000)], first!(Depth)),
    (&[(12, 0x0100_0000), (17, 0x80)], first!(Italic)),
    // other entries; the slant may be any number
    (&[(12, 0x0100_0000)], entry!(Width, 1)),
    (
        &[(12, 0x00FF_FFFF), (13, 0xFF00_0000), (14, 0xFEFF_FFFF)],
        entry!(Width, 3),
    ),
    (&[(18, 0x0100_0000)], None),
    (&[(19, 0xFE00_0000)], entry!(Param, 2)),
    (&[(18, 0x0100_0000), (19, 0xFE00_0000)], entry!(Param, 2)),
];

/// The font with a ligature: words 18 to 20 are the instructions, 21 and 22 the kerns.
pub const OF_LIGATURE: &[Row] = &[
    (&[], None),
    (&[(18, 0x0064_0063)], step!(0, Next)),
    (&[(18, 0x0062_0064)], step!(0, Ligature)),
    (&[(18, 0x0062_8002)], step!(0, Kern)),
    (&[(18, 0x0062_8101)], step!(0, Kern)), // 257 of 2
    (&[(18, 0x0262_0063)], step!(0, Skip)),
    (&[(18, 0x8162_0003)], step!(0, Restart)),
    (&[(18, 0xFF64_0100)], step!(0, Restart)), // 256 of 3
    // two or three parts of an instruction
    (&[(18, 0x7F64_7F64)], step!(0, Next)),
    (&[(18, 0x7F62_7F64)], step!(0, Ligature)),
    (&[(18, 0x7F62_FFFF)], step!(0, Kern)),
    // to the last instruction; the end; a restart, whatever next is; a right boundary that doesn't exist
    (&[(18, 0x0162_8001)], None),
    (&[(18, 0x8062_8001)], None),
    (&[(18, 0x8164_0002)], None),
    (&[(18, 0xFF64_0000)], None),
    // later instructions; only the first one with a skip of 255 names a right boundary
    (&[(19, 0x7F62_8001), (20, 0x8064_8000)], step!(1, Skip)),
    (&[(20, 0x7F62_8001)], step!(2, Skip)),
    (&[(18, 0xFE64_0000), (19, 0x8064_8000)], step!(1, Next)),
    (&[(19, 0x8064_8000), (20, 0xFF64_0000)], step!(1, Next)),
    (&[(18, 0x0064_0063), (21, 0x0100_0000)], entry!(Kern, 0)),
];

/// The font with each kind of table.
pub const OF_FULL: &[Row] = &[
    (&[], None),
    (&[(14, 0xFEFF_FFFF), (16, 0x8000_0000)], entry!(Width, 3)),
    (&[(17, 0x7FFF_FFFF), (19, 0x7FFF_FFFF)], entry!(Height, 2)),
    (&[(19, 0x7FFF_FFFF), (22, 0x7FFF_FFFF)], entry!(Depth, 1)),
    (&[(22, 0x0200_0000), (27, 0x0200_0000)], entry!(Italic, 1)),
    (&[(28, 0x0100_0000), (30, 0x0100_0000)], entry!(Kern, 1)),
    (&[(24, 0x0064_0063), (32, 0x0100_0000)], entry!(Param, 4)),
];
