//! Two of the fonts as the bytes of their files, ready without memory.

/// The font without characters, of 5 points.
pub static NO_CHARACTERS: [u8; 48] = [
    0, 12, 0, 2, // lf, lh
    0, 1, 0, 0, // bc, ec
    0, 1, 0, 1, // nw, nh
    0, 1, 0, 1, // nd, ni
    0, 0, 0, 0, // nl, nk
    0, 0, 0, 0, // ne, np
    0, 0, 0, 0, // the check sum
    0, 0x50, 0, 0, // the design size
    0, 0, 0, 0, // width 0
    0, 0, 0, 0, // height 0
    0, 0, 0, 0, // depth 0
    0, 0, 0, 0, // italic correction 0
];

/// The characters a, b and c at 10 points, without programs.
pub static PLAIN: [u8; 80] = [
    0, 20, 0, 2, // lf, lh
    0, 97, 0, 99, // bc, ec
    0, 4, 0, 1, // nw, nh
    0, 1, 0, 1, // nd, ni
    0, 0, 0, 0, // nl, nk
    0, 0, 0, 2, // ne, np
    0, 0, 0, 0, // the check sum
    0, 0xA0, 0, 0, // the design size
    1, 0, 0, 0, // a
    2, 0, 0, 0, // b
    3, 0, 0, 0, // c
    0, 0, 0, 0, // width 0
    0, 0x08, 0, 0, // width 1: half the size
    0, 0x04, 0, 0, // width 2: a quarter
    0, 0x0C, 0, 0, // width 3: three quarters
    0, 0, 0, 0, // height 0
    0, 0, 0, 0, // depth 0
    0, 0, 0, 0, // italic correction 0
    0, 0, 0, 0, // slant
    0, 5, 0x55, 0x55, // space: a third
];
