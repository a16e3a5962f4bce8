//! Items that the sample fonts make at 10 points.
use lig_kern::Item;

/// The character a.
pub const A: Item = Item::Char {
    code: 97,
    width: 327_680,
};
/// The character b.
pub const B: Item = Item::Char {
    code: 98,
    width: 163_840,
};
/// The character c.
pub const C: Item = Item::Char {
    code: 99,
    width: 491_520,
};
/// The kern to the left.
pub const BACK: Item = Item::Kern(-40_960);
/// The kern to the right.
pub const AHEAD: Item = Item::Kern(20_480);
/// The space.
pub const SPACE: Item = Item::Space(218_453);

/// The items of `ab` if c is inserted between a and b, and both stay: more items than bytes.
pub const A_C_B: [Item; 5] = [A, BACK, C, AHEAD, B];
