//! The indices of the words of a table.

/// The first word of a table: the bytes F7, T, F, M. No TFM file that is accepted begins with a byte above 127.
pub(crate) const MAGIC: i32 = -0x08AB_B9B3;
/// The version of the layout.
pub(crate) const VERSION: i32 = 1;

// The words of the header.
pub(crate) const LENGTH: usize = 2;

pub(crate) const STEPS: usize = 3;

pub(crate) const KERNS: usize = 4;

pub(crate) const RIGHT: usize = 5;

pub(crate) const LEFT: usize = 6;

pub(crate) const SPACE: usize = 7;

pub(crate) const SIZE: usize = 8;

// The first words of the widths, of the states, and of the instructions, which the kerns follow.
pub(crate) const WIDTHS: usize = 9;

pub(crate) const STATES: usize = 265;

pub(crate) const PROGRAM: usize = 521;

/// The state of a code without a character.
pub(crate) const NO_CHARACTER: i32 = -2;
/// What takes the place of an address or of a code if there is none.
pub(crate) const NONE: i32 = -1;
