//! The sample fonts by name, so that a row of a table can have a font.
use std::alloc::{AllocError, Global};
use std::process::Abort;
use test_support::fonts::examples::{
    boundary_exists, endless, indirect, largest, left_boundary, ligature, plain, right_boundary,
    without_parameters, without_space,
};
use test_support::fonts::lengths::SHORT;
use test_support::fonts::{A_FROM_0, B, C, NO_PROGRAM, PLAIN, SKIPPING, Sample, TWO_KERNS};
use test_support::terms::font_of;
use tfm_tables::{Font, Step};

/// The codes 228 to 230, which are ä, å and æ in T1, of 10, 20 and 30 sp, a kern of -10 sp between the first two, and
/// a space of 50 sp.
static LETTERS: Sample<'static> = Sample {
    bc: 228,
    ec: 230,
    characters: &[A_FROM_0, B, C],
    width: &[0, 16, 32, 48],
    program: &[Step {
        skip: 128,
        next: 229,
        op: 128,
        remainder: 0,
    }],
    kerns: &[0xFFFF_FFF0],
    parameters: &[0, 80],
    ..PLAIN
};

/// Fonts that are copied at each use.
static COPIED: [Sample<'static>; 3] = [TWO_KERNS, SKIPPING, NO_PROGRAM];

/// The sample fonts. `Ligature` and `Endless` have an operation.
#[derive(Clone, Copy, Debug)]
pub enum Named {
    Plain,
    NoSpace,
    NoParameters,
    Ligature(u8),
    TwoKerns,
    Skipping,
    ThreeKerns,
    Indirect,
    RightBoundary,
    BoundaryExists,
    LeftBoundary,
    NoProgram,
    Endless(u8),
    Largest,
    Letters,
}

impl Named {
    /// Returns the font's file.
    pub fn file(self, alloc: Global) -> Result<Vec<u8>, AllocError> {
        match self {
            Named::Plain => plain(alloc),
            Named::NoSpace => without_space(alloc),
            Named::NoParameters => without_parameters(alloc),
            Named::Ligature(op) => ligature(alloc, op),
            Named::TwoKerns => COPIED[0].file(alloc),
            Named::Skipping => COPIED[1].file(alloc),
            Named::ThreeKerns => SHORT.file(alloc),
            Named::Indirect => indirect(alloc),
            Named::RightBoundary => right_boundary(alloc),
            Named::BoundaryExists => boundary_exists(alloc),
            Named::LeftBoundary => left_boundary(alloc),
            Named::NoProgram => COPIED[2].file(alloc),
            Named::Endless(op) => endless(alloc, op),
            Named::Largest => largest(alloc),
            Named::Letters => LETTERS.file(alloc),
        }
    }

    /// Reads the font at its design size.
    pub fn font<R: Abort + AllocGlobal>(self, rt: &R) -> Font {
        font_of(rt.alloc(), self.file(rt.alloc())).expect(rt, "a font")
    }
}
