//! The files of the folder examples/fonts, and a few more in that form.
use super::named::{
    BOUNDARY_EXISTS, ENDLESS, INDIRECT, LEFT_BOUNDARY, LIGATURE, NO_CHARACTERS, PLAIN,
    RIGHT_BOUNDARY, endless_program, header, header_texts, largest_program, ligature_program,
    with_program,
};
use super::sample::Sample;
use std::alloc::{AllocError, Global};
use tfm_tables::Step;

/// No characters.
pub fn no_characters(alloc: Global) -> Result<Vec<u8>, AllocError> {
    NO_CHARACTERS.file(alloc)
}

/// a, b and c without programs.
pub fn plain(alloc: Global) -> Result<Vec<u8>, AllocError> {
    PLAIN.file(alloc)
}

/// The same without the parameter that is the space, which is then 0.
pub fn without_space(alloc: Global) -> Result<Vec<u8>, AllocError> {
    Sample {
        parameters: &[0],
        ..PLAIN
    }
    .file(alloc)
}

/// The same without any parameter.
pub fn without_parameters(alloc: Global) -> Result<Vec<u8>, AllocError> {
    Sample {
        parameters: &[],
        ..PLAIN
    }
    .file(alloc)
}

/// No characters, and a header with a coding scheme, a family and a face.
pub fn long_header(alloc: Global) -> Result<Vec<u8>, AllocError> {
    header(&header_texts()).file(alloc)
}

/// A ligature of a and b with c, by this operation.
pub fn ligature(alloc: Global, op: u8) -> Result<Vec<u8>, AllocError> {
    with_program(&ligature_program(op, 99)).file(alloc)
}

/// The font with a ligature, with these texts in its header and this program.
fn with_texts<'a>(texts: &'a [u8], program: &'a [Step]) -> Sample<'a> {
    Sample {
        texts,
        program,
        ..LIGATURE
    }
}

/// The same after a header with a coding scheme, a family and a face.
pub fn ligature_with_long_header(alloc: Global, op: u8) -> Result<Vec<u8>, AllocError> {
    let texts = header_texts();
    let program = ligature_program(op, 99);
    with_texts(&texts, &program).file(alloc)
}

/// A right boundary character that doesn't exist.
pub fn right_boundary(alloc: Global) -> Result<Vec<u8>, AllocError> {
    RIGHT_BOUNDARY.file(alloc)
}

/// A right boundary character that exists.
pub fn boundary_exists(alloc: Global) -> Result<Vec<u8>, AllocError> {
    BOUNDARY_EXISTS.file(alloc)
}

/// A left boundary's program.
pub fn left_boundary(alloc: Global) -> Result<Vec<u8>, AllocError> {
    LEFT_BOUNDARY.file(alloc)
}

/// A program that begins elsewhere, with an instruction that itself points elsewhere.
pub fn indirect(alloc: Global) -> Result<Vec<u8>, AllocError> {
    INDIRECT.file(alloc)
}

/// One more a between two of them, by this operation: some of these have no end.
pub fn endless(alloc: Global, op: u8) -> Result<Vec<u8>, AllocError> {
    Sample {
        program: &endless_program(op),
        ..ENDLESS
    }
    .file(alloc)
}

/// The largest font that the counts allow.
pub fn largest(alloc: Global) -> Result<Vec<u8>, AllocError> {
    super::named::largest(&largest_program(alloc)?).file(alloc)
}
