//! Sample fonts, field by field, and the files that they make.
pub mod examples;
pub mod files;
mod instructions;
pub mod lengths;
mod named;
mod sample;

pub use instructions::{boundary, far_kern_before, go_to, kern_before, last, ligature_before};
pub use named::{
    A, A_FROM_0, A_FROM_1, AHEAD, B, B_FROM_3, BACK, BOUNDARY_EXISTS, C, C_FROM_2, ENDLESS, HALF,
    INDIRECT, KERN_BEFORE_B, KERN_BEFORE_C, KERNS, LEFT_BOUNDARY, LIGATURE, LIGATURE_C,
    NO_CHARACTERS, NO_PROGRAM, NOTHING, PLAIN, PLAIN_PARAMETERS, QUARTER, RIGHT_BOUNDARY, SKIPPING,
    THREE_QUARTERS, TWO_KERNS, endless_program, header, header_texts, largest, largest_program,
    ligature_program, with_characters, with_program,
};
pub use sample::{Info, Sample};
