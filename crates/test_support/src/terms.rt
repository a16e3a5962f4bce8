//! What a line is set with. A result is `None` only if an allocation fails or the font is refused.
use crate::fonts::PLAIN;
use crate::fonts::examples::ligature;
use set_line::{Limit, Policy, Terms};
use std::alloc::{AllocError, Global};
use std::sync::Arc;
use tfm_tables::{Font, FontFault};

/// The limit on steps that most terms have, which is the default of the program.
pub const LIMIT: u32 = 1_048_576;

/// Reads the font in a file that was made, at its design size.
pub fn font_of(alloc: Global, file: Result<Vec<u8>, AllocError>) -> Result<Font, FontFault> {
    match file {
        Ok(file) => Font::read(alloc, &file, None),
        Err(_) => Err(FontFault::OutOfMemory),
    }
}

/// Returns terms with the font in this file, a limit in its range and a policy.
pub fn terms_of(
    alloc: Global,
    file: Result<Vec<u8>, AllocError>,
    limit: u32,
    policy: Policy,
) -> Option<Arc<Terms>> {
    let font = font_of(alloc, file).ok()?;
    let terms = Terms::new(font, Limit::new(limit)?, policy);
    Arc::new(alloc, terms).ok()
}

/// Returns terms with the plain font.
pub fn plain_terms(alloc: Global) -> Option<Arc<Terms>> {
    terms_of(alloc, PLAIN.file(alloc), LIMIT, Policy::Refuse)
}

/// Returns terms with the font that inserts c between a and b, and keeps both.
pub fn ligature_terms(alloc: Global) -> Option<Arc<Terms>> {
    terms_of(alloc, ligature(alloc, 3), LIMIT, Policy::Refuse)
}
