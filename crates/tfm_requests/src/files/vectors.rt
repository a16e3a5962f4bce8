//! The encoding of a request, which an encoding vector may define.
ghost use Rattle.std.specs.Prelude.{◌≡◌, IfErr, IfOk};
ghost use Rattle.tfm_requests.specs.Known.{OfKnown};
ghost use Rattle.tfm_requests.specs.Vectors.{IsEncodingError, IsEncodingOf, IsErrorOfText, IsVectorIn};

use crate::failures::errors::EncodingError;
use crate::files::opening::{Opens, Purpose};
use crate::files::reading::file_bytes;
use encoding_vectors::read_vector;
use encodings::{Encoding, Vector};
use std::alloc::{AllocError, Global};

/// Returns the encoding of a request: that of the vector in the file that the arguments name, which is read to
/// its end, or `stated` if they name none.
pub(crate) fn encoding_of<F: Opens>(
    alloc: Global,
    files: &F,
    vector: Option<&str>,
    stated: Option<Encoding<'static>>,
) -> Result<Option<Encoding<'static>>, EncodingError>
    ensures encoding { IfOk result (IsEncodingOf (F.known files.now) vector.entry stated.entry) }
    ensures cause { IfErr result (IsEncodingError (F.known files.now) vector.entry) }
{
    match vector {
        Some(file) => Ok(Some(read_encoding(alloc, files, file)?)),
        None => Ok(stated),
    }
}

/// Reads the file of this name to its end, and returns the encoding of its vector.
fn read_encoding<F: Opens>(
    alloc: Global,
    files: &F,
    file: &str,
) -> Result<Encoding<'static>, EncodingError>
    ensures encoding { IfOk result (λ encoding. OfKnown (F.known files.now file.now)
        (λ text. IsVectorIn text encoding)) }
    ensures cause { IfErr result (λ error. OfKnown (F.known files.now file.now)
        (λ text. IsErrorOfText text error)) }
{
    let text = file_bytes(alloc, files, file, Purpose::Vector)?;
    vector_encoding(alloc, text.as_slice())
}

/// Keeps a vector for all threads. Its memory, 2.9 KB, is never freed.
fn keep_vector(alloc: Global, vector: Vector) -> Result<&'static Vector, AllocError>
    ensures { IfOk result (λ kept. kept.now ≡ vector) }
{
    Ok(Box::leak(Box::new(alloc, vector)?))
}

/// Returns the encoding of the vector in this text.
fn vector_encoding(alloc: Global, text: &[u8]) -> Result<Encoding<'static>, EncodingError>
    ensures encoding { IfOk result (IsVectorIn text.now) }
    ensures cause { IfErr result (IsErrorOfText text.now) }
{
    match read_vector(text) {
        Ok(characters) => match keep_vector(alloc, Vector::of_characters(&characters)) {
            Ok(vector) => Ok(Encoding::Vector(vector)),
            Err(_) => Err(EncodingError::OutOfMemory),
        },
        Err(fault) => Err(EncodingError::Refused(fault.line)),
    }
}
