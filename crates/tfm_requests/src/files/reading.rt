//! Reads the fonts and the encoding vectors of a request to their end.
ghost use Rattle.std.specs.Prelude.{◌≡◌, ◌≢◌, ◌<◌, ◌≤◌, ℕ, ◌++◌, List, [], length, take, Some, codes, IfOk, IfSome, IsNone, OnOk};
ghost use Rattle.std.specs.Io.KnownBytes.{Consumes, IsAtEnd};
ghost use Rattle.tfm_requests.specs.Kept.{HaveSameFont, kept_of};
ghost use Rattle.tfm_requests.specs.Known.{font_bytes_of};

use crate::failures::errors::ReadFault;
use crate::files::opening::{Opens, Purpose};
use std::alloc::{AllocError, Global};
use std::io::{ErrorKind, Read};

/// The largest number of reads for a font.
const MAX_READS: u32 = 1_048_576;

/// The largest number of bytes that are kept of a font: one more than the largest `4 * lf`, with `lf` below 2^15,
/// since `check --strict` reports that a file is longer. Bytes after these are read only to find the end of the
/// file.
const MOST_KEPT: usize = 131_069;

/// The number of bytes that each read requests.
const READ_SIZE: usize = 4096;

/// Reads the font of this name to its end: the file of this name, or `input` if the name is `-`. Returns its
/// first bytes, which decide what its font is. Fails if the file isn't opened, a read fails, 1,048,576 reads
/// don't reach its end, or an allocation fails. A read that is interrupted is made again, and counts.
pub(crate) fn font_bytes<F, I>(
    alloc: Global,
    files: &F,
    font: &str,
    input: &mut I,
) -> Result<Vec<u8>, ReadFault>
where
    F: Opens,
    I: Read,
    ensures bytes { IfOk result (λ bytes. IfSome
        (font_bytes_of (F.known files.now) (I.remaining input.old) font.now)
        (λ all. HaveSameFont bytes.items all)) }
    ensures unread { font.now ≢ codes "-" → input.new ≡ input.old }
{
    if font == "-" {
        return kept_bytes(alloc, input);
    }
    file_bytes(alloc, files, font, Purpose::Font)
}

/// Reads with one call into a buffer that isn't empty. Returns the number of bytes, which is 0 if the read was
/// interrupted, or `None` at the end.
#[tactic(auto, using(crate::proofs::KeptLemmas::nothing_read))]
fn read_once<I: Read>(input: &mut I, buffer: &mut [u8]) -> Result<Option<usize>, ReadFault>
    requires room { 0 < length buffer.old }
    ensures read { IfOk result (λ read. IfSome read (λ count. (count ≤ length buffer.new)
        × Consumes (I.remaining input.old) (I.remaining input.new) (take count buffer.new))) }
    ensures end { IfOk result (λ read. IsNone read
        → Consumes (I.remaining input.old) (I.remaining input.new) [] × IsAtEnd (I.remaining input.new)) }
{
    match input.read(buffer) {
        Ok(0) => Ok(None),
        Ok(count) => Ok(Some(count)),
        Err(error) if error.kind() == ErrorKind::Interrupted => Ok(Some(0)),
        Err(_) => Err(ReadFault::NotRead),
    }
}

/// Reads to the end of `input`. Returns its bytes, up to the number that a font can have.
fn kept_bytes<I: Read>(alloc: Global, input: &mut I) -> Result<Vec<u8>, ReadFault>
    ensures { IfOk result (λ bytes.
        IfSome (I.remaining input.old) (λ all. bytes.items ≡ kept_of all)) }
{
    let mut bytes = Vec::new(alloc);
    let mut buffer = [0; READ_SIZE];
    for _ in 0..MAX_READS {
        match read_once(input, &mut buffer)? {
            Some(count) => keep(&mut bytes, &buffer[..count]).map_err(|_| ReadFault::OutOfMemory)?,
            None => return Ok(bytes),
        }
    }
    Err(ReadFault::NotRead)
}

/// Appends the next bytes of a file, up to the number that a font can have. Fails if an allocation fails.
fn keep(bytes: &mut Vec<u8>, next: &[u8]) -> Result<(), AllocError>
    ensures { OnOk result ((read : List ℕ) → bytes.old.items ≡ kept_of read
        → bytes.new.items ≡ kept_of (read ++ next.now)) }
{
    let room = MOST_KEPT.saturating_sub(bytes.len());
    bytes.extend_from_slice(&next[..room.min(next.len())])?;
    Ok(())
}

/// Opens the file of this name and reads it to its end. Returns its bytes, up to the number that a font can
/// have. Fails as [`font_bytes`] does.
pub(crate) fn file_bytes<F: Opens>(
    alloc: Global,
    files: &F,
    name: &str,
    purpose: Purpose,
) -> Result<Vec<u8>, ReadFault>
    ensures { IfOk result (λ bytes.
        IfSome (F.known files.now name.now) (λ all. bytes.items ≡ kept_of all)) }
{
    let mut file = opened(files, name, purpose)?;
    kept_bytes(alloc, &mut file)
}

/// Opens the file of this name. The error is `OutOfMemory` if the error of the file system has this kind,
/// otherwise `NotRead`.
pub(crate) fn opened<F: Opens>(
    files: &F,
    name: &str,
    purpose: Purpose,
) -> Result<F::File, ReadFault>
    ensures { IfOk result (λ file. IfSome (F.known files.now name.now)
        (λ all. F.File.remaining file ≡ Some all)) }
{
    files
        .open(name, purpose)
        .map_err(|error| match error.kind() {
            ErrorKind::OutOfMemory => ReadFault::OutOfMemory,
            _ => ReadFault::NotRead,
        })
}
