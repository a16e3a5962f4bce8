//! Encodes lines.
ghost use Rattle.std.specs.Prelude.{◌≡◌, ◌≤◌, None, length, IfErr, OnOk};
ghost use Rattle.encodings.specs.Lines.{IsFaultOf, encoded, fault_in};

use crate::decoding::push_text;
use crate::places::after_mark;
use crate::{EncodedLine, Encoding};
use std::str;

/// The reason why a line isn't encoded.
#[derive(Clone, Copy, Debug, PartialEq, Eq)]
pub enum EncodeFault {
    /// The line isn't UTF-8: the byte offset at which no character begins, starting at 0.
    NotUtf8(usize),
    /// An allocation failed.
    OutOfMemory,
}

/// Returns the byte offset at which a line stops being UTF-8, starting at 0, or `None` if it is UTF-8.
#[tactic(auto, using(crate::proofs::LineLemmas::faults))]
pub fn utf8_fault(line: &[u8]) -> Option<usize>
    ensures { result ≡ fault_in line.now }
{
    match str::from_utf8(line) {
        Ok(_) => None,
        Err(fault) => Some(fault.valid_up_to()),
    }
}

/// Encodes a line without its line feed into `line`, whose earlier contents are dropped and whose memory is
/// used again. `first` states that it is the first line of its source: a byte order mark at its front is then
/// left out.
///
/// Returns an [`EncodeFault`] if the line isn't UTF-8, or if an allocation fails. That a line isn't UTF-8 is
/// reported even if an allocation would fail. After a fault the contents of `line` are unspecified.
#[tactic(auto, using(crate::proofs::LineLemmas::whole))]
pub fn encode_line(
    encoding: Encoding,
    first: bool,
    bytes: &[u8],
    line: &mut EncodedLine,
) -> Result<(), EncodeFault>
    ensures ok { OnOk result (line.new ≡ encoded encoding.entry first bytes.now) }
    ensures few { OnOk result (length line.new ≤ length bytes.now) }
    ensures decoded { OnOk result (fault_in bytes.now ≡ None) }
    ensures fault { IfErr result (IsFaultOf bytes.now) }
{
    line.clear();
    if push_text(encoding, after_mark(first, bytes), line).is_some() {
        return Ok(());
    }
    match utf8_fault(bytes) {
        Some(offset) => Err(EncodeFault::NotUtf8(offset)),
        None => Err(EncodeFault::OutOfMemory),
    }
}
