//! Writes bytes to a writer that may fail, and states how many of them were written.
ghost use Rattle.std.specs.Prelude.{◌≡◌, ◌≤◌, take, length, IfErr, IfSome, IsNone, OnOk};
ghost use Rattle.std.specs.Io.KnownBytes.{Appends, Keeps};

use crate::ToolFault;
use std::io::{ErrorKind, Write};

/// Writes with one call, and returns the number of bytes that were written: 0 if the call was interrupted.
/// Returns `None` if the writer fails or writes none.
#[tactic(auto, using(crate::proofs::StreamLemmas::appends))]
fn write_once<W: Write>(bytes: &[u8], out: &mut W) -> Option<usize>
    ensures took { IfSome result (λ count. (count ≤ length bytes.now)
        × Appends (W.contents out.old) (W.contents out.new) (take count bytes.now)) }
    ensures refused { IsNone result → Keeps (W.contents out.old) (W.contents out.new) }
{
    match out.write(bytes) {
        Ok(0) => None,
        Ok(count) => Some(count),
        Err(fault) if fault.kind() == ErrorKind::Interrupted => Some(0),
        Err(_) => None,
    }
}

/// Writes these bytes until all are written or the writer fails, and returns the number of bytes that were
/// written.
#[tactic(auto, using(crate::proofs::StreamLemmas::appends))]
pub(crate) fn write_some<W: Write>(bytes: &[u8], out: &mut W) -> usize
    ensures within { result ≤ length bytes.now }
    ensures written { Appends (W.contents out.old) (W.contents out.new) (take result bytes.now) }
{
    let mut done = 0;
    for _ in 0..u64::MAX {
        if done == bytes.len() {
            return done;
        }
        match write_once(&bytes[done..], out) {
            Some(count) => done += count,
            None => return done,
        }
    }
    done
}

/// Writes all of these bytes. A write that is interrupted is made again. The error is `Write` if the writer
/// fails or takes no bytes; nothing is stated about how much was then written.
#[tactic(auto, using(crate::proofs::StreamLemmas::all_appended))]
pub fn write_text<W: Write>(bytes: &[u8], out: &mut W) -> Result<(), ToolFault>
    ensures text { OnOk result (Appends (W.contents out.old) (W.contents out.new) bytes.now) }
    ensures fault { IfErr result (λ fault. fault ≡ ToolFault.Write) }
{
    let done = write_some(bytes, out);
    if done < bytes.len() {
        return Err(ToolFault::Write);
    }
    Ok(())
}
