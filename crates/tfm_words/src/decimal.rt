ghost use Rattle.std.specs.Prelude.{◌≡◌, ◌≤◌, ◌++◌, OnOk, OnErr, vec_capacity};
ghost use Rattle.tfm_words.specs.Appending.{HasNoRoomFor, StaysInFront};

use itoa::{Buffer, Integer};
use std::alloc::AllocError;

/// Appends the bytes `before`, and then a number in decimal. The error means that an allocation failed; some
/// of the bytes may then have been appended. The call succeeds if `text` has enough capacity.
#[tactic(auto, using(crate::proofs::AppendingLemmas::fronts))]
#[inline(always)]
pub fn push_number<I: Integer>(
    text: &mut Vec<u8>,
    before: &[u8],
    number: I,
) -> Result<(), AllocError>
    ensures front { StaysInFront text.old.items text.new.items }
    ensures pushed { OnOk result (text.new.items ≡ text.old.items ++ before.now ++ I.text number) }
    ensures grows { vec_capacity text.old ≤ vec_capacity text.new }
    ensures full { OnErr result (HasNoRoomFor text.old (before.now ++ I.text number)) }
{
    let mut buffer = Buffer::new();
    text.extend_from_slice(before)?;
    text.extend_from_slice(buffer.format(number).as_bytes())
}
