//! Writes lengths.
ghost use Rattle.std.specs.Prelude.{◌≡◌, ◌++◌, OnOk};
ghost use Rattle.tfm_words.specs.Appending.{StaysInFront};
ghost use Rattle.tex_sizes.specs.Lengths.{length_text, sign_of};

use crate::LengthUnit;
use crate::decimals::{Decimal, decimal_in, push_decimal};
use crate::units::unit_ratio;
use std::alloc::AllocError;
use tfm_words::push_number;

/// Appends the bytes `before`, and then a length of `sp` scaled points in a unit. The error means that an
/// allocation failed; some of the bytes may then have been appended.
///
/// In `sp` the length is a whole number without the name of the unit. In `pt` it is what TeX's `\the` prints
/// (tex.web, section 103), such as `39.44447pt`: the shortest number that TeX reads as the same length. In
/// any other unit the number has five decimals; it is rounded to the nearest, and half to the even one. A
/// negative length has a minus sign, unless all its digits are zero.
#[tactic(auto, using(tfm_words::proofs::AppendingLemmas::fronts), unfolding(crate::specs::Lengths::length_text))]
pub fn push_length(
    text: &mut Vec<u8>,
    before: &[u8],
    sp: i64,
    unit: LengthUnit,
) -> Result<(), AllocError>
    ensures front { StaysInFront text.old.items text.new.items }
    ensures pushed { OnOk result (text.new.items ≡ text.old.items ++ before.now ++ length_text unit sp) }
{
    let Some(ratio) = unit_ratio(unit.name().as_bytes()) else {
        return push_number(text, before, sp);
    };
    let decimal = decimal_in(unit, ratio, sp.unsigned_abs());
    text.extend_from_slice(before)?;
    push_decimal(text, sign(sp, decimal), decimal)?;
    text.extend_from_slice(unit.name().as_bytes())
}

/// Returns the sign of a length.
fn sign(sp: i64, decimal: Decimal) -> &'static [u8]
    ensures { result.now ≡ sign_of sp decimal }
{
    if sp < 0 && decimal.number > 0 {
        b"-"
    } else {
        b""
    }
}
