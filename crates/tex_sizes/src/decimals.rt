//! Lengths as decimal numbers, and their texts.
ghost use Rattle.std.specs.Prelude.{◌≡◌, ◌⊎◌, ◌≤◌, ◌++◌, ◌^◌, OnOk};
ghost use Rattle.tfm_words.specs.Appending.{StaysInFront};
ghost use Rattle.tex_sizes.specs.Lengths.{decimal_in as length_in, decimal_text, is_read_back, nearest_decimal, nearest_even as rounded_quotient, points_power as power_of_points};

use crate::LengthUnit;
use crate::units::Ratio;
use itoa::Buffer;
use std::alloc::AllocError;
use tfm_words::push_number;

/// A decimal number: so many units of 1/power.
#[derive(Clone, Copy)]
pub(crate) struct Decimal {
    pub number: u128,
    pub power: u128,
}

/// Returns a length of `sp` in a unit, whose length in points is `ratio`: in points the shortest number that
/// TeX reads as the same length, and in another unit a number with five decimals.
#[tactic(auto, unfolding(crate::specs::Lengths::decimal_in))]
pub(crate) fn decimal_in(unit: LengthUnit, ratio: Ratio, sp: u64) -> Decimal
    requires { (1 ≤ ratio.under) × (1 ≤ ratio.over) × (ratio.under ≤ 14856) × (ratio.over ≤ 14856) }
    ensures value { result ≡ length_in unit ratio sp }
    ensures power { (10 ≤ result.power) × (result.power ≤ 100000) }
{
    let sp = u128::from(sp);
    if let LengthUnit::Points = unit {
        let power = points_power(sp);
        let number = nearest(power, sp);
        return Decimal { number, power };
    }
    let (over, under) = (u128::from(ratio.over), u128::from(ratio.under));
    let number = nearest_even(100_000 * under * sp, 0x1_0000 * over);
    let power = 100_000;
    Decimal { number, power }
}

/// Returns 10 to the number of decimals of so many sp in points.
#[tactic(auto, unfolding(crate::specs::Lengths::points_power))]
fn points_power(sp: u128) -> u128
    requires { sp ≤ 2 ^ 64 }
    ensures value { result ≡ power_of_points sp }
    ensures range { (10 ≤ result) × (result ≤ 100000) }
{
    match sp {
        sp if reads_back(sp, 10) => 10,
        sp if reads_back(sp, 100) => 100,
        sp if reads_back(sp, 1000) => 1000,
        sp if reads_back(sp, 10_000) => 10_000,
        _ => 100_000,
    }
}

/// Returns whether TeX reads so many sp in points, with as many decimals as the power has zeros, as the same
/// amount.
fn reads_back(sp: u128, power: u128) -> bool
    requires sp { sp ≤ 2 ^ 64 }
    requires power { (10 ≤ power) × (power ≤ 100000) }
    ensures { result ≡ is_read_back sp power }
{
    (0x2_0000 * nearest(power, sp) + power) / (2 * power) == sp
}

/// Returns so many sp in points, in units of 1/power, rounded to the nearest, and half upward.
fn nearest(power: u128, sp: u128) -> u128
    requires sp { sp ≤ 2 ^ 64 }
    requires power { (10 ≤ power) × (power ≤ 100000) }
    ensures value { result ≡ nearest_decimal power sp }
    ensures range { result ≤ 2 ^ 65 }
{
    (power * sp + 0x8000) / 0x1_0000
}

/// Returns a quotient, rounded to the nearest whole number, and half to the even one.
fn nearest_even(dividend: u128, divisor: u128) -> u128
    requires dividend { dividend ≤ 2 ^ 120 }
    requires divisor { (1 ≤ divisor) × (divisor ≤ 2 ^ 32) }
    ensures { result ≡ rounded_quotient dividend divisor }
{
    let quotient = dividend / divisor;
    if 2 * (dividend % divisor) == divisor && quotient % 2 == 0 {
        return quotient;
    }
    (2 * dividend + divisor) / (2 * divisor)
}

/// Appends bytes, and then the text of a decimal number.
#[tactic(auto, using(tfm_words::proofs::AppendingLemmas::fronts, std::proofs::lemmas::Fmt::decimal_nonempty), unfolding(crate::specs::Lengths::decimal_text))]
pub(crate) fn push_decimal(
    text: &mut Vec<u8>,
    before: &[u8],
    decimal: Decimal,
) -> Result<(), AllocError>
    requires { (10 ≤ decimal.power) × (decimal.power ≤ 100000) }
    ensures front { StaysInFront text.old.items text.new.items }
    ensures pushed { OnOk result (text.new.items ≡ text.old.items ++ before.now ++ decimal_text decimal) }
{
    let mut buffer = Buffer::new();
    push_number(text, before, decimal.number / decimal.power)?;
    text.extend_from_slice(b".")?;
    let fraction = (decimal.power + decimal.number % decimal.power) as u32;
    text.extend_from_slice(&buffer.format(fraction).as_bytes()[1..])
}
