//! The digits that a text begins with, and the numbers that they write.
ghost use Rattle.std.specs.Prelude.{◌≡◌, ℕ, ◌+◌, ◌*◌, ◌/◌, ◌^◌, ◌≤◌, length, min};
ghost use Rattle.std.specs.Float.Numeral.{digits_len};
ghost use Rattle.std.specs.Str.Parse.{AllDigits, digits_value};
ghost use Rattle.tex_sizes.specs.Sizes.{digits_of, fraction_value, rest_of};

/// The smallest number of sp above the range of a size, 2^27.
pub(crate) const LIMIT: u64 = 0x800_0000;

/// Splits a text after the digits that it begins with.
#[tactic(auto, using(crate::proofs::DigitLemmas::splits))]
pub(crate) fn split_digits(text: &[u8]) -> (&[u8], &[u8])
    ensures digits { result.0.now ≡ digits_of text.now }
    ensures rest { result.1.now ≡ rest_of text.now }
    ensures all { AllDigits 10 result.0.now }
{
    text.split_at(digit_count(text))
}

/// Returns the number of digits that a text begins with.
fn digit_count(text: &[u8]) -> usize
    ensures count { result ≡ digits_len text.now }
{
    let mut count = 0;
    while count < text.len() && text[count].is_ascii_digit() {
        count += 1;
    }
    count
}

/// Returns the number that digits write, or 2^27 if it is larger.
#[tactic(auto, using(crate::proofs::DigitLemmas::wholes))]
pub(crate) fn whole_number(digits: &[u8]) -> u64
    requires { AllDigits 10 digits.now }
    ensures { result ≡ min (digits_value 10 digits.now) (2 ^ 27) }
{
    let mut number = 0;
    for digit in digits {
        number = LIMIT.min(10 * number + u64::from(*digit - b'0'));
    }
    number
}

/// Returns the decimal fraction that digits write, in units of 2^-16, rounded to the nearest. As in TeX,
/// the digits are read from the last to the first, and each quotient is rounded down.
#[tactic(auto, using(crate::proofs::DigitLemmas::fractions))]
pub(crate) fn rounded_fraction(digits: &[u8]) -> u64
    requires { AllDigits 10 digits.now }
    ensures value { result ≡ fraction_value digits.now }
    ensures range { result ≤ 2 ^ 16 }
{
    let mut doubled = 0;
    let mut at = digits.len();
    while at > 0 {
        at -= 1;
        doubled = (doubled + 0x2_0000 * u64::from(digits[at] - b'0')) / 10;
    }
    (doubled + 1) / 2
}
