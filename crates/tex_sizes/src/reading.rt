//! Reads a size.
ghost use Rattle.std.specs.Prelude.{◌≡◌, option_and_then};
ghost use Rattle.std.specs.Str.Parse.{AllDigits, without_leading_plus};
ghost use Rattle.tex_sizes.specs.Sizes.{amount_of, as_size, fraction_of, is_plain as is_plain_text, size_of, unit_of};

use crate::digits::{rounded_fraction, split_digits, whole_number};
use crate::units::unit_ratio;
use tfm_words::Size;

/// Returns the size that a text states, or `None` if it states none. The text is a number with a unit, such
/// as `12pt`, `10.95pt`, `4mm` or `655360sp`, or a whole number of sp without a unit.
///
/// A number with a unit is read and rounded as TeX reads a dimension (tex.web, sections 102, 107 and 448 to
/// 458). Its fraction follows a point or a comma. The units are `pt`, `in`, `pc`, `cm`, `mm`, `bp`, `dd`,
/// `cc` and `sp`, in lower case; of a number of `sp` the fraction is ignored. Signs, spaces, `true`, `em`,
/// `ex` and `mu`, which TeX reads as well, aren't part of a size. Before a whole number without a unit a plus
/// sign is allowed.
///
/// An amount outside the range of [`Size`], 1 to 134,217,727 sp, isn't a size.
pub fn read_size(text: &[u8]) -> Option<Size>
    ensures { result ≡ size_of text.now }
{
    let (digits, rest) = split_digits(without_plus(text));
    if rest.is_empty() {
        return size(whole_number(digits));
    }
    let (whole, rest) = split_digits(text);
    let (fraction, unit) = split_fraction(rest);
    dimension(whole, fraction, unit)
}

/// Returns whether a text is digits alone, maybe after a plus sign. If such a text states a size, the digits
/// are a number of sp.
pub fn is_plain(text: &[u8]) -> bool
    ensures { result ≡ is_plain_text text.now }
{
    let (_, rest) = split_digits(without_plus(text));
    rest.is_empty()
}

/// Returns the text without the plus sign that it begins with, or the whole text if it begins with none.
fn without_plus(text: &[u8]) -> &[u8]
    ensures { result.now ≡ without_leading_plus text.now }
{
    match text {
        [b'+', rest @ ..] => rest,
        _ => text,
    }
}

/// Returns the digits after the point or comma that a text begins with, and the text after them. There are no
/// digits if the text doesn't begin with a point or comma.
fn split_fraction(text: &[u8]) -> (&[u8], &[u8])
    ensures fraction { result.0.now ≡ fraction_of text.now }
    ensures unit { result.1.now ≡ unit_of text.now }
    ensures all { AllDigits 10 result.0.now }
{
    match text {
        [b'.' | b',', rest @ ..] => split_digits(rest),
        _ => (&[], text),
    }
}

/// Returns the size of a number with a unit. `whole` and `fraction` are the digits before and after its
/// point.
fn dimension(whole: &[u8], fraction: &[u8], unit: &[u8]) -> Option<Size>
    requires whole { AllDigits 10 whole.now }
    requires fraction { AllDigits 10 fraction.now }
    ensures { result ≡ option_and_then as_size (amount_of whole.now fraction.now unit.now) }
{
    let whole = whole_number(whole);
    if unit == b"sp".as_slice() {
        return size(whole);
    }
    let ratio = unit_ratio(unit)?;
    let amount = 0x1_0000 * whole + rounded_fraction(fraction);
    size(amount * u64::from(ratio.over) / u64::from(ratio.under))
}

/// Returns the size of this many sp, or `None` if the number is out of range.
fn size(amount: u64) -> Option<Size>
    ensures { result ≡ as_size amount }
{
    Size::new(u32::try_from(amount).ok()?)
}
