//! Writes the text of an item from its last byte to its first, because the number of digits of a number isn't
//! known before they are written.
ghost use Rattle.std.specs.Prelude.{◌≡◌, ◌+◌, ◌≤◌, ◌++◌, ◌∷◌, [], length, codes, drop, decimal};
ghost use Rattle.std.specs.Fmt.{signed_decimal};
ghost use Rattle.run_plan.specs.Versions.{label};
ghost use Rattle.set_line.specs.Record.{closing, opening, text_in};

use crate::Version;
use itoa::write_digits;
use lig_kern::Item;

/// The largest number of bytes in the text of an item, as in `,["c",255,-2147483648]`.
pub(crate) const ITEM_BYTES: usize = 22;

/// Writes a byte so that it ends at `end`, and returns its index.
fn write_byte(text: &mut [u8], end: usize, byte: u8) -> usize
    requires { (1 ≤ end) × (end ≤ length text.old) }
    ensures place { result + 1 ≡ end }
    ensures written { drop result text.new ≡ byte ∷ drop end text.old }
{
    text[end - 1] = byte;
    end - 1
}

/// Writes a character code so that it ends at `end`, and returns its start.
#[tactic(auto, using(crate::proofs::WritingLemmas::numbers))]
fn write_code(text: &mut [u8], end: usize, code: u8) -> usize
    requires { (3 ≤ end) × (end ≤ length text.old) }
    ensures place { (result ≤ end) × (end ≤ result + 3) }
    ensures written { drop result text.new ≡ decimal code ++ drop end text.old }
{
    write_digits(u64::from(code), text, end)
}

/// Writes an amount so that it ends at `end`, and returns its start.
#[tactic(auto, using(crate::proofs::WritingLemmas::numbers))]
fn write_amount(text: &mut [u8], end: usize, amount: i32) -> usize
    requires { (11 ≤ end) × (end ≤ length text.old) }
    ensures place { (result ≤ end) × (end ≤ result + 11) }
    ensures written { drop result text.new ≡ signed_decimal amount ++ drop end text.old }
{
    let start = write_digits(u64::from(amount.unsigned_abs()), text, end);
    if amount >= 0 {
        return start;
    }
    write_byte(text, start, b'-')
}

/// Writes the letter for the kind of an item, with what is around it, so that they end at `end`, and returns
/// their start.
fn write_kind(text: &mut [u8], end: usize, letter: u8, version: Version) -> usize
    requires { (6 ≤ end) × (end ≤ length text.old) }
    ensures place { (result ≤ end) × (end ≤ result + 6) }
    ensures written { drop result text.new ≡ opening version (letter ∷ []) ++ drop end text.old }
{
    if !version.is_json() {
        let at = write_byte(text, end, letter);
        return write_byte(text, at, b' ');
    }
    let at = write_byte(text, end, b',');
    let at = write_byte(text, at, b'"');
    let at = write_byte(text, at, letter);
    let at = write_byte(text, at, b'"');
    let at = write_byte(text, at, b'[');
    write_byte(text, at, b',')
}

/// Writes what is between a code and a width so that it ends at `end`, and returns its index.
fn write_between(text: &mut [u8], end: usize, version: Version) -> usize
    requires { (1 ≤ end) × (end ≤ length text.old) }
    ensures place { result + 1 ≡ end }
    ensures written { drop result text.new ≡ label version (codes "=") (codes ",") ++ drop end text.old }
{
    if version.is_json() {
        return write_byte(text, end, b',');
    }
    write_byte(text, end, b'=')
}

/// Writes the end of an item so that it ends at `end`, and returns its start.
fn write_closing(text: &mut [u8], end: usize, version: Version) -> usize
    requires { (1 ≤ end) × (end ≤ length text.old) }
    ensures place { (result ≤ end) × (end ≤ result + 1) }
    ensures written { drop result text.new ≡ closing version ++ drop end text.old }
{
    if !version.is_json() {
        return end;
    }
    write_byte(text, end, b']')
}

/// Writes the text of an item in a format so that it ends at the index `end`, and returns the index of its first
/// byte. No text has more than 22 bytes.
#[tactic(auto, using(crate::proofs::WritingLemmas::items), unfolding(crate::specs::Record::text_in))]
pub fn write_item_text(text: &mut [u8], end: usize, item: &Item, version: Version) -> usize
    requires { (22 ≤ end) × (end ≤ length text.old) }
    ensures place { (result ≤ end) × (end ≤ result + 22) }
    ensures written { drop result text.new ≡ text_in version item.now ++ drop end text.old }
{
    let closing_at = write_closing(text, end, version);
    match *item {
        Item::Char { code, width } => {
            let width_at = write_amount(text, closing_at, width);
            let between_at = write_between(text, width_at, version);
            let code_at = write_code(text, between_at, code);
            write_kind(text, code_at, b'c', version)
        }
        Item::Kern(amount) => {
            let amount_at = write_amount(text, closing_at, amount);
            write_kind(text, amount_at, b'k', version)
        }
        Item::Space(amount) => {
            let amount_at = write_amount(text, closing_at, amount);
            write_kind(text, amount_at, b's', version)
        }
        Item::Skipped(code) => {
            let code_at = write_code(text, closing_at, code);
            write_kind(text, code_at, b'm', version)
        }
    }
}
