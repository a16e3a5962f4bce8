//! The characters of the names in the Adobe Glyph List and of some names of TeX.
ghost use Rattle.std.specs.Prelude.{◌≡◌, ◌≤◌, ◌<◌, IfSome, MatchOption, None, Some, get_or, length};
ghost use Rattle.encoding_vectors.specs.Glyphs.{digits_beside, listed_digits as listed_digits_of, rows_in, rows_of};

use crate::glyphs::list::{ROWS, STARTS};

mod list;

/// Returns all rows.
fn all_rows() -> &'static [u8]
    ensures rows { result.now ≡ ROWS.now }
    ensures len { length result.now ≡ 74150 }
{
    ROWS
}

/// Returns the offset of the first row of the names of so many bytes.
fn start_of(count: usize) -> usize
    requires { count < 41 }
    ensures { result ≡ get_or STARTS count 0 }
{
    STARTS[count]
}

/// Returns the rows of the names of so many bytes.
#[tactic(auto, using(crate::proofs::GlyphLemmas::part_there), unfolding(crate::specs::Glyphs::rows_of))]
fn rows_with(count: usize) -> &'static [u8]
    requires { count < 40 }
    ensures { result.now ≡ rows_of count }
{
    let rows = all_rows();
    let start = start_of(count);
    let end = start_of(count + 1);
    &rows[start..end]
}

/// Returns the digits in the row of a name, or `None` if there is no such row. The names in the rows have as
/// many bytes as this one.
fn digits_in<'a>(rows: &'a [u8], name: &[u8]) -> Option<&'a [u8]>
    ensures digits { MatchOption result (digits_beside (rows_in (length name.now) rows.now) name.now ≡ None)
        (λ digits. digits_beside (rows_in (length name.now) rows.now) name.now ≡ Some digits.now) }
    ensures few { IfSome result (λ digits. length digits.now ≤ 6) }
{
    let count = name.len();
    let mut rest = rows;
    while rest.len() >= count + 6 {
        if &rest[..count] == name {
            return Some(&rest[count + 1..count + 5]);
        }
        rest = rest.split_at(count + 6).1;
    }
    None
}

/// Returns the number of the character of a name in the list, in hexadecimal digits, or `None` for any other
/// name.
pub(crate) fn listed_digits(name: &[u8]) -> Option<&'static [u8]>
    ensures digits { MatchOption result (listed_digits_of name.now ≡ None)
        (λ digits. listed_digits_of name.now ≡ Some digits.now) }
    ensures few { IfSome result (λ digits. length digits.now ≤ 6) }
{
    if name.len() >= 40 {
        return None;
    }
    digits_in(rows_with(name.len()), name)
}
