//! The texts and the numbers in the header of a font.
ghost use Rattle.std.specs.Prelude.{◌≡◌, ◌+◌, ◌≤◌, length};
ghost use Rattle.std.specs.Option.{option_map};
ghost use Rattle.tfm_tables.specs.Header.{check_sum_of, coding_of, face_of, family_of, seven_bit_of, text_in};

use crate::FontMetrics;
use tfm_words::{FixWord, Table};

/// Returns the text after a length byte; a length above `most` is read as `most`.
fn text(bytes: &[u8], most: usize) -> &[u8]
    requires { most + 1 ≤ length bytes.now }
    ensures { result.now ≡ text_in most bytes.now }
{
    let len = usize::from(bytes[0]).min(most);
    &bytes[1..1 + len]
}

impl FontMetrics {
    /// Returns the check sum: the first word of the header, as an unsigned number.
    pub fn check_sum(&self) -> u32
        ensures { result ≡ check_sum_of self.now.words }
    {
        let FixWord(bits) = FixWord::of(self.tables().entry(Table::Header, 0));
        bits.cast_unsigned()
    }

    /// Returns the coding scheme, at most 39 bytes, or `None` if the header has fewer than 12 words. A
    /// length byte above 39 is read as 39.
    pub fn coding(&self) -> Option<&[u8]>
        ensures { option_map (λ text. text.now) result ≡ coding_of self.now.words }
    {
        if self.counts().lh() < 12 {
            return None;
        }
        Some(text(&self.tables().bytes_of(Table::Header)[8..], 39))
    }

    /// Returns the family, at most 19 bytes, or `None` if the header has fewer than 17 words. A
    /// length byte above 19 is read as 19.
    pub fn family(&self) -> Option<&[u8]>
        ensures { option_map (λ text. text.now) result ≡ family_of self.now.words }
    {
        if self.counts().lh() < 17 {
            return None;
        }
        Some(text(&self.tables().bytes_of(Table::Header)[48..], 19))
    }

    /// Returns whether the header marks the font as seven-bit safe, or `None` if the header has fewer
    /// than 18 words.
    pub fn seven_bit(&self) -> Option<bool>
        ensures { result ≡ seven_bit_of self.now.words }
    {
        if self.counts().lh() < 18 {
            return None;
        }
        let [flag, _, _, _] = self.tables().entry(Table::Header, 17);
        Some(flag >= 128)
    }

    /// Returns the face byte, or `None` if the header has fewer than 18 words.
    pub fn face(&self) -> Option<u8>
        ensures { result ≡ face_of self.now.words }
    {
        if self.counts().lh() < 18 {
            return None;
        }
        let [_, _, _, face] = self.tables().entry(Table::Header, 17);
        Some(face)
    }
}
