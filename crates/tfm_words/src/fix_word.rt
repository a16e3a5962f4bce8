ghost use Rattle.std.specs.Prelude.{◌≡◌, ◌*◌, ◌-◌, ◌^◌, ◌<◌, ◌≤◌, ◌*ℤ◌, pos, IfSome, IsTrue};
ghost use Rattle.tfm_words.specs.Word.{value_of};
ghost use Rattle.tfm_words.specs.Scaling.{IsFloor, beta_of, floor_of, halved, is_scalable, scaled_at};

use crate::Size;
use byteorder::{BigEndian, ByteOrder};

/// A signed number in units of 2^-20, which is how a TFM file stores the design size, dimensions and
/// the slant. The design size is in points and the slant is a plain number; all others are multiples
/// of the design size (tftopl.web, section 9).
#[derive(Clone, Copy, Debug, PartialEq, Eq)]
pub struct FixWord(pub i32);

impl FixWord {
    /// Returns the number in a word: 32 bits in two's complement, the highest byte first.
    pub fn of(word: [u8; 4]) -> Self
        ensures { result.0 ≡ value_of word }
    {
        FixWord(BigEndian::read_i32(&word))
    }

    /// Returns the product of this number and `size`, in sp, rounded down: a negative product too is
    /// rounded to the smaller number. As in TeX, a size of 2^23 sp or more is first halved until it is
    /// below 2^23, which drops up to four of its lowest bits. Returns `None` for a number outside -2^24
    /// to 2^24 - 1 (as a fix_word: below -16, or 16 or more), which no dimension of a font may be
    /// (tex.web, sections 571 and 572).
    pub fn scaled(self, size: Size) -> Option<i32>
        ensures value { result ≡ scaled_at self.0 size }
        ensures floor { IfSome result
            (λ amount. IsFloor (self.0 *ℤ pos (halved size)) (65536 * beta_of size) amount) }
    {
        if !(-0x100_0000..0x100_0000).contains(&self.0) {
            return None;
        }
        let halvings = size.halvings();
        let amount = part_of(self.0, size.get() >> halvings, halvings);
        Some(amount)
    }
}

/// Returns `number * halved / 2^(20 - halvings)`, rounded down. The divisor is 65,536 times beta, in
/// the notation of tex.web, section 572.
fn part_of(number: i32, halved: u32, halvings: u32) -> i32
    requires number { IsTrue (is_scalable number) }
    requires halved { halved < 2 ^ 23 }
    requires halvings { halvings ≤ 4 }
    ensures { result ≡ floor_of (number *ℤ pos halved) (65536 * 2 ^ (4 - halvings)) }
{
    let product = i64::from(number) * i64::from(halved);
    (product >> (20 - halvings)) as i32
}
