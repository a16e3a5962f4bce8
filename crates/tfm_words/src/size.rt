ghost use Rattle.std.specs.Prelude.{◌≡◌, ℕ, ◌<◌, ◌≤◌, ◌^◌, ◌/◌, ◌↔◌, IsSome, IfSome};
ghost use Rattle.tfm_words.specs.Scaling.{halvings_of};

use std::marker::Model;

/// The size that a font is read at, in scaled points (65,536 sp = 1 pt): from 1 to 134,217,727 sp,
/// which is less than 2,048 pt (tex.web, sections 571 and 1259).
#[derive(Clone, Copy, Debug, PartialEq, Eq)]
pub struct Size {
    scaled_points: u32,
}

impl Model for Size {
    ghost use Rattle.std.specs.Prelude.{ℕ, ◌<◌, ◌≤◌, ◌^◌};

    ghost Value = { ℕ };

    ghost view = { λ s. s.scaled_points };

    ghost invariant = { λ s. (1 ≤ s.scaled_points) × (s.scaled_points < 2 ^ 27) };

    ghost inverse = { λ n. record { scaled_points = n } };
}

impl Size {
    /// Returns the size of this many sp, or `None` for a number outside 1 to 134,217,727.
    pub fn new(scaled_points: u32) -> Option<Self>
        ensures range { IsSome result ↔ ((1 ≤ scaled_points) × (scaled_points ≤ 134217727)) }
        ensures value { IfSome result (λ size. size ≡ scaled_points) }
    {
        if matches!(scaled_points, 1..0x800_0000) {
            Some(Size { scaled_points })
        } else {
            None
        }
    }

    /// Returns the size in sp.
    pub fn get(self) -> u32
        ensures value { result ≡ self }
        ensures range { (1 ≤ result) × (result ≤ 134217727) }
    {
        self.scaled_points
    }

    /// Returns the smallest number of halvings, each rounded down, that brings the size below 2^23, as
    /// scaling requires. It is at most 4.
    pub(crate) fn halvings(self) -> u32
        ensures count { result ≡ halvings_of self }
        ensures few { result ≤ 4 }
        ensures enough { self / 2 ^ result < 2 ^ 23 }
        ensures least { (e : ℕ) → e < result → 2 ^ 23 ≤ self / 2 ^ e }
    {
        match self.scaled_points {
            0..0x80_0000 => 0,
            0x80_0000..0x100_0000 => 1,
            0x100_0000..0x200_0000 => 2,
            0x200_0000..0x400_0000 => 3,
            _ => 4,
        }
    }
}
