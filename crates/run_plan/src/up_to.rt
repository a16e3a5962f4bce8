ghost use Rattle.std.specs.Prelude.{◌≡◌, ◌≤◌, ◌↔◌, IsSome, IfSome};

use std::marker::Model;

/// A number from 1 to `MOST`.
#[derive(Clone, Copy, Debug, PartialEq, Eq)]
pub struct UpTo<const MOST: usize> {
    number: usize,
}

impl<const MOST: usize> Model for UpTo<MOST> {
    ghost use Rattle.std.specs.Prelude.{ℕ, ◌≤◌};

    ghost Value = { ℕ };

    ghost view = { λ n. n.number };

    ghost invariant = { λ n. (1 ≤ n.number) × (n.number ≤ MOST) };

    ghost inverse = { λ n. record { number = n } };
}

impl<const MOST: usize> UpTo<MOST> {
    /// Returns this number, or `None` outside 1 to `MOST`.
    pub fn new(number: usize) -> Option<Self>
        ensures range { IsSome result ↔ ((1 ≤ number) × (number ≤ MOST)) }
        ensures value { IfSome result (λ made. made ≡ number) }
    {
        if 1 <= number && number <= MOST {
            Some(UpTo { number })
        } else {
            None
        }
    }

    /// Returns the number.
    pub fn get(self) -> usize
        ensures value { result ≡ self.entry }
        ensures range { (1 ≤ result) × (result ≤ MOST) }
    {
        self.number
    }
}
