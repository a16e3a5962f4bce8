ghost use Rattle.std.specs.Prelude.{◌≡◌, ◌≤◌, ◌↔◌, IsSome, IfSome};

use std::marker::Model;

/// The largest number of steps for a line: 1 to 16,777,216.
#[derive(Clone, Copy, Debug, PartialEq, Eq)]
pub struct Limit {
    steps: u32,
}

impl Model for Limit {
    ghost use Rattle.std.specs.Prelude.{ℕ, ◌≤◌};

    ghost Value = { ℕ };

    ghost view = { λ l. l.steps };

    ghost invariant = { λ l. (1 ≤ l.steps) × (l.steps ≤ 16777216) };

    ghost inverse = { λ n. record { steps = n } };
}

impl Limit {
    /// Returns the limit of this many steps, or `None` outside 1 to 16,777,216.
    pub fn new(steps: u32) -> Option<Self>
        ensures range { IsSome result ↔ ((1 ≤ steps) × (steps ≤ 16777216)) }
        ensures value { IfSome result (λ limit. limit ≡ steps) }
    {
        if matches!(steps, 1..=16_777_216) {
            Some(Limit { steps })
        } else {
            None
        }
    }

    /// Returns the number of steps.
    pub fn get(self) -> u32
        ensures value { result ≡ self }
        ensures range { (1 ≤ result) × (result ≤ 16777216) }
    {
        self.steps
    }
}
