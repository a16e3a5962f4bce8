ghost use Rattle.std.specs.Prelude.{◌≡◌};
ghost use Rattle.set_line.specs.Terms.{TermsValue};

use crate::{Limit, Policy};
use std::marker::Model;
use tfm_tables::Font;

/// The settings of a line: a font, the step limit and the missing-character policy.
#[derive(Drop)]
pub struct Terms {
    font: Font,
    limit: Limit,
    policy: Policy,
}

impl Model for Terms {
    ghost use Rattle.set_line.specs.Terms.{TermsValue};

    ghost Value = { TermsValue };

    ghost view = { λ t. record { font = t.font; limit = t.limit; policy = t.policy } };
}

impl Terms {
    /// Returns settings with this font, limit and policy. This allocates no memory.
    pub fn new(font: Font, limit: Limit, policy: Policy) -> Self
        ensures { result ≡ record { font = font; limit = limit; policy = policy } }
    {
        Terms {
            font,
            limit,
            policy,
        }
    }

    /// Returns the font.
    pub fn font(&self) -> &Font
        ensures { result.now ≡ self.now.font }
    {
        &self.font
    }

    /// Returns the largest number of steps for a line.
    pub fn limit(&self) -> Limit
        ensures { result ≡ self.now.limit }
    {
        self.limit
    }

    /// Returns the missing-character policy.
    pub fn policy(&self) -> Policy
        ensures { result ≡ self.now.policy }
    {
        self.policy
    }
}
