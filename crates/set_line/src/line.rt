ghost use Rattle.std.specs.Prelude.{◌≡◌};

use run_plan::{InlineSlots, Stored};
use std::marker::Model;

/// A line of text without its line feed. Byte 32 is a space, and each other byte is a character code.
#[derive(Debug, Drop)]
pub struct Line {
    bytes: Vec<u8>,
}

impl Model for Line {
    ghost use Rattle.std.specs.Prelude.{ℕ, List};

    ghost Value = { List ℕ };

    ghost view = { λ l. l.bytes.items };
}

impl Line {
    /// Returns the line of these bytes.
    pub fn new(bytes: Vec<u8>) -> Self
        ensures { result ≡ bytes.items }
    {
        Line { bytes }
    }

    /// Returns its bytes.
    pub fn bytes(&self) -> &[u8]
        ensures { result.now ≡ self.now }
    {
        self.bytes.as_slice()
    }
    /// Returns its bytes, as a vector.
    pub fn into_bytes(self) -> Vec<u8>
        ensures { result.items ≡ self }
    {
        self.bytes
    }
}

impl Stored for Line {
    type Slots = InlineSlots<Line>;
}
