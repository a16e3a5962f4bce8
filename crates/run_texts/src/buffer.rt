ghost use Rattle.std.specs.Prelude.{◌≡◌};

use std::marker::Model;

/// A buffer with this many bytes or more is full: before the text of the next chunk is appended, it is written, or a
/// new buffer is begun.
pub(crate) const FULL: usize = 65_536;

/// The capacity with which a buffer begins. It is larger than `FULL`, so that most buffers don't have to grow for
/// their last text.
pub(crate) const ROOM: usize = 73_728;

/// A filled buffer of the output of a lane. Nothing more is appended to it.
#[derive(Drop)]
pub(crate) struct OutputBuffer {
    bytes: Vec<u8>,
}

impl Model for OutputBuffer {
    ghost use Rattle.std.specs.Prelude.{ℕ, List};

    ghost Value = { List ℕ };

    ghost view = { λ buffer. buffer.bytes.items };
}

impl OutputBuffer {
    /// Returns a buffer with these bytes.
    pub fn new(bytes: Vec<u8>) -> Self
        ensures { result ≡ bytes.items }
    {
        OutputBuffer { bytes }
    }

    /// Returns the bytes as a slice.
    pub fn as_slice(&self) -> &[u8]
        ensures { result.now ≡ self.now }
    {
        self.bytes.as_slice()
    }

    /// Returns the bytes as a vector.
    pub fn into_vec(self) -> Vec<u8>
        ensures { result.items ≡ self }
    {
        self.bytes
    }
}
