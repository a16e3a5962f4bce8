ghost use Rattle.std.specs.Prelude.{◌≡◌, ◌+◌, ◌<◌, ◌^◌, ◌++◌, ℕ, List, [], length};
ghost use Rattle.line_chunks.specs.Skipping.{IsLong, long_length};

/// A line that is too long to be set, as far as it was read. Its bytes aren't kept.
#[derive(Clone, Copy)]
pub(crate) struct LongLine {
    length: usize,
    /// Whether the last byte is a carriage return.
    ends_with_return: bool,
}

impl LongLine {
    /// Returns a line of which nothing was read.
    pub(crate) fn new() -> Self
        ensures { IsLong result [] }
    {
        LongLine {
            length: 0,
            ends_with_return: false,
        }
    }

    /// Adds bytes that were read.
    pub(crate) fn add(&mut self, part: &[u8])
        requires room { self.old.length + length part.now < 2 ^ 64 }
        ensures added { (line : List ℕ) → IsLong self.old line → IsLong self.new (line ++ part.now) }
        ensures count { self.new.length ≡ self.old.length + length part.now }
    {
        self.length += part.len();
        if let Some(last) = part.last() {
            self.ends_with_return = *last == b'\r';
        }
    }

    /// Returns the number of bytes of a line that was before a line feed: if `crlf` is true, without the carriage
    /// return at its end, if it has one.
    pub(crate) fn length(self, crlf: bool) -> usize
        ensures { (line : List ℕ) → IsLong self line → result ≡ long_length crlf line }
    {
        if crlf && self.ends_with_return {
            return self.length.saturating_sub(1);
        }
        self.length
    }
}
