//! The error of a text that isn't an encoding vector.
ghost use Rattle.std.specs.Prelude.{Some};
ghost use Rattle.encoding_vectors.specs.FaultText.{fault_text};

use std::fmt;

/// The text isn't an encoding vector.
#[derive(Clone, Copy, Debug, PartialEq, Eq)]
pub struct VectorFault {
    /// The number of the line, starting at 1, on which the first token is that doesn't belong to a vector. If
    /// the text ends too early, it is one more than the number of its line ends. If the text is too long, it
    /// is one more than the number of line ends in its first [`MOST_BYTES`](crate::MOST_BYTES) bytes, where a
    /// CR at their end counts as a line end even if an LF follows.
    pub line: usize,
}

impl fmt::Display for VectorFault {
    ghost output = { λ fault. Some (fault_text fault) };

    #[tactic(auto, unfolding(crate::specs::FaultText::fault_text))]
    fn fmt<W: fmt::Write>(&self, f: &mut fmt::Formatter<W>) -> fmt::Result {
        write!(f, "encoding refused: line {}", self.line)
    }
}
