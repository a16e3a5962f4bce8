ghost use Rattle.std.specs.Prelude.{◌≡◌, length, nat_le, Some, None, if◌then◌else◌};
ghost use Rattle.tfm_tables.specs.Program.{step_of, target_of};
ghost use Rattle.tfm_tables.specs.Acceptance.{kern_index_of};

/// An instruction of the lig/kern program: its four bytes in the file (tftopl.web, section 13).
#[derive(Clone, Copy, Debug, PartialEq, Eq)]
pub struct Step {
    /// Below 128: a search that has no match here goes on `skip + 1` instructions further on. 128: the
    /// search ends here, with or without a match. Above 128: the search ends here without a match. As the
    /// first instruction of a character's program such an instruction is an indirect start. With a skip
    /// of 255 the first of all instructions specifies the right boundary character, and the last one the
    /// start of the left boundary's program.
    pub skip: u8,
    /// The code to the right that the instruction is for.
    pub next: u8,
    /// Below 128: the ligature operation. 128 or more: the instruction inserts a kern.
    pub op: u8,
    /// The code of the ligature character, or the lower byte of the kern's index.
    pub remainder: u8,
}

impl Step {
    /// Returns the instruction in a word.
    pub(crate) fn of(word: [u8; 4]) -> Self
        ensures { result ≡ step_of word }
    {
        let [skip, next, op, remainder] = word;
        Step {
            skip,
            next,
            op,
            remainder,
        }
    }
    /// Returns the address to which the instruction points if its skip is above 128.
    pub fn target(self) -> usize
        ensures { result ≡ target_of self }
    {
        256 * usize::from(self.op) + usize::from(self.remainder)
    }

    /// Returns the index of the kern that the instruction inserts if it matches, or `None` if it inserts a
    /// character.
    #[tactic(auto, unfolding(crate::specs::Acceptance::kern_index_of))]
    pub fn kern_index(self) -> Option<usize>
        ensures { result ≡ (if nat_le 128 self.op then Some (kern_index_of self) else None) }
    {
        if self.op < 128 {
            return None;
        }
        Some(256 * usize::from(self.op - 128) + usize::from(self.remainder))
    }
}
