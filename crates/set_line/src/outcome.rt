ghost use Rattle.std.specs.Prelude.{◌≡◌};
ghost use Rattle.set_line.specs.Answer.{items_or};

use crate::Items;
use lig_kern::Item;

/// The result of a line.
#[derive(Drop)]
pub enum Outcome {
    /// The line was set.
    Set {
        /// Its characters, kerns, spaces and skipped bytes, in order.
        items: Items,
        /// The sum of the widths of characters and spaces and of the kerns, in sp.
        width: i64,
        /// The number of steps that all runs of the line took together.
        steps: u32,
    },
    /// The line was refused.
    Refused(LineRefusal),
}

impl Outcome {
    /// Moves the items of a line that was set into `list`, whose memory can then be used for the next line
    /// (see [`set_bytes`](crate::set_bytes)). After a refused line `list` is unchanged.
    #[tactic(auto, unfolding(crate::specs::Answer::items_or))]
    pub fn give_back(self, list: &mut Vec<Item>)
        ensures { list.new.items ≡ items_or list.old.items self }
    {
        if let Outcome::Set { items, .. } = self {
            *list = items.into_vec();
        }
    }
}

/// The reason why a line was refused.
#[derive(Clone, Copy, Debug, PartialEq, Eq)]
pub enum LineRefusal {
    /// The line has more than 65,535 bytes: this number of bytes.
    TooLong(usize),
    /// A byte is neither a space nor a character of the font: the byte offset of the first one, and the byte.
    Missing { offset: usize, code: u8 },
    /// The runs of the line take more steps than the limit together, or one of them never ends: the limit.
    Steps(u32),
}
