use lig_kern::{ByteRange, Item, RunItem};

/// An item of a span, with the bytes of the text that it comes from.
#[derive(Clone, Copy, Debug, PartialEq, Eq)]
pub struct PlacedItem {
    /// The character with its width, or the kern.
    pub item: Item,
    /// The bytes that it comes from, which are none for a kern, for the hyphen, and for a character that a ligature
    /// operation inserts without deleting any, or in place of only a boundary or the hyphen.
    pub place: ByteRange,
}

impl RunItem for PlacedItem {
    ghost use Rattle.std.proofs.Common.{refl};

    ghost made = { λ item place. record { item = item; place = place } };

    ghost alone = { λ one. one.item };

    ghost keeps = { λ item place. refl };

    fn new(item: Item, place: ByteRange) -> Self {
        PlacedItem { item, place }
    }

    fn item(self) -> Item {
        self.item
    }
}
