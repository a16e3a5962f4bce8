ghost use Rattle.std.specs.Prelude.{◌≡◌};

use crate::{ByteRange, Item};

/// An item of the result of a run: an [`Item`] alone, or one that keeps the bytes of the text from which it
/// comes.
pub trait RunItem: Copy {
    ghost use Rattle.lig_kern.specs.declared.item.Item.{Item as ItemValue};
    ghost use Rattle.lig_kern.specs.declared.byte_range.ByteRange.{ByteRange as RangeValue};

    /// What is kept of an item that comes from these bytes.
    ghost made: { ItemValue → RangeValue → Self };

    /// The item alone.
    ghost alone: { Self → ItemValue };

    /// Returns what is kept of an item that comes from these bytes.
    fn new(item: Item, place: ByteRange) -> Self
        ensures { result ≡ made item place };

    /// Returns the item alone.
    fn item(self) -> Item
        ensures { result ≡ alone self };

    ghost keeps: { (item : ItemValue) (place : RangeValue) → alone (made item place) ≡ item };
}

impl RunItem for Item {
    ghost use Rattle.std.proofs.Common.{refl};

    ghost made = { λ item place. item };

    ghost alone = { λ item. item };

    ghost keeps = { λ item place. refl };

    fn new(item: Item, _place: ByteRange) -> Self {
        item
    }

    fn item(self) -> Item {
        self
    }
}
