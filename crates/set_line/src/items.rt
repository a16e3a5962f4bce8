ghost use Rattle.std.specs.Prelude.{◌≡◌};

use lig_kern::Item;
use std::marker::Model;

/// The items of a line that was set, in order.
#[derive(Drop)]
pub struct Items {
    items: Vec<Item>,
}

impl Model for Items {
    ghost use Rattle.std.specs.Prelude.{List};
    ghost use Rattle.lig_kern.specs.declared.item.Item.{Item};

    ghost Value = { List Item };

    ghost view = { λ i. i.items.items };
}

impl Items {
    /// Returns a list of these items.
    pub fn new(items: Vec<Item>) -> Self
        ensures { result ≡ items.items }
    {
        Items { items }
    }

    /// Returns the items as a slice.
    pub fn as_slice(&self) -> &[Item]
        ensures { result.now ≡ self.now }
    {
        self.items.as_slice()
    }

    /// Returns the items as a vector, with the memory that they were made in.
    pub fn into_vec(self) -> Vec<Item>
        ensures { result.items ≡ self }
    {
        self.items
    }
}
