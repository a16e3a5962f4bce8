//! The number of items in a full block.
ghost use Rattle.std.specs.Prelude.{◌≡◌, ◌≤◌, min};

use crate::{Block, Slots, Stored};
use std::marker::{Model, PhantomData};

/// The number of items in a full block: that of a [`Block`], but no more than a message has slots.
#[derive(Drop)]
pub(crate) struct BlockSize<I: Stored> {
    items: usize,
    of: PhantomData<I>,
}

impl<I: Stored> Model for BlockSize<I> {
    ghost use Rattle.std.specs.Prelude.{ℕ, ◌≤◌};

    ghost Value = { ℕ };

    ghost view = { λ b. b.items };

    ghost invariant = { λ b. (1 ≤ b.items) × (b.items ≤ I.Slots.SLOTS) };
}

impl<I: Stored> BlockSize<I> {
    /// Returns the size of blocks that have as many items as this block, if a message has so many slots.
    pub fn new(block: Block) -> Self
        ensures { result ≡ min block I.Slots.SLOTS }
    {
        BlockSize {
            items: block.get().min(I::Slots::SLOTS),
            of: PhantomData,
        }
    }

    /// Returns the number of items.
    pub fn get(&self) -> usize
        ensures value { result ≡ self.now }
        ensures range { (1 ≤ result) × (result ≤ I.Slots.SLOTS) }
    {
        self.items
    }
}
