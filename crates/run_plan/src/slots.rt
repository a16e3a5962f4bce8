//! The slots for the items inside a message.
ghost use Rattle.std.specs.Prelude.{◌≡◌, ◌≤◌, ◌<◌, [], ◌∷◌, ◌++◌, length, MatchOption};

use smallvec::SmallVec;
use std::alloc::Global;
use std::marker::Model;

/// Room for the items of a message. `items` are the items in the slots, in order.
pub trait Slots<T> {
    ghost use Rattle.std.specs.Prelude.{List, ℕ};

    ghost items: { Self → List T };

    ghost SLOTS: { ℕ };

    /// The number of slots: 1 to 8.
    const SLOTS: usize;

    /// Returns slots without items. This allocates no memory.
    fn new(alloc: Global) -> Self
    where
        T: Drop,
        ensures { items result ≡ [] };

    /// Returns the number of items.
    fn len(&self) -> usize
        ensures value { result ≡ length (items self.now) }
        ensures few { result ≤ SLOTS };

    /// Appends an item. There must be a free slot.
    fn push(&mut self, item: T)
    where
        T: Drop,
        requires { length (items self.old) < SLOTS }
        ensures { items self.new ≡ items self.old ++ item ∷ [] };

    /// Puts an item before all others. There must be a free slot.
    fn put_back(&mut self, item: T)
    where
        T: Drop,
        requires { length (items self.old) < SLOTS }
        ensures { items self.new ≡ item ∷ items self.old };

    /// Removes and returns the first item, or returns `None` if there is no item.
    fn take_first(&mut self) -> Option<T>
    where
        T: Drop,
        ensures { MatchOption result
            ((items self.old ≡ []) × (items self.new ≡ []))
            (λ item. items self.old ≡ item ∷ items self.new) };

    /// Drops the items.
    fn clear(&mut self)
    where
        T: Drop,
        ensures { items self.new ≡ [] };

    /// Returns the last item, or `None` if there is no item.
    fn last(&self) -> Option<&T>;

    ghost range: { (1 ≤ SLOTS) × (SLOTS ≤ 8) };
}

/// An item of a message: a type with slots for its values.
pub trait Stored: Drop {
    /// The slots of a message for items of this type: an `Option` if a message has at most one item, otherwise
    /// [`InlineSlots`].
    type Slots: Slots<Self> + Drop;

    /// Returns whether this item takes so much memory that only a quarter of the slots of a ring should have
    /// such items. The return value affects only when an item is sent, never the results. The default is
    /// false.
    fn is_large(&self) -> bool {
        false
    }
}

/// One slot.
impl<T> Slots<T> for Option<T> {
    ghost use Rattle.std.specs.Option.{option_to_list};
    ghost use Rattle.std.proofs.Common.{rules};

    ghost items = { option_to_list };

    ghost SLOTS = { 1 };

    const SLOTS: usize = 1;

    fn new(alloc: Global) -> Self
    where
        T: Drop,
    {
        let _ = alloc;
        None
    }

    fn len(&self) -> usize {
        match self {
            Some(_) => 1,
            None => 0,
        }
    }

    fn push(&mut self, item: T)
    where
        T: Drop,
    {
        *self = Some(item);
    }

    fn put_back(&mut self, item: T)
    where
        T: Drop,
    {
        *self = Some(item);
    }

    fn take_first(&mut self) -> Option<T>
    where
        T: Drop,
    {
        self.take()
    }

    fn clear(&mut self)
    where
        T: Drop,
    {
        *self = None;
    }

    fn last(&self) -> Option<&T> {
        self.as_ref()
    }

    ghost range = { Prim.search rules };
}

/// Slots inside the message. Each item is in an `Option`, since unused slots of the list contain a blank value.
/// The list never grows beyond its eight inline slots.
#[derive(Drop)]
pub struct InlineSlots<T> {
    slots: SmallVec<Option<T>, 8>,
}

impl<T> Model for InlineSlots<T> {
    ghost use Rattle.std.specs.Prelude.{List};
    ghost use Rattle.std.specs.Coded.{coded_list};
    ghost use Rattle.run_plan.specs.Held.{held, IsInline};

    ghost Value = { List T };

    ghost coded = { coded_list T.code };

    ghost view = { λ s. held s.slots.items };

    ghost invariant = { λ s. IsInline s.slots };
}

impl<T> Slots<T> for InlineSlots<T> {
    ghost use Rattle.std.proofs.Common.{rules};

    ghost items = { λ s. s };

    ghost SLOTS = { 8 };

    const SLOTS: usize = 8;

    fn new(alloc: Global) -> Self
    where
        T: Drop,
    {
        InlineSlots {
            slots: SmallVec::new(alloc),
        }
    }

    fn len(&self) -> usize {
        self.slots.len()
    }

    fn push(&mut self, item: T)
    where
        T: Drop,
    {
        self.slots.push_reserved(Some(item));
    }

    fn put_back(&mut self, item: T)
    where
        T: Drop,
    {
        // The list has room, so that this can't fail.
        let _ = self.slots.insert(0, Some(item));
    }

    fn take_first(&mut self) -> Option<T>
    where
        T: Drop,
    {
        if self.slots.is_empty() {
            return None;
        }
        // At most seven items move.
        self.slots.remove(0)
    }

    fn clear(&mut self)
    where
        T: Drop,
    {
        self.slots.clear();
    }

    fn last(&self) -> Option<&T> {
        self.slots.as_slice().last()?.as_ref()
    }

    ghost range = { Prim.search rules };
}
