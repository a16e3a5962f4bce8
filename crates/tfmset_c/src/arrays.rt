//! Lists in arrays of a caller that has allocated them: each function writes what has room, and counts all elements,
//! written or not, so that the caller learns which length is needed. A count stops at 2^64 - 1.
ghost use Rattle.std.specs.Prelude.{◌≡◌, ◌⊎◌, ℕ, true, false};
ghost use Rattle.tfmset_c.specs.Arrays.{ArePut, HasRoom, IsListed, held};

/// The code of a call whose arrays have room.
pub(crate) const DONE: u32 = 0;
/// The code of a call with an array that is too short.
pub(crate) const NO_ROOM: u32 = 3;

/// Returns whether this many elements fit into an array of `room` elements. The count 2^64 - 1 never fits,
/// because it may mean a larger number.
#[tactic(auto, unfolding(crate::specs::Arrays::HasRoom))]
pub(crate) fn has_room(count: usize, room: usize) -> bool
    ensures fits { (n : ℕ) → count ≡ held n → result ≡ true → HasRoom n room }
    ensures lacks { (n : ℕ) → count ≡ held n → result ≡ false → HasRoom n room → ⊥ }
{
    count <= room && count < usize::MAX
}

/// Writes elements, starting at index `at`, if the array has room for all of them, and returns the index after
/// them, at most 2^64 - 1.
#[tactic(auto, using(crate::proofs::ArrayLemmas::puts))]
pub(crate) fn put_list<T: Copy>(array: &mut [T], at: usize, made: &[T]) -> usize
    ensures { ArePut made.now at result array.old array.new }
{
    if at <= array.len() && made.len() <= array.len() - at {
        array[at..at + made.len()].copy_from_slice(made);
    }
    at.saturating_add(made.len())
}

/// Reports a list: its elements at the front of the array, and its length in `count`. Returns [`DONE`], or
/// [`NO_ROOM`] if the array is too short, which is then unchanged.
#[tactic(auto, using(crate::proofs::ArrayLemmas::puts))]
pub(crate) fn report<T: Copy>(list: &[T], array: &mut [T], count: &mut usize) -> u32
    ensures answers { (result ≡ 0) ⊎ (result ≡ 3) }
    ensures listed { IsListed list.now result count.old count.new array.old array.new }
{
    *count = list.len();
    if list.len() > array.len() {
        return NO_ROOM;
    }
    array[..list.len()].copy_from_slice(list);
    DONE
}
