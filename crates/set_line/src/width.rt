ghost use Rattle.std.specs.Prelude.{◌≡◌, ◌≤◌, ◌^◌, map, pos, ◌+ℤ◌, ◌≤ℤ◌, length};
ghost use Rattle.set_line.specs.Width.{amount_of, total_width as total_width_of};

use lig_kern::{Item, RunItem};

/// Returns the amount that an item adds to the width, in sp.
fn amount(item: Item) -> i32
    ensures { result ≡ amount_of item }
{
    match item {
        Item::Char { width, .. } => width,
        Item::Kern(amount) => amount,
        Item::Space(amount) => amount,
        Item::Skipped(_) => 0,
    }
}

/// Returns a width with the amount of one more item, in sp. An amount has 32 bits.
#[tactic(auto, using(crate::proofs::WidthLemmas::signed))]
fn with_item(width: i64, item: Item) -> i64
    requires below { width ≤ℤ pos (2 ^ 62) }
    requires above { pos 0 ≤ℤ (width +ℤ pos (2 ^ 62)) }
    ensures sum { result ≡ width +ℤ amount_of item }
    ensures below { result ≤ℤ (width +ℤ pos 2147483647) }
    ensures above { width ≤ℤ (result +ℤ pos 2147483648) }
{
    width + i64::from(amount(item))
}

/// Returns the width of items: the sum of the amounts that they add, in sp. At most 2^31 amounts of 32 bits
/// have a sum that fits in 64 bits.
pub fn total_width<O: RunItem>(items: &[O]) -> i64
    requires { length items.now ≤ 2 ^ 31 }
    ensures { result ≡ total_width_of (map O.alone items.now) }
{
    let mut width: i64 = 0;
    for one in items {
        width = with_item(width, one.item());
    }
    width
}
