//! The items in their ring, and how many of them aren't later than a time.

ghost use Rattle.std.specs.Prelude.{◌≡◌, ◌^◌, ◌<◌, ◌≤◌, length, get_or};
ghost use Rattle.trap_index.specs.Keeping.{no_item};
ghost use Rattle.trap_index.specs.Counting.{AreInOrder, IsCountBy};

use crate::Item;
use circular_buffer::HeapCircularBuffer;

/// So many halvings leave one of the numbers from 0 to 2^20.
const COMPARISONS: u32 = 21;

/// The item with that many before it.
pub(crate) fn item_in(items: &HeapCircularBuffer<Item>, at: usize) -> Item
    requires { at < length items.now.items }
    ensures { result ≡ get_or items.now.items at no_item }
{
    match items.get(at) {
        Some(item) => *item,
        None => unreachable!(),
    }
}

/// How many items have a time of at most this one.
pub(crate) fn count_by(items: &HeapCircularBuffer<Item>, t: u64) -> usize
    requires few { length items.now.items ≤ 2 ^ 20 }
    requires order { AreInOrder items.now.items }
    ensures { IsCountBy items.now.items t result }
{
    let mut low = 0;
    let mut high = items.len();
    for _ in 0..COMPARISONS {
        if low < high {
            let middle = low + (high - low) / 2;
            if item_in(items, middle).time <= t {
                low = middle + 1;
            } else {
                high = middle;
            }
        }
    }
    low
}
