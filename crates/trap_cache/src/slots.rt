//! The slots of a cache, from the most recently used to the least.

ghost use Rattle.std.specs.Prelude.{◌≡◌, ◌<◌, nat_eq, length, take, option_map, Some, IfSome};
ghost use Rattle.std.specs.Prelude.{IsSome};
ghost use Rattle.std.specs.Map.{lookup};
ghost use Rattle.lru.specs.LruCache.{last_entry};
ghost use Rattle.trap_cache.specs.Slots.{pair_place, IsRewritten};

use lru::LruCache;

/// How many blocks are kept.
pub const SLOTS: usize = 16;

/// A block's bytes, and the pair that they are kept under.
#[derive(Drop)]
pub struct Slot {
    /// The block.
    pub block: u32,
    /// The number of the entry after which it had these bytes.
    pub seq: u64,
    /// The bytes.
    pub bytes: Vec<u8>,
}

/// The place of the pair among the slots that were used last.
pub fn find(slots: &LruCache<usize, Slot>, used: usize, block: u32, seq: u64) -> Option<usize>
    ensures { result ≡ pair_place block seq (take used slots.now.entries) }
{
    let mut left = used;
    for (place, slot) in slots.iter() {
        if left == 0 {
            return None;
        }
        if slot.block == block && slot.seq == seq {
            return Some(*place);
        }
        left -= 1;
    }
    None
}

/// Puts a pair and its bytes into the slot at a place, which is then the one that was used last.
pub fn rewrite(slots: &mut LruCache<usize, Slot>, place: usize, block: u32, seq: u64, bytes: &[u8])
    requires there { IsSome (lookup (nat_eq place) slots.old.entries) }
    requires size { IfSome (lookup (nat_eq place) slots.old.entries)
        (λ slot. length bytes.now ≡ length slot.bytes.items) }
    ensures { IsRewritten slots.old slots.new place block seq bytes.now }
{
    if let Some(slot) = slots.get_mut(&place) {
        slot.block = block;
        slot.seq = seq;
        slot.bytes.copy_from_slice(bytes);
    }
}

/// The place of the slot that was used least recently.
pub fn last_place(slots: &LruCache<usize, Slot>) -> usize
    requires { 0 < length slots.now.entries }
    ensures { option_map (λ e. e.0) (last_entry slots.now.entries) ≡ Some result }
{
    match slots.peek_lru() {
        Some((place, _)) => *place,
        None => unreachable!(),
    }
}

/// The bytes of the slot at a place.
pub fn bytes_at(slots: &LruCache<usize, Slot>, place: usize) -> &[u8]
    requires { IsSome (lookup (nat_eq place) slots.now.entries) }
    ensures { IfSome (lookup (nat_eq place) slots.now.entries)
        (λ slot. result.now ≡ slot.bytes.items) }
{
    match slots.peek(&place) {
        Some(slot) => slot.bytes.as_slice(),
        None => unreachable!(),
    }
}
