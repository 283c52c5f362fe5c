//! The cache.

ghost use Rattle.std.specs.Prelude.{◌≡◌, [], length, option_copied, IfOk};
ghost use Rattle.std.specs.Borrow.{sem};
ghost use Rattle.trap_cache.specs.Cached.{bytes_under, after_get, after_keep};
ghost use Rattle.trap_cache.specs.Lending.{CacheEndsAs};

use crate::slots::{SLOTS, Slot, bytes_at, find, last_place, rewrite};
use lru::LruCache;
use std::alloc::{AllocError as OutOfMemory, Global};
use std::marker::Model;
use std::num::NonZeroUsize;

/// Blocks at past instants. A contract sees the list of the pairs that are kept, of a block and a
/// number, with their bytes, the most recently used first.
#[derive(Drop)]
pub struct Cache {
    size: usize,
    /// How many slots keep a pair: the ones that were used last.
    used: usize,
    slots: LruCache<usize, Slot>,
}

impl Model for Cache {
    ghost use Rattle.std.specs.Prelude.{take};
    ghost use Rattle.trap_cache.specs.Cached.{Cached};
    ghost use Rattle.trap_cache.specs.Slots.{kept_in, IsCache};

    ghost Value = { Cached };

    ghost view = { λ c. record { size = c.size; kept = kept_in (take c.used c.slots.entries) } };

    ghost invariant = { λ c. IsCache c.size c.used c.slots.cap c.slots.entries };
}

impl Cache {
    /// A cache that keeps no pair yet. It takes room for sixteen blocks of `size` bytes here.
    pub fn new(alloc: Global, size: usize) -> Result<Cache, OutOfMemory>
        ensures { IfOk result (λ cache. cache ≡ record { size = size; kept = [] }) }
    {
        let mut slots = LruCache::new(alloc, NonZeroUsize::new(SLOTS).unwrap())?;
        for place in 0..SLOTS {
            let bytes = vec![in alloc; 0; size]?;
            slots.put(
                place,
                Slot {
                    block: 0,
                    seq: 0,
                    bytes,
                },
            )?;
        }
        Ok(Cache {
            size,
            used: 0,
            slots,
        })
    }

    /// The bytes that are kept under a pair, which goes to the front.
    pub fn get(&mut self, block: u32, seq: u64) -> Option<&[u8]>
        ensures* moves { sem 𝓛 (CacheEndsAs self.entry (after_get block seq self.old)) }
        ensures bytes { option_copied result ≡ bytes_under block seq self.old.kept }
    {
        let place = find(&self.slots, self.used, block, seq)?;
        self.slots.promote(&place);
        Some(bytes_at(&self.slots, place))
    }

    /// Keeps bytes under a pair, which goes to the front. Where sixteen others are kept, the one
    /// that was used least recently goes.
    pub fn keep(&mut self, block: u32, seq: u64, bytes: &[u8])
        requires { length bytes.now ≡ self.old.size }
        ensures { self.new ≡ after_keep block seq bytes.now self.old }
    {
        match find(&self.slots, self.used, block, seq) {
            Some(place) => rewrite(&mut self.slots, place, block, seq, bytes),
            None => {
                let place = last_place(&self.slots);
                rewrite(&mut self.slots, place, block, seq, bytes);
                if self.used < SLOTS {
                    self.used += 1;
                }
            }
        }
    }
}
