//! The pool and its leases.

ghost use Rattle.std.specs.Prelude.{◌≡◌, ◌≢◌, ◌↔◌, ◌<◌, ◌∷◌, [], length, IfOk, IsSome, MatchOption};
ghost use Rattle.std.specs.Borrow.{sem};
ghost use Rattle.trap_block.specs.Xor.{xor};
ghost use Rattle.trap_pool.specs.Pooled.{unleased, pool_block, with_pool_block, IsLive, free_of};
ghost use Rattle.trap_pool.specs.Pooled.{Leased, Gives};
ghost use Rattle.trap_pool.specs.Frames.{Only};
ghost use Rattle.trap_pool.specs.Lending.{LendsBlock};

use crate::bytes::{copy_within, xor_within};
use crate::live::first_free;
use std::alloc::{AllocError as OutOfMemory, Global};
use std::marker::Model;

/// A cache line. So many bytes lie between two blocks, so that blocks of 4096 bytes don't all
/// start at one place of a page.
const GAP: usize = 64;

/// A block of a pool. It can't be copied, and ends by `give` alone. A contract sees the number of
/// its block.
pub struct Lease {
    block: usize,
}

impl Model for Lease {
    ghost use Rattle.std.specs.Prelude.{ℕ};

    ghost Value = { ℕ };

    ghost view = { λ l. l.block };
}

/// A region of blocks of one size. A contract sees the bytes of each block, and which are leased.
#[derive(Drop)]
pub struct Pool {
    size: usize,
    stride: usize,
    region: Vec<u8>,
    live: Vec<bool>,
}

impl Model for Pool {
    ghost use Rattle.std.specs.Prelude.{length};
    ghost use Rattle.trap_pool.specs.Pooled.{Pooled};

    ghost Value = { Pooled };

    ghost use Rattle.trap_pool.specs.Region.{blocks_in, IsRegion};

    ghost view = { λ p. record {
      size = p.size;
      blocks = blocks_in (length p.live.items) p.size p.stride p.region.items;
      live = p.live.items;
    } };

    ghost invariant = { λ p. IsRegion (length p.live.items) p.size p.stride p.region.items };
}

impl Pool {
    /// A pool of `count` blocks of `size` bytes. It takes all its room here.
    pub fn new(alloc: Global, count: usize, size: usize) -> Result<Pool, OutOfMemory>
        ensures { IfOk result (λ pool. pool ≡ unleased count size) }
    {
        let Some(stride) = size.checked_add(GAP) else {
            return Err(OutOfMemory);
        };
        let Some(len) = count.checked_mul(stride) else {
            return Err(OutOfMemory);
        };
        let region = vec![in alloc; 0; len]?;
        let live = vec![in alloc; false; count]?;
        Ok(Pool {
            size,
            stride,
            region,
            live,
        })
    }

    /// Leases a block. Its bytes are what they were.
    pub fn take(&mut self) -> Option<Lease>
        ensures free { IsSome result ↔ (0 < free_of self.old) }
        ensures pool { MatchOption result (self.new ≡ self.old) (λ k. Leased k self.old self.new) }
    {
        let block = first_free(&self.live)?;
        self.live[block] = true;
        Some(Lease { block })
    }

    /// Ends a lease.
    pub fn give(&mut self, lease: Lease)
        requires { IsLive self.old lease }
        ensures { Gives lease self.old self.new }
    {
        let Lease { block } = lease;
        self.live[block] = false;
    }

    /// How many blocks aren't leased.
    pub fn free(&self) -> usize
        ensures { result ≡ free_of self.now }
    {
        self.live.iter().filter(|live| !**live).count()
    }

    /// The bytes of a leased block.
    pub fn bytes(&self, lease: &Lease) -> &[u8]
        requires { IsLive self.now lease.now }
        ensures bytes { result.now ≡ pool_block self.now lease.now }
        ensures size { length result.now ≡ self.now.size }
    {
        let at = lease.block * self.stride;
        let end = at + self.size;
        &self.region[at..end]
    }

    /// The bytes of a leased block, to be written. What is left in them is the block's, and each
    /// other block stays as it was.
    pub fn bytes_mut(&mut self, lease: &Lease) -> &mut [u8]
        requires { IsLive self.old lease.now }
        ensures* writes { sem 𝓛 (LendsBlock self.entry lease.now result) }
        ensures bytes { result.now ≡ pool_block self.old lease.now }
        ensures size { length result.now ≡ self.old.size }
    {
        let at = lease.block * self.stride;
        let end = at + self.size;
        self.region.slice_mut(at..end)
    }

    /// Each byte of `dst` becomes its exclusive-or with the byte of `src` at the same place.
    pub fn xor(&mut self, dst: &Lease, src: &Lease)
        requires dst { IsLive self.old dst.now }
        requires src { IsLive self.old src.now }
        requires differ { dst.now ≢ src.now }
        ensures xor { self.new ≡ with_pool_block self.old dst.now
            (xor (pool_block self.old dst.now) (pool_block self.old src.now)) }
        ensures rest { Only (dst.now ∷ []) self.old self.new }
    {
        let to = dst.block * self.stride;
        let from = src.block * self.stride;
        xor_within(&mut self.region, to, from, self.size);
    }

    /// `dst` becomes a copy of `src`.
    pub fn copy(&mut self, dst: &Lease, src: &Lease)
        requires dst { IsLive self.old dst.now }
        requires src { IsLive self.old src.now }
        requires differ { dst.now ≢ src.now }
        ensures copy { self.new ≡ with_pool_block self.old dst.now (pool_block self.old src.now) }
        ensures rest { Only (dst.now ∷ []) self.old self.new }
    {
        let to = dst.block * self.stride;
        let from = src.block * self.stride;
        copy_within(&mut self.region, to, from, self.size);
    }
}
