//! The drill.

ghost use Rattle.std.specs.Prelude.{◌≡◌, ◌↔◌, ◌<◌, length, slice_get, IfOk, IsSome, MatchOption};
ghost use Rattle.trap_drill.specs.Drilled.{blocks_of, IsNext};

use crate::generator::{MODULUS, block_named, fill_contents, number_after};
use indexmap::IndexSet;
use std::alloc::{AllocError as OutOfMemory, Global};
use std::marker::Model;
use trap_model::Geometry;

/// The requests of a drill, one after the other. A contract sees the array's numbers, the seed, how
/// many requests there are, and how many of them were made.
#[derive(Drop)]
pub struct Drill {
    g: Geometry,
    seed: u64,
    count: u32,
    made: u32,
    /// The generator's number of the last request that was made.
    number: u64,
    /// The blocks that all requests name, in the order in which they are first named.
    blocks: IndexSet<u32>,
}

impl Model for Drill {
    ghost use Rattle.trap_drill.specs.Drilled.{Drilled, IsDrill};

    ghost Value = { Drilled };

    ghost view = { λ d. record { g = d.g; seed = d.seed; count = d.count; made = d.made } };

    ghost invariant = { λ d. IsDrill
        (record { g = d.g; seed = d.seed; count = d.count; made = d.made })
        d.number d.blocks.keys };
}

impl Drill {
    /// The drill of a seed. It finds the blocks that its requests name here.
    pub fn new(alloc: Global, g: &Geometry, seed: u64, count: u32) -> Result<Drill, OutOfMemory>
        ensures { IfOk result (λ drill. drill ≡ record {
          g = g.now;
          seed = seed;
          count = count;
          made = 0;
        }) }
    {
        let mut blocks = IndexSet::new(alloc);
        let mut number = seed % MODULUS;
        for request in 0..count {
            number = number_after(number);
            blocks.insert(block_named(g, number))?;
        }
        Ok(Drill {
            g: *g,
            seed,
            count,
            made: 0,
            number: seed % MODULUS,
            blocks,
        })
    }

    /// The next request: the block that it writes, and its number, from 1 on. The block's new
    /// contents are put into `fresh`.
    pub fn next(&mut self, fresh: &mut [u8]) -> Option<(u32, u64)>
        requires { length fresh.old ≡ self.old.g.block }
        ensures left { IsSome result ↔ (self.old.made < self.old.count) }
        ensures request { MatchOption result ((self.new ≡ self.old) × (fresh.new ≡ fresh.old))
            (λ r. IsNext self.old self.new r.0 r.1 fresh.new) }
        ensures array { self.new.g ≡ self.old.g }
    {
        if self.made == self.count {
            return None;
        }
        self.made += 1;
        self.number = number_after(self.number);
        fill_contents(fresh, self.number, self.made);
        Some((block_named(&self.g, self.number), u64::from(self.made)))
    }

    /// How many blocks the requests name.
    pub fn blocks(&self) -> usize
        ensures { result ≡ length (blocks_of self.now.g self.now.seed self.now.count) }
    {
        self.blocks.len()
    }

    /// Block `i` of those that the requests name, in the order in which they are first named.
    pub fn block(&self, i: usize) -> Option<u32>
        ensures { result ≡ slice_get (blocks_of self.now.g self.now.seed self.now.count) i }
    {
        self.blocks.get_index(i).copied()
    }
}
