//! A past in memory.

ghost use Rattle.std.proofs.Common.{rules, ◌∙◌};
ghost use Rattle.std.specs.Prelude.{◌≡◌, ◌↔◌, ◌^◌, ◌+◌, ◌-◌, ◌<◌, ◌≤◌, ◌∷◌, [], length, map, IfOk};
ghost use Rattle.std.specs.Prelude.{IsErr, IsTrue, OnErr, OnOk};
ghost use Rattle.trap_bank.specs.Counts.{one_more};
ghost use Rattle.trap_index.specs.Indexed.{last_seq, item_at};
ghost use Rattle.trap_model.specs.Image.{volume, block_of, image_after, zero_image};
ghost use Rattle.trap_model.specs.Records.{entry_at};
ghost use Rattle.trap_model.specs.State.{image, image_at};
ghost use Rattle.trap_model.specs.declared.history.State.{State};
ghost use Rattle.trap_past.specs.Memory.{kept_entry, past_state, index_of, past_of, zero_past};
ghost use Rattle.trap_past.specs.Memory.{with_entry, Stays, CallFailed, WasChosen};
ghost use Rattle.trap_past.specs.Memory.{PastFailsAsChosen};
ghost use Rattle.trap_past.specs.Past.{IsOf, IsRetained, HasBlame, GivesPresent, GivesParity};
ghost use Rattle.trap_past.specs.Past.{GivesSnapshot};
ghost use Rattle.trap_past.specs.Undo.{parity_at};
ghost use Rattle.trap_pool.specs.Frames.{AreLeases, Only};
ghost use Rattle.trap_pool.specs.Pooled.{pool_block, IsLive};

use crate::{Parities, Present};
use std::alloc::{AllocError as OutOfMemory, Global};
use std::marker::Model;
use trap_bank::Failed;
use trap_block::xor_into;
use trap_model::{Block, Geometry, LogRec};
use trap_pool::{Lease, Pool};

/// An entry: the header of its record, and the contents that it writes.
#[derive(Debug, Drop)]
pub struct Kept {
    pub rec: LogRec,
    pub contents: Block,
}

/// Entries over a base, in memory. It stands for one state, and `fail_at` chooses a call that
/// fails.
#[derive(Drop)]
pub struct MemoryPast {
    alloc: Global,
    g: Geometry,
    first: u64,
    base_time: u64,
    first_off: u64,
    base: Vec<Block>,
    entries: Vec<Kept>,
    presents: u64,
    parities: u64,
    snapshots: u64,
    asked: u32,
    looked: u64,
    calls: u64,
    failing: u64,
    faults: u64,
}

impl Model for MemoryPast {
    ghost use Rattle.trap_past.specs.Memory.{PastInMemory, IsPastInMemory};

    ghost Value = { PastInMemory };

    ghost use Rattle.trap_past.specs.MemoryFields.{past_memory_of};

    ghost view = { past_memory_of };

    ghost invariant = { λ past. IsPastInMemory (past_memory_of past) };
}

impl MemoryPast {
    /// Zero blocks, and no entry yet. The only error is want of memory.
    pub fn new(
        alloc: Global,
        g: &Geometry,
        first: u64,
        base_time: u64,
        first_off: u64,
    ) -> Result<MemoryPast, OutOfMemory>
        ensures { IfOk result (λ past. past ≡ zero_past g.now first base_time first_off) }
    {
        Ok(MemoryPast {
            alloc,
            g: *g,
            first,
            base_time,
            first_off,
            base: zero_blocks(alloc, g)?,
            entries: Vec::new(alloc),
            presents: 0,
            parities: 0,
            snapshots: 0,
            asked: 0,
            looked: 0,
            calls: 0,
            failing: 0,
            faults: 0,
        })
    }

    /// Adds an entry with these contents, by the header of its record. The only error is want of
    /// memory.
    pub fn write(&mut self, rec: &LogRec, contents: &[u8]) -> Result<(), OutOfMemory>
        requires block { rec.now.block < volume self.old.g }
        requires size { length contents.now ≡ self.old.g.block }
        ensures ok { OnOk result (self.new ≡ with_entry self.old rec.now contents.now) }
        ensures err { OnErr result (self.new ≡ self.old) }
    {
        let contents = Block::new(self.alloc, contents)?;
        self.entries.push(Kept {
            rec: *rec,
            contents,
        })?;
        Ok(())
    }

    /// Makes the call with that number fail, counted from 1 over the three methods. 0 stands for
    /// none.
    pub fn fail_at(&mut self, call: u64)
        ensures { self.new ≡ record self.old { failing = call } }
    {
        self.failing = call;
    }

    /// Counts a call, which fails where it was chosen.
    fn strike(&mut self) -> Result<(), Failed>
        ensures counts { self.new
            ≡ record self.old { calls = one_more self.old.calls; faults = self.new.faults } }
        ensures ok { OnOk result (self.new.faults ≡ self.old.faults) }
        ensures err { OnErr result (self.new.faults ≡ one_more self.old.faults) }
        ensures struck { IsErr result ↔ (one_more self.old.calls ≡ self.old.failing) }
    {
        self.calls = self.calls.saturating_add(1);
        if self.calls == self.failing {
            self.faults = self.faults.saturating_add(1);
            return Err(Failed);
        }
        Ok(())
    }

    /// The entry with this number.
    fn kept(&self, seq: u64) -> &Kept
        requires low { self.now.first < seq }
        requires high { seq ≤ last_seq (index_of self.now) }
        ensures is { kept_entry result.now ≡ entry_at (past_state self.now) seq }
        ensures block { result.now.rec.block < volume self.now.g }
        ensures size { length result.now.contents ≡ self.now.g.block }
    {
        &self.entries[(seq - self.first - 1) as usize]
    }

    /// The contents of an entry's block before it.
    fn before(&self, seq: u64) -> &Block
        requires low { self.now.first < seq }
        requires high { seq ≤ last_seq (index_of self.now) }
        ensures is { result.now ≡ block_of (image_at (past_state self.now) (seq - 1))
            (entry_at (past_state self.now) seq).block }
        ensures size { length result.now ≡ self.now.g.block }
    {
        let block = self.kept(seq).rec.block as usize;
        let count = (seq - self.first - 1) as usize;
        contents_after(&self.base, &self.entries[..count], block)
    }
}

impl Present for MemoryPast {
    type Fault = Failed;

    ghost view = { past_of };

    ghost acts = { Stays };

    ghost reasons = { CallFailed };

    ghost after_fault = { WasChosen };

    fn present(
        &mut self,
        pool: &mut Pool,
        block: u32,
        into: &Lease,
        _scratch: &Lease,
    ) -> Result<(), Failed>
        requires block { block < (past_of self.old).has.volume }
        requires size { pool.old.size ≡ (past_of self.old).has.size }
        requires leases { AreLeases pool.old (into.now ∷ _scratch.now ∷ []) }
        requires few { (past_of self.old).presents < 2 ^ 63 }
        ensures present { (s : State) → (past_of self.old).stands s
            → OnOk result (pool_block pool.new into.now ≡ block_of (image s) block) }
        ensures rest { Only (into.now ∷ _scratch.now ∷ []) pool.old pool.new }
        ensures call { GivesPresent block (past_of self.old) (past_of self.new) }
        ensures acts { Stays self.old self.new }
        ensures blame { HasBlame past_of CallFailed WasChosen result self.old self.new }
        ensures told { (s : State) → (past_of self.old).stands s → IsOf (past_of self.old).has s }
        ensures struck { PastFailsAsChosen result self.old self.new }
    {
        self.presents += 1;
        self.asked = block;
        self.strike()?;
        let contents = contents_after(&self.base, &self.entries, block as usize);
        pool.bytes_mut(into).copy_from_slice(contents.as_slice());
        Ok(())
    }

    ghost acts_then = { λ a b c ab bc.
        record { state = bc.state ∙ ab.state; faults = Prim.search rules } };

    ghost reasons_since = { λ a b c fault ab bc. let before = ab.faults in Prim.search rules };

    ghost reasons_still = { λ a b c fault ab bc. let after = bc.faults in Prim.search rules };
}

impl Parities for MemoryPast {
    fn parity(&mut self, pool: &mut Pool, seq: u64, into: &Lease) -> Result<(), Failed>
        requires retained { IsRetained (past_of self.old).has seq }
        requires size { pool.old.size ≡ (past_of self.old).has.size }
        requires lease { IsLive pool.old into.now }
        requires few { (past_of self.old).parities < 2 ^ 63 }
        ensures parity { (s : State) → (past_of self.old).stands s
            → OnOk result (pool_block pool.new into.now ≡ parity_at s seq) }
        ensures rest { Only (into.now ∷ []) pool.old pool.new }
        ensures call { GivesParity seq (past_of self.old) (past_of self.new) }
        ensures acts { Stays self.old self.new }
        ensures blame { HasBlame past_of CallFailed WasChosen result self.old self.new }
        ensures struck { PastFailsAsChosen result self.old self.new }
    {
        self.parities += 1;
        self.looked = seq;
        self.strike()?;
        let kept = self.kept(seq);
        pool.bytes_mut(into)
            .copy_from_slice(self.before(seq).as_slice());
        xor_into(pool.bytes_mut(into), kept.contents.as_slice());
        Ok(())
    }

    fn snapshot(&mut self, pool: &mut Pool, seq: u64, into: &Lease) -> Result<(), Failed>
        requires retained { IsRetained (past_of self.old).has seq }
        requires marked { IsTrue ((past_of self.old).has.item seq).snap }
        requires size { pool.old.size ≡ (past_of self.old).has.size }
        requires lease { IsLive pool.old into.now }
        requires few { (past_of self.old).snapshots < 2 ^ 63 }
        ensures snapshot { (s : State) → (past_of self.old).stands s
            → OnOk result (pool_block pool.new into.now ≡ (entry_at s seq).bytes) }
        ensures rest { Only (into.now ∷ []) pool.old pool.new }
        ensures call { GivesSnapshot seq (past_of self.old) (past_of self.new) }
        ensures acts { Stays self.old self.new }
        ensures blame { HasBlame past_of CallFailed WasChosen result self.old self.new }
        ensures struck { PastFailsAsChosen result self.old self.new }
    {
        self.snapshots += 1;
        self.looked = seq;
        self.strike()?;
        pool.bytes_mut(into)
            .copy_from_slice(self.kept(seq).contents.as_slice());
        Ok(())
    }
}

/// A block's contents after these entries over a base.
fn contents_after<'a>(base: &'a [Block], entries: &'a [Kept], block: usize) -> &'a Block
    requires { block < length base.now }
    ensures { result.now ≡ block_of (image_after base.now (map kept_entry entries.now)) block }
{
    let mut found = &base[block];
    for kept in entries {
        if kept.rec.block as usize == block {
            found = &kept.contents;
        }
    }
    found
}

/// The zero blocks of an array.
fn zero_blocks(alloc: Global, g: &Geometry) -> Result<Vec<Block>, OutOfMemory>
    ensures { IfOk result (λ blocks. blocks.items ≡ zero_image g.now) }
{
    let zeros = vec![in alloc; 0; g.block as usize]?;
    let mut blocks = Vec::new(alloc);
    for _ in 0..g.volume() {
        blocks.push(Block::new(alloc, zeros.as_slice())?)?;
    }
    Ok(blocks)
}
