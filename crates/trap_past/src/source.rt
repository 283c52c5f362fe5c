//! Where the present and the write parities come from.

ghost use Rattle.std.specs.Prelude.{◌≡◌, ◌^◌, ◌<◌, ◌∷◌, [], IsTrue, OnOk};
ghost use Rattle.trap_model.specs.Image.{block_of};
ghost use Rattle.trap_model.specs.Records.{entry_at};
ghost use Rattle.trap_model.specs.State.{image};
ghost use Rattle.trap_model.specs.declared.history.State.{State};
ghost use Rattle.trap_past.specs.Past.{Past, IsOf, IsRetained, HasBlame, GivesPresent, GivesParity};
ghost use Rattle.trap_past.specs.Past.{GivesSnapshot};
ghost use Rattle.trap_past.specs.Undo.{parity_at};
ghost use Rattle.trap_pool.specs.Frames.{AreLeases, Only};
ghost use Rattle.trap_pool.specs.Pooled.{pool_block, IsLive};

use trap_pool::{Lease, Pool};

/// A source of present blocks. A method fills the block of `into`, which after a fault holds any
/// bytes.
pub trait Present {
    /// Why a method gave nothing.
    type Fault;

    ghost view: { Self → Past };

    // What calls may do to a source beside what `view` tells, from before the first of them to
    // after the last.
    ghost acts: { Self → Self → Type 0 };

    // Why such calls ended with a fault.
    ghost reasons: { Self → Self → Self.Fault → Type 0 };

    // What is so right after a call that failed: a later call may change it.
    ghost after_fault: { Self → Self.Fault → Type 0 };

    /// Gives the block's present contents. It may use `scratch`, which then holds any bytes.
    fn present(
        &mut self,
        pool: &mut Pool,
        block: u32,
        into: &Lease,
        scratch: &Lease,
    ) -> Result<(), Self::Fault>
        requires block { block < (view self.old).has.volume }
        requires size { pool.old.size ≡ (view self.old).has.size }
        requires leases { AreLeases pool.old (into.now ∷ scratch.now ∷ []) }
        requires few { (view self.old).presents < 2 ^ 63 }
        ensures present { (s : State) → (view self.old).stands s
            → OnOk result (pool_block pool.new into.now ≡ block_of (image s) block) }
        ensures rest { Only (into.now ∷ scratch.now ∷ []) pool.old pool.new }
        ensures call { GivesPresent block (view self.old) (view self.new) }
        ensures acts { acts self.old self.new }
        ensures blame { HasBlame view reasons after_fault result self.old self.new }

        // The states that a source stands for are such that its numbers and items describe.
        ensures told { (s : State) → (view self.old).stands s → IsOf (view self.old).has s };

    // Calls one after the other are calls.
    ghost acts_then: { (a b c : Self) → acts a b → acts b c → acts a c };

    // A fault of the last of some calls is one of them all, and its reasons stay true.
    ghost reasons_since: { (a b c : Self) (fault : Self.Fault)
        → acts a b → reasons b c fault → reasons a c fault };

    ghost reasons_still: { (a b c : Self) (fault : Self.Fault)
        → reasons a b fault → acts b c → reasons a c fault };
}

/// A source of the retained entries too.
pub trait Parities: Present {
    /// Gives an entry's write parity: its block's old contents xor its new ones.
    fn parity(&mut self, pool: &mut Pool, seq: u64, into: &Lease) -> Result<(), Self::Fault>
        requires retained { IsRetained (Self.view self.old).has seq }
        requires size { pool.old.size ≡ (Self.view self.old).has.size }
        requires lease { IsLive pool.old into.now }
        requires few { (Self.view self.old).parities < 2 ^ 63 }
        ensures parity { (s : State) → (Self.view self.old).stands s
            → OnOk result (pool_block pool.new into.now ≡ parity_at s seq) }
        ensures rest { Only (into.now ∷ []) pool.old pool.new }
        ensures call { GivesParity seq (Self.view self.old) (Self.view self.new) }
        ensures acts { Self.acts self.old self.new }
        ensures blame { HasBlame Self.view Self.reasons Self.after_fault result self.old
            self.new };

    /// Gives the contents that a marked entry writes.
    fn snapshot(&mut self, pool: &mut Pool, seq: u64, into: &Lease) -> Result<(), Self::Fault>
        requires retained { IsRetained (Self.view self.old).has seq }
        requires marked { IsTrue ((Self.view self.old).has.item seq).snap }
        requires size { pool.old.size ≡ (Self.view self.old).has.size }
        requires lease { IsLive pool.old into.now }
        requires few { (Self.view self.old).snapshots < 2 ^ 63 }
        ensures snapshot { (s : State) → (Self.view self.old).stands s
            → OnOk result (pool_block pool.new into.now ≡ (entry_at s seq).bytes) }
        ensures rest { Only (into.now ∷ []) pool.old pool.new }
        ensures call { GivesSnapshot seq (Self.view self.old) (Self.view self.new) }
        ensures acts { Self.acts self.old self.new }
        ensures blame { HasBlame Self.view Self.reasons Self.after_fault result self.old
            self.new };
}
