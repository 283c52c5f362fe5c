//! The present contents of a block, from the members and the pending writes.

ghost use Rattle.std.specs.Prelude.{◌≡◌, ◌<◌, ◌∷◌, [], length, IsTrue, OnOk, IfErr};
ghost use Rattle.trap_bank.specs.Called.{CalledTimes};
ghost use Rattle.trap_bank.specs.Steps.{OnlyReads};
ghost use Rattle.trap_index.specs.Indexed.{Indexed};
ghost use Rattle.trap_model.specs.Image.{volume, block_of};
ghost use Rattle.trap_model.specs.State.{image};
ghost use Rattle.trap_model.specs.declared.history.State.{State};
ghost use Rattle.trap_pool.specs.Frames.{AreLeases, Only};
ghost use Rattle.trap_pool.specs.Pooled.{pool_block};
ghost use Rattle.trap_raid.specs.Reads.{FailedMember};
ghost use Rattle.trap_array.specs.Calls.{StandsFor, HasSizes, running};
ghost use Rattle.trap_array.specs.Log.{HaveBlocksOf, with_index};
ghost use Rattle.trap_array.specs.Calling.{present_until};
ghost use Rattle.trap_array.specs.Sources.{ReadsPresent};

use crate::held::Held;
use trap_bank::Bank;
use trap_log::Log;
use trap_map::place_of;
use trap_mount::Buffers;
use trap_pool::{Lease, Pool};
use trap_raid::MemberFailed;

/// Fills the block of `into` with the contents of a block of the array. It uses `scratch`.
pub(crate) fn fetch<B: Bank>(
    log: &Log,
    bank: &mut B,
    pool: &mut Pool,
    block: u32,
    into: &Lease,
    scratch: &Lease,
) -> Result<(), MemberFailed>
    requires sizes { HasSizes log.now.g log.now.head.lost log.now.head.rebuilt
        (B.view bank.old) }
    requires block { block < volume log.now.g }
    requires size { pool.old.size ≡ log.now.g.block }
    requires leases { AreLeases pool.old (into.now ∷ scratch.now ∷ []) }
    ensures bytes { IsTrue (B.view bank.old).tells → (i : Indexed) (s : State)
        → StandsFor (running (with_index log.now i)) s (B.view bank.old).now.disks
        → OnOk result (pool_block pool.new into.now ≡ block_of (image s) block) }
    ensures rest { Only (into.now ∷ scratch.now ∷ []) pool.old pool.new }
    ensures cause { IfErr result (λ failed. FailedMember log.now.g log.now.head.lost
        (B.view bank.old) (B.view bank.new) failed.member) }
    ensures calls { (i : Indexed) → ReadsPresent (running (with_index log.now i)) block result
        (B.view bank.old) (B.view bank.new) }
    ensures failed_calls { (i : Indexed) → IfErr result (λ failed. CalledTimes
        (present_until (running (with_index log.now i)) block failed.member) (B.view bank.old)
        (B.view bank.new)) }
    ensures any_moment { OnlyReads (B.view bank.old) (B.view bank.new) }
{
    let raid = log.raid();
    let place = place_of(&log.geometry(), block);
    raid.read_place(bank, log.stage(), pool, place, into, scratch)
}

/// Fills `into` with the same, by leases of `room`.
pub(crate) fn read_block<B: Bank>(
    log: &Log,
    bank: &mut B,
    room: &mut Buffers,
    block: u32,
    into: &mut [u8],
) -> Result<(), MemberFailed>
    requires room { HaveBlocksOf log.now.g.block room.old }
    requires sizes { HasSizes log.now.g log.now.head.lost log.now.head.rebuilt
        (B.view bank.old) }
    requires block { block < volume log.now.g }
    requires into { length into.old ≡ log.now.g.block }
    ensures bytes { IsTrue (B.view bank.old).tells → (i : Indexed) (s : State)
        → StandsFor (running (with_index log.now i)) s (B.view bank.old).now.disks
        → OnOk result (into.new ≡ block_of (image s) block) }
    ensures room { HaveBlocksOf log.now.g.block room.new }
    ensures cause { IfErr result (λ failed. FailedMember log.now.g log.now.head.lost
        (B.view bank.old) (B.view bank.new) failed.member) }
    ensures calls { (i : Indexed) → ReadsPresent (running (with_index log.now i)) block result
        (B.view bank.old) (B.view bank.new) }
    ensures failed_calls { (i : Indexed) → IfErr result (λ failed. CalledTimes
        (present_until (running (with_index log.now i)) block failed.member) (B.view bank.old)
        (B.view bank.new)) }
    ensures any_moment { OnlyReads (B.view bank.old) (B.view bank.new) }
{
    let held = Held::take(&mut room.pool);
    let answer = fetch(
        log,
        bank,
        &mut room.pool,
        block,
        &held.contents,
        &held.scratch,
    );
    into.copy_from_slice(room.pool.bytes(&held.contents));
    held.give(&mut room.pool);
    answer
}
