//! What a write needs before its commit: the parity of its row, and its record.

ghost use Rattle.std.specs.Prelude.{◌≡◌, ◌+◌, ◌^◌, ◌<◌, ◌≤◌, List, ℕ, length, take, IsTrue, OnOk};
ghost use Rattle.std.specs.Prelude.{IfErr};
ghost use Rattle.trap_bank.specs.Called.{TakesCalls};
ghost use Rattle.trap_bank.specs.Steps.{OnlyReads};
ghost use Rattle.trap_block.specs.Xor.{xor};
ghost use Rattle.trap_index.specs.Indexed.{Indexed};
ghost use Rattle.trap_model.specs.Image.{volume};
ghost use Rattle.trap_model.specs.Limits.{greatest_record, record_header_len};
ghost use Rattle.trap_model.specs.Records.{record_of};
ghost use Rattle.trap_model.specs.State.{image};
ghost use Rattle.trap_model.specs.declared.history.State.{State};
ghost use Rattle.trap_pool.specs.Frames.{AreLeases, Only};
ghost use Rattle.trap_pool.specs.Pooled.{IsLive, pool_block};
ghost use Rattle.trap_raid.specs.Plan.{IsPlan};
ghost use Rattle.trap_raid.specs.Reads.{FailedMember};
ghost use Rattle.trap_raid.specs.Standing.{plan_reads};
ghost use Rattle.trap_array.specs.Calls.{StandsFor, HasSizes, running};
ghost use Rattle.trap_array.specs.Held.{HasRoom, leases_of};
ghost use Rattle.trap_array.specs.Log.{with_index};
ghost use Rattle.trap_array.specs.NextHead.{entry_for, next_rec};

use crate::held::Held;
use trap_bank::Bank;
use trap_log::Log;
use trap_model::{LogRec, RECORD_HEADER_BYTES};
use trap_mount::Buffers;
use trap_pool::Pool;
use trap_raid::MemberFailed;
use trap_record::spell;
use trap_zrun::code;

/// How many bytes a record's header has.
pub(crate) const HEADER_BYTES: usize = RECORD_HEADER_BYTES as usize;

/// Fills the block of `held.delta` with the old bytes of the block xor the new ones, and that
/// of `held.parity` with the parity of its row then.
pub(crate) fn plan<B: Bank>(
    log: &Log,
    bank: &mut B,
    pool: &mut Pool,
    held: &Held,
    block: u32,
    bytes: &[u8],
) -> Result<(), MemberFailed>
    requires size { pool.old.size ≡ log.now.g.block }
    requires leases { AreLeases pool.old (leases_of held.now) }
    requires sizes { HasSizes log.now.g log.now.head.lost log.now.head.rebuilt
        (B.view bank.old) }
    requires block { block < volume log.now.g }
    requires bytes { length bytes.now ≡ log.now.g.block }
    ensures plan { IsTrue (B.view bank.old).tells → (i : Indexed) (s : State)
        → StandsFor (running (with_index log.now i)) s (B.view bank.old).now.disks
        → OnOk result
        (IsPlan log.now.g (image s) block bytes.now (pool_block pool.new held.now.delta)
        (pool_block pool.new held.now.parity)) }
    ensures rest { Only (leases_of held.now) pool.old pool.new }
    ensures cause { IfErr result (λ failed. FailedMember log.now.g log.now.head.lost
        (B.view bank.old) (B.view bank.new) failed.member) }
    ensures calls { TakesCalls
        (plan_reads log.now.g log.now.head.lost log.now.stage.pending block) result
        (B.view bank.old) (B.view bank.new) }
    ensures any_moment { OnlyReads (B.view bank.old) (B.view bank.new) }
{
    let raid = log.raid();
    pool.bytes_mut(&held.contents).copy_from_slice(bytes);
    raid.write_plan(
        bank,
        log.stage(),
        pool,
        block,
        &held.contents,
        &held.delta,
        &held.parity,
        &held.scratch,
    )
}

/// Spells the record of the next entry, whose write changes its block by that of `held.delta`,
/// and answers its header.
pub(crate) fn spell_next(
    log: &Log,
    room: &mut Buffers,
    held: &Held,
    time: u64,
    block: u32,
) -> LogRec
    requires room { HasRoom log.now.g.block room.old }
    requires lease { IsLive room.old.pool held.now.delta }
    requires last { log.now.head.last < 2 ^ 40 }
    ensures header { result ≡ next_rec log.now.head time block (record_header_len + result.plen) }
    ensures spelled { (old bytes : List ℕ)
        → pool_block room.old.pool held.now.delta ≡ xor old bytes
        → take (record_header_len + result.plen) room.new.spelled
        ≡ record_of (log.now.head.last + 1) old (entry_for time block bytes) }
    ensures short { record_header_len + result.plen ≤ greatest_record log.now.g.block }
    ensures code { (4 ≤ result.plen) × (result.plen ≤ log.now.g.block + 7) }
    ensures room { HasRoom log.now.g.block room.new }
    ensures pool { room.new.pool ≡ room.old.pool }
{
    let plen = code(room.pool.bytes(&held.delta), room.code.as_mut_slice());
    let rec = LogRec {
        snap: false,
        seq: log.head().last + 1,
        time,
        block,
        plen: plen as u16,
        slen: 0,
    };
    let _size = spell(
        &rec,
        &room.code.as_slice()[..plen],
        &[],
        room.spelled.as_mut_slice(),
    );
    rec
}
