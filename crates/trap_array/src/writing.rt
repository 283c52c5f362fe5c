//! A write of a block that is there: a slot for it, its plan, its commit, and its drain.

ghost use Rattle.std.specs.Prelude.{◌≡◌, ◌≢◌, ◌↔◌, ◌⊎◌, ℕ, [], ◌+◌, ◌^◌, ◌<◌, ◌≤◌, length, OnOk};
ghost use Rattle.std.specs.Prelude.{OnErr, IfErr, IfSome};
ghost use Rattle.trap_bank.specs.Steps.{Moves};
ghost use Rattle.trap_index.specs.Indexed.{Indexed};
ghost use Rattle.trap_model.specs.ArrayStep.{added, step};
ghost use Rattle.trap_model.specs.Image.{volume};
ghost use Rattle.trap_model.specs.Limits.{greatest_record};
ghost use Rattle.trap_model.specs.State.{last};
ghost use Rattle.trap_model.specs.declared.request.Refusal.{Refusal};
ghost use Rattle.trap_model.specs.declared.request.Refusal.TheVariants.{Full};
ghost use Rattle.trap_model.specs.declared.request.Reply.TheVariants as reply;
ghost use Rattle.trap_model.specs.declared.request.Request.TheVariants as request;
ghost use Rattle.trap_pool.specs.Frames.{AreLeases, Only};
ghost use Rattle.trap_array.specs.Areas.{Touches, InDrain, InWrite};
ghost use Rattle.trap_array.specs.Calling.{CallsInCommit, kept_calls, planned_calls};
ghost use Rattle.trap_array.specs.Calls.{SameLog, AtAnyMoment, StandsAfterCall, running};
ghost use Rattle.trap_array.specs.Growing.{HeadAfter, IndexAfter};
ghost use Rattle.trap_array.specs.Held.{HasRoom, leases_of};
ghost use Rattle.trap_array.specs.Log.{HaveBlocksOf, with_index};
ghost use Rattle.trap_array.specs.NextHead.{drained_to, entry_for, next_rec};
ghost use Rattle.trap_array.specs.Owed.{left_pending, owed, pending_writes, reply_of_write};
ghost use Rattle.trap_array.specs.Ready.{CanCommit, CanDrain, CanWrite};
ghost use Rattle.trap_array.specs.Taking.{LeavesWrite, StagedAfter};
ghost use Rattle.trap_array.specs.Turning.{IsFaultOf, IsFull, MovesLog, early_refusal};
ghost use Rattle.trap_array.specs.Untouched.{Untouched};
ghost use Rattle.trap_array.specs.declared.fault.Denied.TheVariants.{Refused};

use crate::Denied;
use crate::held::Held;
use crate::planning::{HEADER_BYTES, plan, spell_next};
use trap_bank::Bank;
use trap_index::Index;
use trap_log::Log;
use trap_model::{LogRec, Refusal};
use trap_mount::Buffers;

/// Writes a block of the array, where nothing is against it. When it is answered, it is
/// committed and on the members.
pub(crate) fn write_block<B: Bank>(
    log: &mut Log,
    index: &mut Index,
    bank: &mut B,
    room: &mut Buffers,
    time: u64,
    block: u32,
    bytes: &[u8],
) -> Result<u64, Denied>
    requires room { HaveBlocksOf log.old.g.block room.old }
    requires can { CanWrite (with_index log.old index.old) (B.view bank.old) }
    requires block { block < volume log.old.g }
    requires bytes { length bytes.now ≡ log.old.g.block }
    ensures moves { MovesLog (with_index log.old index.old) (with_index log.new index.new)
        (λ s. (step log.old.g).next s (request.Write time block bytes.now))
        (λ s. (step log.old.g).reply s (request.Write time block bytes.now)) result
        (B.view bank.old) (B.view bank.new) }
    ensures room { HaveBlocksOf log.old.g.block room.new }
    ensures leaves { LeavesWrite (kept_calls (running (with_index log.old index.old)) block)
        (running (with_index log.old index.old)) (running (with_index log.new index.new)) time block
        result (B.view bank.old) (B.view bank.new) }
    ensures pending { IfSome (reply_of_write result) (λ reply. pending_writes log.new.head
        ≡ owed log.old.g (request.Write time block bytes.now) reply
        (pending_writes log.old.head)) }
    ensures staged { StagedAfter (running (with_index log.old index.old))
        (running (with_index log.new index.new)) result }
    ensures refused { (why : Refusal) → why ≢ Full
        → (result ≡ Err (Refused why)) ↔ (early_refusal log.old.head time ≡ Some why) }
    ensures full { result ≡ Err (Refused Full)
        → IsFull log.old.g log.old.head (greatest_record log.old.g.block) }
    ensures at_once { (why : Refusal) → early_refusal log.old.head time ≡ Some why
        → Untouched (B.view bank.old) (B.view bank.new) }
{
    if let Some(why) = log.refusal(time) {
        return Err(Denied::Refused(why));
    }
    log.drain_for_room(bank)?;
    let held = Held::take(&mut room.pool);
    let answer = plan_and_commit(log, index, bank, room, &held, time, block, bytes);
    held.give(&mut room.pool);
    answer
}

/// Writes it over these leases, where a slot is free, and neither time nor number is against it:
/// plans, commits and drains.
fn plan_and_commit<B: Bank>(
    log: &mut Log,
    index: &mut Index,
    bank: &mut B,
    room: &mut Buffers,
    held: &Held,
    time: u64,
    block: u32,
    bytes: &[u8],
) -> Result<u64, Denied>
    requires room { HasRoom log.old.g.block room.old }
    requires leases { AreLeases room.old.pool (leases_of held.now) }
    requires can { CanWrite (with_index log.old index.old) (B.view bank.old) }
    requires free { log.old.head.last < log.old.head.drained + log.old.g.slots }
    requires later { log.old.head.last_time ≤ time }
    requires not_worn { log.old.head.last < 2 ^ 40 }
    requires block { block < volume log.old.g }
    requires bytes { length bytes.now ≡ log.old.g.block }
    ensures moves { MovesLog (with_index log.old index.old) (with_index log.new index.new)
        (λ s. (step log.old.g).next s (request.Write time block bytes.now))
        (λ s. (step log.old.g).reply s (request.Write time block bytes.now)) result
        (B.view bank.old) (B.view bank.new) }
    ensures room { HasRoom log.old.g.block room.new }
    ensures rest { Only (leases_of held.now) room.old.pool room.new.pool }
    ensures leaves { LeavesWrite (planned_calls (running (with_index log.old index.old))
        log.old.stage.pending log.old.cell block) (running (with_index log.old index.old))
        (running (with_index log.new index.new)) time block result (B.view bank.old)
        (B.view bank.new) }
    ensures pending { IfSome (reply_of_write result) (λ reply. pending_writes log.new.head
        ≡ owed log.old.g (request.Write time block bytes.now) reply
        (pending_writes log.old.head)) }
    ensures staged { (why : Refusal) → result ≡ Err (Refused why)
        → log.new.stage ≡ log.old.stage }
    ensures refused { (why : Refusal) → result ≡ Err (Refused why) → why ≡ Full }
    ensures full { result ≡ Err (Refused Full)
        → IsFull log.old.g log.old.head (greatest_record log.old.g.block) }
{
    plan(log, bank, &mut room.pool, held, block, bytes)?;
    let rec = spell_next(log, room, held, time, block);
    let size = HEADER_BYTES + usize::from(rec.plen);
    if log.is_full(size as u64) {
        return Err(Denied::Refused(Refusal::Full));
    }
    commit_and_drain(
        log,
        index,
        bank,
        &rec,
        bytes,
        room.pool.bytes(&held.parity),
        &room.spelled.as_slice()[..size],
    )
}

/// Commits the entry, and drains it.
fn commit_and_drain<B: Bank>(
    log: &mut Log,
    index: &mut Index,
    bank: &mut B,
    rec: &LogRec,
    bytes: &[u8],
    parity: &[u8],
    spelled: &[u8],
) -> Result<u64, Denied>
    requires can { CanCommit (with_index log.old index.old) (B.view bank.old)
        (entry_for rec.now.time rec.now.block bytes.now) parity.now spelled.now }
    requires rec { rec.now ≡ next_rec log.old.head rec.now.time rec.now.block
        (length spelled.now) }
    ensures moves { MovesLog (with_index log.old index.old) (with_index log.new index.new)
        (λ s. added s (entry_for rec.now.time rec.now.block bytes.now))
        (λ s. reply.Kept (last s + 1)) result (B.view bank.old) (B.view bank.new) }
    ensures touches { Touches
        (InWrite (running (with_index log.old index.old)) rec.now.block) (B.view bank.old)
        (B.view bank.new) }
    ensures head { HeadAfter log.old.g log.old.head log.new.head rec.now.time result }
    ensures index { IndexAfter (running (with_index log.old index.old))
        (running (with_index log.new index.new)) rec.now.time rec.now.block result }
    ensures pending { OnOk result (pending_writes log.new.head ≡ 0) }
    ensures refused { (why : Refusal) → result ≡ Err (Refused why) → ⊥ }
    ensures calls { CallsInCommit (running (with_index log.old index.old))
        (running (with_index log.new index.new)) rec.now.block result (B.view bank.old)
        (B.view bank.new) }
{
    log.commit(index, bank, rec, bytes, parity, spelled)?;
    // The write is on the members, and its slot is free for the next one, before it is
    // answered.
    log.drain_all(bank)?;
    Ok(rec.seq)
}
