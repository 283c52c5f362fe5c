//! The records of retained entries, which are read again; and a block as it was, over the log as a
//! source.

ghost use Rattle.std.specs.Prelude.{◌≡◌, ℕ, ◌^◌, ◌<◌, ◌≤◌, ◌∷◌, [], length, IsTrue, IsErrOf, IfErr};
ghost use Rattle.std.specs.Prelude.{◌↔◌, ◌+◌, IfOk, OnErr, OnOk, slice_range};
ghost use Rattle.trap_bank.specs.Calls.{Fits};
ghost use Rattle.trap_bank.specs.Faults.{Rose};
ghost use Rattle.trap_bank.specs.Steps.{OnlyReads};
ghost use Rattle.trap_format.specs.LogDisk.{log_size};
ghost use Rattle.trap_index.specs.Indexed.{item_at};
ghost use Rattle.trap_index.specs.Keeping as keeping;
ghost use Rattle.trap_model.specs.Image.{volume, block_of};
ghost use Rattle.trap_model.specs.Limits.{greatest_record, record_header_len};
ghost use Rattle.trap_model.specs.State.{image_at};
ghost use Rattle.trap_model.specs.declared.history.State.{State};
ghost use Rattle.trap_model.specs.ZeroRun.{ZeroRun};
ghost use Rattle.trap_pool.specs.Frames.{AreLeases, Only};
ghost use Rattle.trap_pool.specs.Pooled.{IsLive, pool_block};
ghost use Rattle.trap_array.specs.Calls.{StandsFor, running};
ghost use Rattle.trap_array.specs.Instants.{CanLookBack, HasEntry, HasInstant, FailsLooking};
ghost use Rattle.trap_array.specs.Instants.{FailsRecord};
ghost use Rattle.trap_array.specs.Coded.{HasFirstCode};
ghost use Rattle.trap_array.specs.Held.{leases_of};
ghost use Rattle.trap_array.specs.Holding.{log_ring};
ghost use Rattle.trap_array.specs.Log.{HaveBlocksOf, with_index};
ghost use Rattle.trap_array.specs.Sources.{CallsAtMost, part_block, reads_back};
ghost use Rattle.trap_array.specs.declared.fault.Denied.TheVariants as Denied;
ghost use Rattle.trap_record.specs.Parts.{part_of};
ghost use Rattle.trap_record.specs.Reading.{IsWhole, record_len};
ghost use Rattle.trap_record.specs.declared.parts.Part.TheVariants as Part;
ghost use Rattle.trap_ring.specs.Ring.{RingHas};

use crate::Denied;
use crate::held::Held;
use crate::log_past::LogPast;
use crate::planning::HEADER_BYTES;
use trap_bank::{Bank, DiskFault};
use trap_index::{Index, Item};
use trap_log::Log;
use trap_model::LogRec;
use trap_mount::Buffers;
use trap_past::block_at;
use trap_pool::{Lease, Pool};
use trap_record::{Part, read_part};

/// The header that the record of an item has.
fn rec_of(seq: u64, item: &Item) -> LogRec
    ensures { result ≡ keeping.rec_of_item seq item.now }
{
    LogRec {
        snap: item.snap,
        seq,
        time: item.time,
        block: item.block,
        plen: item.plen,
        slen: item.slen,
    }
}

/// Fills `into` with a block's contents after the entry with this number, by leases of `room`.
pub(crate) fn look_back<B: Bank>(
    log: &Log,
    index: &Index,
    bank: &mut B,
    room: &mut Buffers,
    block: u32,
    seq: u64,
    into: &mut [u8],
) -> Result<(), Denied>
    requires room { HaveBlocksOf log.now.g.block room.old }
    requires can { CanLookBack (with_index log.now index.now) (B.view bank.old) }
    requires block { block < volume log.now.g }
    requires instant { HasInstant index.now seq }
    requires into { length into.old ≡ log.now.g.block }
    ensures contents { IsTrue (B.view bank.old).tells → (s : State)
        → StandsFor (running (with_index log.now index.now)) s (B.view bank.old).now.disks
        → OnOk result (into.new ≡ block_of (image_at s seq) block) }
    ensures room { HaveBlocksOf log.now.g.block room.new }
    ensures damaged { (offset : ℕ) → IsErrOf result (Denied.Damaged offset)
        → IsTrue (B.view bank.old).tells
        → (s : State) → StandsFor (running (with_index log.now index.now)) s
        (B.view bank.old).now.disks → ⊥ }
    ensures cause { IfErr result (FailsLooking (running (with_index log.now index.now)) block seq
        (B.view bank.old) (B.view bank.new)) }
    ensures calls { CallsAtMost (reads_back (running (with_index log.now index.now)) block seq)
        (B.view bank.old) (B.view bank.new) }
    ensures any_moment { OnlyReads (B.view bank.old) (B.view bank.new) }
{
    let held = Held::take(&mut room.pool);
    let answer = undo(
        log,
        index,
        bank,
        &mut room.pool,
        block,
        seq,
        &held,
        room.spelled.as_mut_slice(),
    );
    into.copy_from_slice(room.pool.bytes(&held.contents));
    held.give(&mut room.pool);
    answer
}

/// The same of the block of `held.contents`. `spelled` has room for a record, and holds any
/// bytes then.
fn undo<B: Bank>(
    log: &Log,
    index: &Index,
    bank: &mut B,
    pool: &mut Pool,
    block: u32,
    seq: u64,
    held: &Held,
    spelled: &mut [u8],
) -> Result<(), Denied>
    requires can { CanLookBack (with_index log.now index.now) (B.view bank.old) }
    requires block { block < volume log.now.g }
    requires instant { HasInstant index.now seq }
    requires size { pool.old.size ≡ log.now.g.block }
    requires leases { AreLeases pool.old (leases_of held.now) }
    requires spelled { length spelled.old ≡ greatest_record log.now.g.block }
    ensures contents { IsTrue (B.view bank.old).tells → (s : State)
        → StandsFor (running (with_index log.now index.now)) s (B.view bank.old).now.disks
        → OnOk result
        (pool_block pool.new held.now.contents ≡ block_of (image_at s seq) block) }
    ensures rest { Only (leases_of held.now) pool.old pool.new }
    ensures damaged { (offset : ℕ) → IsErrOf result (Denied.Damaged offset)
        → IsTrue (B.view bank.old).tells
        → (s : State) → StandsFor (running (with_index log.now index.now)) s
        (B.view bank.old).now.disks → ⊥ }
    ensures cause { IfErr result (FailsLooking (running (with_index log.now index.now)) block seq
        (B.view bank.old) (B.view bank.new)) }
    ensures calls { CallsAtMost (reads_back (running (with_index log.now index.now)) block seq)
        (B.view bank.old) (B.view bank.new) }
    ensures any_moment { OnlyReads (B.view bank.old) (B.view bank.new) }
{
    let mut past = LogPast {
        log,
        index,
        bank,
        spelled,
        presents: 0,
        parities: 0,
        snapshots: 0,
        faults: 0,
        asked: block,
        looked: 0,
    };
    block_at(
        &mut past,
        index,
        pool,
        block,
        seq,
        &held.contents,
        &held.scratch,
    )
}

/// Fills the block of `into` with what a part of a retained entry's record stands for. The
/// record is read again, into `spelled`.
pub(crate) fn part<B: Bank>(
    log: &Log,
    index: &Index,
    bank: &mut B,
    pool: &mut Pool,
    seq: u64,
    part: Part,
    spelled: &mut [u8],
    into: &Lease,
) -> Result<(), Denied>
    requires can { CanLookBack (with_index log.now index.now) (B.view bank.old) }
    requires entry { HasEntry index.now seq }
    requires marked { part ≡ Part.Snapshot → IsTrue (item_at index.now seq).snap }
    requires spelled { length spelled.old ≡ greatest_record log.now.g.block }
    requires size { pool.old.size ≡ log.now.g.block }
    requires lease { IsLive pool.old into.now }
    ensures part { IsTrue (B.view bank.old).tells → (s : State)
        → StandsFor (running (with_index log.now index.now)) s (B.view bank.old).now.disks
        → OnOk result (pool_block pool.new into.now ≡ part_block part s seq) }
    ensures code { part ≡ Part.Parity → OnOk result (HasFirstCode log.now.g.block
        (item_at index.now seq).plen (pool_block pool.new into.now) spelled.new) }
    ensures there { IsTrue (B.view bank.old).tells → OnOk result (RingHas (log_ring log.now.g)
        ((item_at index.now seq).off + record_header_len) (slice_range spelled.new
        record_header_len (record_header_len + (item_at index.now seq).plen))
        (B.view bank.old).now.disks) }
    ensures rest { Only (into.now ∷ []) pool.old pool.new }
    ensures damaged { (offset : ℕ) → IsErrOf result (Denied.Damaged offset)
        → IsTrue (B.view bank.old).tells
        → (s : State) → StandsFor (running (with_index log.now index.now)) s
        (B.view bank.old).now.disks → ⊥ }
    ensures cause { IfErr result (FailsRecord (running (with_index log.now index.now)) seq
        (B.view bank.old) (B.view bank.new)) }
    ensures calls { CallsAtMost 2 (B.view bank.old) (B.view bank.new) }
    ensures any_moment { OnlyReads (B.view bank.old) (B.view bank.new) }
{
    let item = item_of(index, seq);
    let rec = rec_of(seq, &item);
    let damaged = Denied::Damaged {
        offset: log.on_disk(item.off),
    };
    let len = HEADER_BYTES + usize::from(item.plen) + usize::from(item.slen);
    if spelled.len() < len {
        return Err(damaged);
    }
    let bytes = &mut spelled[..len];

    // What is read again is believed only where it is the record that the array knows.
    let is_there = reread(log, bank, item.off, &rec, part, bytes, pool.bytes_mut(into))?;
    if !is_there {
        return Err(damaged);
    }
    Ok(())
}

/// Reads a record again, whose header is known, and fills `into` with the block that a part of it
/// spells. It answers whether the bytes there are such a record: where they aren't, `into` holds
/// any bytes.
fn reread<B: Bank>(
    log: &Log,
    bank: &mut B,
    off: u64,
    rec: &LogRec,
    part: Part,
    bytes: &mut [u8],
    into: &mut [u8],
) -> Result<bool, DiskFault>
    requires disk { Fits (B.view bank.old) 0 (log_size log.now.g) }
    requires long { length bytes.old ≡ record_len rec.now }
    requires most { length bytes.old ≤ greatest_record log.now.g.block }
    requires size { length into.old ≡ log.now.g.block }
    requires marked { part ≡ Part.Snapshot → IsTrue rec.now.snap }
    ensures there { IsTrue (B.view bank.old).tells → OnOk result
        (RingHas (log_ring log.now.g) off bytes.new (B.view bank.old).now.disks) }
    ensures whole { IfOk result (λ is. IsTrue is
        ↔ IsWhole log.now.g.block rec.now (length bytes.new) bytes.new) }
    ensures spelled { IfOk result (λ is. IsTrue is
        → ZeroRun into.new (part_of part rec.now bytes.new)) }
    ensures cause { OnErr result (Rose ((B.view bank.old).faults 0) ((B.view bank.new).faults 0)) }

    // A record that goes round the ring's end takes two reads.
    ensures calls { CallsAtMost 2 (B.view bank.old) (B.view bank.new) }
    ensures any_moment { OnlyReads (B.view bank.old) (B.view bank.new) }
{
    log.ring().read(bank, off, bytes)?;
    Ok(read_part(bytes, rec, part, into))
}

/// What is known of a retained entry.
pub(crate) fn item_of(index: &Index, seq: u64) -> Item
    requires { HasEntry index.now seq }
    ensures item { result ≡ item_at index.now seq }

    // What the type of the field says.
    ensures time { result.time < 2 ^ 64 }
{
    match index.item(seq) {
        Some(item) => item,
        None => unreachable!(),
    }
}
