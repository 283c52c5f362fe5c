//! The head, the pending writes and the records, read at mounting.

ghost use Rattle.std.specs.Prelude.{◌≡◌, ◌≤◌, ◌+◌, ◌-◌, length, Some, IsTrue, OnOk, OnErr, IfOk};
ghost use Rattle.std.specs.Prelude.{IfErr, IsErrOf, false};
ghost use Rattle.trap_bank.specs.Calls.{Fits};
ghost use Rattle.trap_bank.specs.Steps.{OnlyReads};
ghost use Rattle.trap_cell.specs.Steps.{IsMounted};
ghost use Rattle.trap_format.specs.LogDisk.{log_size, slots_at};
ghost use Rattle.trap_format.specs.HeadValue.{IsHead};
ghost use Rattle.trap_index.specs.Indexed.{nothing_indexed};
ghost use Rattle.trap_model.specs.declared.numbers.Geometry.{Geometry};
ghost use Rattle.trap_mount.specs.Holding.{head_place};
ghost use Rattle.trap_mount.specs.Memory.{HaveBlocksOf};
ghost use Rattle.trap_mount.specs.Mounting.{IsNoLog, Refuses, MountFails, HasHeader, HasHead};
ghost use Rattle.trap_mount.specs.Mounting.{HasSlots, names_member};
ghost use Rattle.trap_mount.specs.MountSteps.{IsStable, ReadsHead, ReadsStage, ReadsLog};
ghost use Rattle.trap_mount.specs.Reading.{ReadsIndex, ReadsHistory};

use crate::mounting::header::read_header;
use crate::mounting::records::read_records;
use crate::ring::ring_of;
use crate::{Buffers, Found, MountFault};
use std::alloc::Global;
use trap_bank::Bank;
use trap_cell::{Cell, CellFault};
use trap_format::layout::{CELL_AT, HEAD_VALUE_BYTES};
use trap_format::{Head, read_head, ring_len, ring_start};
use trap_index::Index;
use trap_model::Geometry;
use trap_scan::{CheckFault, Expected};
use trap_stage::{Stage, StageFault};

/// The version of the format.
const VERSION: u8 = 1;

/// Mounts the head's cell, and fills `value` with its value.
fn mount_cell<B: Bank>(bank: &mut B, value: &mut [u8; HEAD_VALUE_BYTES]) -> Result<Cell, MountFault>
    requires there { Fits (B.view bank.old) 0 slots_at }
    requires stable { IsStable (B.view bank.old) 0 }
    ensures mounted { IfOk result
        (IsMounted (B.view bank.old) (B.view bank.new) head_place value.new) }
    ensures reads { OnlyReads (B.view bank.old) (B.view bank.new) }
    ensures refused { IfErr result (λ why. (g : Geometry) → IsTrue (B.view bank.old).tells
        → HasHeader g (B.view bank.old).now.disks → Refuses (B.view bank.old) why) }
    ensures log { IfErr result (λ why. names_member why ≡ false) }
    ensures cause { IfErr result (λ why. MountFails why (B.view bank.old) (B.view bank.new)) }
{
    match Cell::mount(bank, 0, CELL_AT, value) {
        Ok(cell) => Ok(cell),
        Err(CellFault::NoValue) => Err(MountFault::Damaged { offset: CELL_AT }),
        Err(CellFault::DiskFault) => Err(MountFault::LogFault),
    }
}

/// Reads the head from its cell.
fn find_head<B: Bank>(bank: &mut B, g: &Geometry) -> Result<(Head, Cell), MountFault>
    requires there { Fits (B.view bank.old) 0 slots_at }
    requires stable { IsStable (B.view bank.old) 0 }
    ensures ok { IfOk result
        (λ found. ReadsHead found.0 g.now found.1 (B.view bank.old) (B.view bank.new)) }
    ensures reads { OnlyReads (B.view bank.old) (B.view bank.new) }
    ensures refused { IfErr result (λ why. IsTrue (B.view bank.old).tells
        → HasHeader g.now (B.view bank.old).now.disks → Refuses (B.view bank.old) why) }
    ensures log { IfErr result (λ why. names_member why ≡ false) }
    ensures cause { IfErr result (λ why. MountFails why (B.view bank.old) (B.view bank.new)) }
{
    let mut value = [0; HEAD_VALUE_BYTES];
    let cell = mount_cell(bank, &mut value)?;
    let version = value[0];
    if version != VERSION {
        return Err(MountFault::BadVersion { version });
    }
    let Some(head) = read_head(g, &value) else {
        return Err(MountFault::Damaged { offset: CELL_AT });
    };
    Ok((head, cell))
}

/// Reads the pending writes from their slots.
fn find_stage<B: Bank>(
    alloc: Global,
    bank: &mut B,
    g: &Geometry,
    head: &Head,
) -> Result<Stage, MountFault>
    requires size { (B.view bank.old).sizes 0 ≡ Some (log_size g.now) }
    requires head { IsHead g.now head.now }
    ensures ok { IfOk result (λ stage. ReadsStage g.now head.now stage (B.view bank.old)) }
    ensures reads { OnlyReads (B.view bank.old) (B.view bank.new) }
    ensures refused { IfErr result (λ why. IsTrue (B.view bank.old).tells
        → HasHead g.now head.now (B.view bank.old).now.disks → Refuses (B.view bank.old) why) }
    ensures log { IfErr result (λ why. names_member why ≡ false) }
    ensures cause { IfErr result (λ why. MountFails why (B.view bank.old) (B.view bank.new)) }
{
    match Stage::mount(alloc, bank, g, head.drained, head.last) {
        Ok(stage) => Ok(stage),
        Err(StageFault::DiskFault) => Err(MountFault::LogFault),
        Err(StageFault::Damaged { offset }) => Err(MountFault::Damaged { offset }),
        Err(StageFault::OutOfMemory) => Err(MountFault::OutOfMemory),
    }
}

/// Reads the records of the retained entries into an index that has none yet, and checks that they
/// are such.
fn take_history<B: Bank>(
    alloc: Global,
    bank: &mut B,
    g: &Geometry,
    head: &Head,
    index: &mut Index,
) -> Result<(), MountFault>
    requires size { (B.view bank.old).sizes 0 ≡ Some (log_size g.now) }
    requires head { IsHead g.now head.now }
    requires none { index.old
        ≡ nothing_indexed g.now head.now.first head.now.base_time head.now.first_off }
    ensures ok { OnOk result (ReadsHistory g.now head.now index.new (B.view bank.old)) }
    ensures reads { OnlyReads (B.view bank.old) (B.view bank.new) }
    ensures refused { IfErr result (λ why. IsTrue (B.view bank.old).tells
        → HasSlots g.now head.now (B.view bank.old).now.disks → Refuses (B.view bank.old) why) }
    ensures log { IfErr result (λ why. names_member why ≡ false) }
    ensures cause { IfErr result (λ why. MountFails why (B.view bank.old) (B.view bank.new)) }
{
    let ring = ring_of(g);
    let expected = Expected {
        size: g.block,
        volume: g.volume(),
        first: head.first,
        base_time: head.base_time,
        first_off: head.first_off,
        last: head.last,
        last_time: head.last_time,
        end_off: head.end_off,
    };
    match read_records(alloc, bank, &ring, &expected, index) {
        Ok(()) => Ok(()),
        Err(CheckFault::DiskFault) => Err(MountFault::LogFault),
        Err(CheckFault::Damaged { at }) => Err(MountFault::Damaged {
            offset: ring_start(g) + at % ring_len(g),
        }),
        Err(CheckFault::OutOfMemory) => Err(MountFault::OutOfMemory),
    }
}

/// The index of the retained records, which are read and checked.
fn read_history<B: Bank>(
    alloc: Global,
    bank: &mut B,
    g: &Geometry,
    head: &Head,
) -> Result<Index, MountFault>
    requires size { (B.view bank.old).sizes 0 ≡ Some (log_size g.now) }
    requires head { IsHead g.now head.now }
    ensures ok { IfOk result (λ index. ReadsHistory g.now head.now index (B.view bank.old)) }
    ensures reads { OnlyReads (B.view bank.old) (B.view bank.new) }
    ensures refused { IfErr result (λ why. IsTrue (B.view bank.old).tells
        → HasSlots g.now head.now (B.view bank.old).now.disks → Refuses (B.view bank.old) why) }
    ensures log { IfErr result (λ why. names_member why ≡ false) }
    ensures cause { IfErr result (λ why. MountFails why (B.view bank.old) (B.view bank.new)) }
{
    let Ok(mut index) = Index::new(alloc, g, head.first, head.base_time, head.first_off) else {
        return Err(MountFault::OutOfMemory);
    };
    take_history(alloc, bank, g, head, &mut index)?;
    Ok(index)
}

/// Reads all that stands on disk 0, and takes the memory for the calls of the array.
pub(super) fn find_log<B: Bank>(alloc: Global, bank: &mut B) -> Result<Found, MountFault>
    ensures ok { IfOk result (λ found.
        ReadsLog found.g found.head found.cell found.stage (B.view bank.old) (B.view bank.new)) }
    ensures index { IfOk result
        (λ found. ReadsIndex found.g found.head found.index (B.view bank.old)) }
    ensures buffers { IfOk result (λ found. HaveBlocksOf found.g.block found.buffers) }
    ensures reads { OnlyReads (B.view bank.old) (B.view bank.new) }
    ensures no_log { IsNoLog ((B.view bank.old).sizes 0)
        → IsErrOf result MountFault.NotAnArray × (bank.new ≡ bank.old) }
    ensures refused { IfErr result (λ why. IsTrue (B.view bank.old).tells
        → Refuses (B.view bank.old) why) }
    ensures log { IfErr result (λ why. names_member why ≡ false) }
    ensures cause { IfErr result (λ why. MountFails why (B.view bank.old) (B.view bank.new)) }
{
    let g = read_header(bank)?;
    let (head, cell) = find_head(bank, &g)?;
    let Ok(buffers) = Buffers::new(alloc, &g) else {
        return Err(MountFault::OutOfMemory);
    };
    let stage = find_stage(alloc, bank, &g, &head)?;
    let index = read_history(alloc, bank, &g, &head)?;
    Ok(Found {
        g,
        head,
        cell,
        stage,
        index,
        buffers,
    })
}
