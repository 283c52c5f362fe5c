//! A cell with values of two bytes, over a bank in memory.

ghost use Rattle.std.specs.Prelude.{◌≡◌, ◌≤◌, IfOk, OnOk, Some};
ghost use Rattle.trap_bank.specs.Memory.{view_of};
ghost use Rattle.trap_bank.specs.Steps.{Always};
ghost use Rattle.trap_cell.specs.Slots.{Stands, place_of};

use crate::{Cell, CellFault};
use std::alloc::Global;
use std::test::Fail;
use trap_bank::{Bank, DiskFault, MemoryBank};

const FIRST: [u8; 2] = [0xaa; 2];

const SECOND: [u8; 2] = [0xbb; 2];

const THIRD: [u8; 2] = [0xcc; 2];

/// A new disk of eight bytes, and a cell on it that holds the value.
fn begun<B: Bank>(bank: &mut B, value: [u8; 2]) -> Result<Cell, DiskFault>
    ensures place { IfOk result (λ cell. cell.place ≡ place_of 0 0 2) }
    ensures room { OnOk result ((B.view bank.new).sizes 0 ≡ Some 8) }
    ensures stands { IfOk result (λ cell. Always (B.view bank.new) (Stands cell)) }
{
    bank.make(0, 8)?;
    let cell = Cell::first(bank, 0, 0, &value)?;
    Ok(cell)
}

fn put<B: Bank>(cell: &mut Cell, bank: &mut B, value: [u8; 2]) -> Result<(), DiskFault>
    requires place { cell.old.place ≡ place_of 0 0 2 }
    requires room { (B.view bank.old).sizes 0 ≡ Some 8 }
    requires stands { Always (B.view bank.old) (Stands cell.old) }
    ensures place { cell.new.place ≡ place_of 0 0 2 }
    ensures room { (B.view bank.new).sizes 0 ≡ Some 8 }
    ensures stands { OnOk result (Always (B.view bank.new) (Stands cell.new)) }
{
    cell.put(bank, &value)?;
    Ok(())
}

/// Syncs the disk, mounts the cell on it, and reads its value.
fn remounted<B: Bank>(bank: &mut B) -> Result<[u8; 2], CellFault>
    requires room { (B.view bank.old).sizes 0 ≡ Some 8 }
{
    let mut value = [0; 2];
    bank.sync(0)?;
    Cell::mount(bank, 0, 0, &mut value)?;
    Ok(value)
}

/// Lets every call fail after that many more.
fn stop_after(bank: &mut MemoryBank, _cell: &Cell, calls: u64)
    requires room { (view_of bank.old).sizes 0 ≡ Some 8 }
    requires stands { Always (view_of bank.old) (Stands _cell.now) }
    ensures room { (view_of bank.new).sizes 0 ≡ Some 8 }
    ensures stands { Always (view_of bank.new) (Stands _cell.now) }
{
    bank.fuse(calls);
}

fn crash(bank: &mut MemoryBank, seed: u64)
    requires { (view_of bank.old).sizes 0 ≡ Some 8 }
    ensures { (view_of bank.new).sizes 0 ≡ Some 8 }
{
    bank.crash(seed);
}

/// A cell with a first value and two puts, the second of them stopped after that many of its calls.
/// Answers whether that put failed, and the bytes of the disk and the value of the cell after a
/// crash.
fn stopped(alloc: Global, calls: u64, seed: u64) -> Result<(bool, [u8; 8], [u8; 2]), Fail> {
    let mut bank = MemoryBank::new(alloc)?;
    let mut cell = begun(&mut bank, FIRST)?;
    put(&mut cell, &mut bank, SECOND)?;
    stop_after(&mut bank, &cell, calls);
    let has_failed = put(&mut cell, &mut bank, THIRD).is_err();
    crash(&mut bank, seed);
    let mut bytes = [0; 8];
    bank.read(0, 0, &mut bytes)?;
    let value = remounted(&mut bank)?;
    Ok((has_failed, bytes, value))
}

fn bytes(bank: &MemoryBank) -> &[u8] {
    bank.disk(0).unwrap_or(&[])
}

#[test]
fn puts_take_turns_in_two_slots(rt: HostRuntime) -> Result<(), Fail> {
    let mut bank = MemoryBank::new(rt.alloc())?;
    let mut cell = begun(&mut bank, FIRST)?;
    assert_eq!(rt; bytes(&bank), [0xa5, 0, 0xaa, 0xaa, 0, 0, 0, 0].as_slice());
    put(&mut cell, &mut bank, SECOND)?;
    assert_eq!(rt;
        bytes(&bank),
        [0xa5, 0, 0xaa, 0xaa, 0xa5, 1, 0xbb, 0xbb].as_slice()
    );
    put(&mut cell, &mut bank, THIRD)?;
    assert_eq!(rt;
        bytes(&bank),
        [0xa5, 2, 0xcc, 0xcc, 0xa5, 1, 0xbb, 0xbb].as_slice()
    );
    assert_eq!(rt; remounted(&mut bank)?, THIRD);
    Ok(())
}

#[test]
fn a_stopped_put_leaves_the_old_value_until_its_gate_is_written(
    rt: HostRuntime,
) -> Result<(), Fail> {
    for (calls, may_be_old, may_be_new) in [
        (0, true, false),
        (1, true, false),
        (2, true, false),
        (3, true, false),
        (4, true, false),
        (5, true, true),
        (6, true, true),
        (7, false, true),
    ] {
        for seed in 0..3 {
            let (has_failed, _, value) = stopped(rt.alloc(), calls, seed)?;
            assert_eq!(rt; has_failed, calls < 7, "after {calls} calls");
            let is_right = may_be_old && value == SECOND || may_be_new && value == THIRD;
            assert!(rt; is_right, "after {calls} calls, seed {seed}");
        }
    }
    Ok(())
}

#[test]
fn a_gate_that_reads_as_open_brings_back_no_older_value(rt: HostRuntime) -> Result<(), Fail> {
    let (has_failed, bytes, value) = stopped(rt.alloc(), 0, 1)?;
    assert!(rt; has_failed);
    assert_eq!(rt; bytes, [0xa5, 0, 0xaa, 0xaa, 0xa5, 1, 0xbb, 0xbb]);
    assert_eq!(rt; value, SECOND);
    Ok(())
}

#[test]
fn zeros_are_no_value(rt: HostRuntime) -> Result<(), Fail> {
    let mut bank = MemoryBank::new(rt.alloc())?;
    bank.make(0, 8)?;
    assert!(rt; matches!(remounted(&mut bank), Err(CellFault::NoValue)));
    Ok(())
}
