//! Making a small array on disks in memory, byte by byte and stopped at each of its calls.

ghost use Rattle.std.specs.Prelude.{◌≡◌, ◌<◌};

use crate::{CreateFault, create};
use std::test::Fail;
use trap_bank::MemoryBank;
use trap_format::layout::{OPEN_GATE, SLOTS_AT};
use trap_model::Geometry;

/// Three members of four rows.
fn eight_blocks() -> Geometry
    ensures { result.slots ≡ 1 }
{
    Geometry {
        id: 7,
        members: 3,
        chunk: 1,
        block: 16,
        rows: 4,
        slots: 1,
        gap: 2,
        entries: 8,
        ring: 2048,
    }
}

const LOG_HEADER: [u8; 64] = [
    0xa5, 0x54, 0x52, 0x50, 0x4c, 0, 0, 0, 0, 0, 0, 0, 7, 3, 1, 0, 0x10, 0, 0, 0, 4, 1, 2, 0, 0, 0,
    8, 0, 0, 0, 0, 0, 0, 8, 0, 0, 0, 0, 0, 0, 0, 0, 0, 0, 0, 0, 0, 0, 0, 0, 0, 0, 0, 0, 0, 0, 0, 0,
    0, 0, 0, 0, 0, 0,
];

/// An open gate, the turn, the version.
const HEAD: [u8; 3] = [0xa5, 0, 1];

fn are_zero(bytes: &[u8]) -> bool {
    bytes.iter().all(|byte| *byte == 0)
}

fn disk(bank: &MemoryBank, d: u8) -> &[u8]
    requires { d < 17 }
{
    bank.disk(d).unwrap_or(&[])
}

/// Whether disk 0 is long enough for a log, and begins as one.
fn begins_log(bank: &MemoryBank) -> bool {
    let log = disk(bank, 0);
    log.len() as u64 >= SLOTS_AT && log.starts_with(&[OPEN_GATE, 0x54, 0x52, 0x50, 0x4c])
}

fn is_member(bank: &MemoryBank, member: u8) -> bool
    requires { member < 16 }
{
    let bytes = disk(bank, member + 1);
    let header = [
        0x54, 0x52, 0x50, 0x4d, 0, 0, 0, 0, 0, 0, 0, 7, member, 0, 0, 0,
    ];
    bytes.len() == 80 && bytes.starts_with(&header) && are_zero(&bytes[16..])
}

/// Whether disk 0 is the log of an array with nothing written.
fn is_log(bank: &MemoryBank) -> bool {
    let log = disk(bank, 0);
    log.len() == 2284
        && log.starts_with(&LOG_HEADER)
        && log[64..].starts_with(&HEAD)
        && are_zero(&log[67..])
}

fn is_whole(bank: &MemoryBank) -> bool {
    is_log(bank) && is_member(bank, 0) && is_member(bank, 1) && is_member(bank, 2)
}

#[test]
fn a_new_array_byte_by_byte(rt: HostRuntime) -> Result<(), Fail> {
    let g = eight_blocks();
    let mut bank = MemoryBank::new(rt.alloc())?;
    assert_eq!(rt; create(&mut bank, &g), Ok(()));
    assert!(rt; is_log(&bank));
    for member in 0..3 {
        assert!(rt; is_member(&bank, member), "{member}");
    }
    assert!(rt; bank.disk(4).is_none());
    assert_eq!(rt; create(&mut bank, &g), Err(CreateFault::Exists { disk: 0 }));
    bank.remove(0);
    bank.remove(1);
    assert_eq!(rt; create(&mut bank, &g), Err(CreateFault::Exists { disk: 2 }));
    assert!(rt; bank.disk(0).is_none());
    Ok(())
}

/// An array whose making stops after a number of calls of the bank, and a crash. Whether it was
/// made, whether disk 0 begins as a log then, and whether the array is whole.
fn after_a_stop(bank: &mut MemoryBank, calls: u64, seed: u64) -> (bool, bool, bool) {
    let g = eight_blocks();
    bank.fuse(calls);
    let is_done = create(bank, &g).is_ok();
    bank.crash(seed);
    (is_done, begins_log(bank), is_whole(bank))
}

#[test]
fn a_stop_at_any_call_leaves_no_log_or_the_array(rt: HostRuntime) -> Result<(), Fail> {
    for seed in 0..3 {
        for calls in 0..20 {
            let mut bank = MemoryBank::new(rt.alloc())?;
            let (is_done, begins, is_whole) = after_a_stop(&mut bank, calls, seed);
            assert_eq!(rt; is_done, calls > 17, "at {calls}");
            assert!(rt; begins || !is_done, "at {calls} with {seed}");
            assert!(rt; is_whole || !begins, "at {calls} with {seed}");
        }
    }
    Ok(())
}

#[test]
fn the_gate_decides(rt: HostRuntime) -> Result<(), Fail> {
    let mut bank = MemoryBank::new(rt.alloc())?;
    assert_eq!(rt; after_a_stop(&mut bank, 17, 0), (false, true, true));
    let mut bank = MemoryBank::new(rt.alloc())?;
    assert_eq!(rt; after_a_stop(&mut bank, 17, 1), (false, false, false));
    Ok(())
}
