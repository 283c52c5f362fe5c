ghost use Rattle.std.specs.Prelude.{◌≡◌, ◌+◌, ◌-◌, ◌≤◌, IsTrue};
ghost use Rattle.trap_bank.specs.Calls.{Fits};
ghost use Rattle.trap_scan.specs.Window.{IsLoaded};

use crate::{CheckFault, Expected, Scan, ScanFault};
use std::alloc::{AllocError as OutOfMemory, Global};
use trap_bank::{Bank, MemoryBank};
use trap_ring::Ring;

// Three records over blocks of 16 bytes, of 35, 39 and 35 bytes: numbers 1, 2 and 3 at the times
// 100, 100 and 101, of the blocks 0, 0 and 2, the second one with a snapshot.
const RECORDS: [u8; 109] = [
    1, 0, 0, 0, 0, 0, 0, 0, 0, 1, 0, 0, 0, 0, 0, 0, 0, 0x64, 0, 0, 0, 0, 0, 9, 0, 0, 0, 0, 0, 1, 1,
    0, 0x0f, 0, 0, 1, 1, 0, 0, 0, 0, 0, 0, 0, 2, 0, 0, 0, 0, 0, 0, 0, 0x64, 0, 0, 0, 0, 0, 4, 0, 9,
    0, 0x10, 0, 0, 0, 0, 0, 1, 1, 0, 0x0f, 0, 0, 1, 0, 0, 0, 0, 0, 0, 0, 0, 3, 0, 0, 0, 0, 0, 0, 0,
    0x65, 0, 0, 0, 2, 0, 9, 0, 0, 0, 0, 0, 1, 7, 0, 0x0f, 0, 0,
];

// The records' numbers: they stand from the offset 100 on, in a ring of 144 bytes, so the second
// one goes round its end.
const EXPECTED: Expected = Expected {
    size: 16,
    volume: 4,
    first: 0,
    base_time: 100,
    first_off: 100,
    last: 3,
    last_time: 101,
    end_off: 209,
};

// Writes the records into the ring, which has the 144 bytes from 8 on of disk 0.
fn write<B: Bank>(bank: &mut B, records: &[u8; 109]) -> bool {
    let ring = Ring::new(0, 8, 144);
    if bank.make(0, 160).is_err() {
        return false;
    }
    match bank.size(0) {
        Some(size) => size >= 152 && ring.append(bank, 100, 100, records).is_ok(),
        None => false,
    }
}

// Takes all records that are to follow.
fn take_all<B: Bank>(scan: &mut Scan, bank: &mut B, ring: &Ring) -> Result<(), ScanFault>
    requires room { scan.old.window.end ≤ scan.old.window.at + ring.now.len }
    requires there { Fits (B.view bank.old) ring.now.disk (ring.now.at + ring.now.len) }
    requires loaded { IsTrue (B.view bank.old).tells
        → IsLoaded ring.now scan.old.window (B.view bank.old).now.disks }
{
    'records: while scan.is_more() {
        scan.next(bank, ring)?;
    }
    Ok(())
}

// Checks them through a buffer of at most that many bytes.
fn check_through<B: Bank>(
    alloc: Global,
    bank: &mut B,
    expected: &Expected,
    most: usize,
) -> Result<(), CheckFault>
    requires size { expected.now.size ≡ 16 }
    requires order { expected.now.first ≤ expected.now.last }
    requires offsets { expected.now.first_off ≤ expected.now.end_off }
    requires room { expected.now.end_off - expected.now.first_off ≤ 144 }
    requires most { 72 ≤ most }
{
    let ring = Ring::new(0, 8, 144);
    let Some(size) = bank.size(0) else {
        return Err(CheckFault::DiskFault);
    };
    if size < 152 {
        return Err(CheckFault::DiskFault);
    }
    let mut scan = Scan::with_buffer(alloc, expected, most)?;
    take_all(&mut scan, bank, &ring)?;
    Ok(())
}

// Checks them as a mount does.
fn check<B: Bank>(alloc: Global, bank: &mut B, expected: &Expected) -> Result<(), CheckFault>
    requires size { expected.now.size ≡ 16 }
    requires order { expected.now.first ≤ expected.now.last }
    requires offsets { expected.now.first_off ≤ expected.now.end_off }
    requires room { expected.now.end_off - expected.now.first_off ≤ 144 }
{
    let ring = Ring::new(0, 8, 144);
    match bank.size(0) {
        Some(size) if size >= 152 => {
            let mut scan = Scan::new(alloc, expected)?;
            take_all(&mut scan, bank, &ring)?;
            Ok(())
        }
        _ => Err(CheckFault::DiskFault),
    }
}

#[test]
fn records_that_go_round_the_ring_are_right_through_any_buffer(
    rt: HostRuntime,
) -> Result<(), OutOfMemory> {
    let mut bank = MemoryBank::new(rt.alloc())?;
    assert!(rt; write(&mut bank, &RECORDS));
    assert_eq!(rt; check(rt.alloc(), &mut bank, &EXPECTED), Ok(()));
    for most in 72..120 {
        assert_eq!(rt;
            check_through(rt.alloc(), &mut bank, &EXPECTED, most),
            Ok(()),
            "through {most} bytes"
        );
    }
    Ok(())
}

#[test]
fn each_wrong_number_is_damage_at_its_record(rt: HostRuntime) -> Result<(), OutOfMemory> {
    let mut bank = MemoryBank::new(rt.alloc())?;
    assert!(rt; write(&mut bank, &RECORDS));
    let later = Expected {
        base_time: 101,
        ..EXPECTED
    };
    assert_eq!(rt;
        check(rt.alloc(), &mut bank, &later),
        Err(CheckFault::Damaged { at: 100 })
    );
    let ended = Expected {
        last_time: 102,
        ..EXPECTED
    };
    assert_eq!(rt;
        check(rt.alloc(), &mut bank, &ended),
        Err(CheckFault::Damaged { at: 174 })
    );
    let small = Expected {
        volume: 2,
        ..EXPECTED
    };
    assert_eq!(rt;
        check(rt.alloc(), &mut bank, &small),
        Err(CheckFault::Damaged { at: 174 })
    );
    let short = Expected {
        end_off: 208,
        ..EXPECTED
    };
    assert_eq!(rt;
        check(rt.alloc(), &mut bank, &short),
        Err(CheckFault::Damaged { at: 174 })
    );
    let long = Expected {
        end_off: 210,
        ..EXPECTED
    };
    assert_eq!(rt;
        check(rt.alloc(), &mut bank, &long),
        Err(CheckFault::Damaged { at: 174 })
    );
    let more = Expected {
        last: 4,
        ..EXPECTED
    };
    assert_eq!(rt;
        check(rt.alloc(), &mut bank, &more),
        Err(CheckFault::Damaged { at: 209 })
    );
    Ok(())
}

#[test]
fn a_changed_byte_is_damage_at_its_record(rt: HostRuntime) -> Result<(), OutOfMemory> {
    let cases = [
        (9usize, 100u64),
        (34, 100),
        (44, 135),
        (70, 135),
        (83, 174),
        (108, 174),
    ];
    for (byte, at) in cases {
        let mut records = RECORDS;
        if byte < 109 {
            records[byte] = 0xee;
        }
        let mut bank = MemoryBank::new(rt.alloc())?;
        assert!(rt; write(&mut bank, &records));
        let answer = check_through(rt.alloc(), &mut bank, &EXPECTED, 80);
        assert_eq!(rt; answer, Err(CheckFault::Damaged { at }), "byte {byte}");
    }
    Ok(())
}

#[test]
fn of_no_records_nothing_is_read(rt: HostRuntime) -> Result<(), OutOfMemory> {
    let mut bank = MemoryBank::new(rt.alloc())?;
    assert!(rt; write(&mut bank, &RECORDS));
    let none = Expected {
        last: 0,
        end_off: 100,
        ..EXPECTED
    };
    bank.fuse(0);
    assert_eq!(rt; check(rt.alloc(), &mut bank, &none), Ok(()));
    assert_eq!(rt;
        check(rt.alloc(), &mut bank, &EXPECTED),
        Err(CheckFault::DiskFault)
    );
    Ok(())
}
