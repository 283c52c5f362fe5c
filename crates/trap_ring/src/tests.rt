use crate::Ring;
use std::alloc::AllocError as OutOfMemory;
use trap_bank::{Bank, Failed, MemoryBank, write_through};

// What the disk holds at first. Its ring has the eight bytes from 4 on.
const BYTES: [u8; 16] = [
    0xe0, 0xe1, 0xe2, 0xe3, 0xe4, 0xe5, 0xe6, 0xe7, 0xe8, 0xe9, 0xea, 0xeb, 0xec, 0xed, 0xee, 0xef,
];

// Bytes that go round the ring's end, after a window that leaves no more room.
const FRESH: [u8; 4] = [0xa0, 0xa1, 0xa2, 0xa3];

// A bank whose disk 0 holds the bytes, synced.
fn prepared<B: Bank>(bank: &mut B) -> Result<(), Failed> {
    bank.make(0, 16)?;
    write_through(bank, 0, 0, &BYTES)?;
    Ok(())
}

// Appends four bytes at 14 after a window from 10 on.
fn append<B: Bank>(bank: &mut B) -> bool {
    let ring = Ring::new(0, 4, 8);
    match bank.size(0) {
        Some(size) => size >= 12 && ring.append(bank, 10, 14, &FRESH).is_ok(),
        None => false,
    }
}

// Reads the eight bytes from 10 on.
fn read<B: Bank>(bank: &mut B, window: &mut [u8; 8]) -> bool {
    let ring = Ring::new(0, 4, 8);
    match bank.size(0) {
        Some(size) => size >= 12 && ring.read(bank, 10, window).is_ok(),
        None => false,
    }
}

// Disk 0's bytes.
fn held(bank: &MemoryBank) -> [u8; 16] {
    let mut bytes = [0; 16];
    if let Some(disk) = bank.disk(0) {
        if disk.len() == 16 {
            bytes.copy_from_slice(disk);
        }
    }
    bytes
}

#[test]
fn an_append_goes_round_the_end_and_reads_with_its_window(
    rt: HostRuntime,
) -> Result<(), OutOfMemory> {
    let mut bank = MemoryBank::new(rt.alloc())?;
    assert!(rt; prepared(&mut bank).is_ok());
    assert!(rt; append(&mut bank));
    let wanted = [
        0xe0, 0xe1, 0xe2, 0xe3, 0xa2, 0xa3, 0xe6, 0xe7, 0xe8, 0xe9, 0xa0, 0xa1, 0xec, 0xed, 0xee,
        0xef,
    ];
    assert_eq!(rt; held(&bank).as_slice(), wanted.as_slice());
    let mut window = [0; 8];
    assert!(rt; read(&mut bank, &mut window));
    assert_eq!(rt;
        window.as_slice(),
        [0xe6, 0xe7, 0xe8, 0xe9, 0xa0, 0xa1, 0xa2, 0xa3].as_slice()
    );
    Ok(())
}

#[test]
fn a_crash_in_an_append_leaves_the_window_and_the_rest_of_the_disk(
    rt: HostRuntime,
) -> Result<(), OutOfMemory> {
    for calls in 0..3 {
        for seed in 0..3 {
            let mut bank = MemoryBank::new(rt.alloc())?;
            assert!(rt; prepared(&mut bank).is_ok());
            bank.fuse(calls);
            assert_eq!(rt; append(&mut bank), calls == 2, "after {calls} writes");
            bank.crash(seed);
            let bytes = held(&bank);
            assert_eq!(rt;
                &bytes[..4],
                &BYTES[..4],
                "after {calls} writes, seed {seed}"
            );
            assert_eq!(rt;
                &bytes[6..10],
                &BYTES[6..10],
                "after {calls} writes, seed {seed}"
            );
            assert_eq!(rt;
                &bytes[12..],
                &BYTES[12..],
                "after {calls} writes, seed {seed}"
            );
            if seed == 1 {
                assert_eq!(rt; bytes.as_slice(), BYTES.as_slice(), "after {calls} writes");
            }
        }
    }
    Ok(())
}
