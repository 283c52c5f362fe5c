ghost use Rattle.std.specs.Prelude.{◌≤◌};

use crate::{Bank, ListTurns, MemoryBank, MemorySource, Source, Steady, Turn, Turns};
use std::alloc::{AllocError, Global};
use std::test::Fail;

/// Writes where the disk has room, and says whether it did.
fn write(bank: &mut MemoryBank, d: u8, at: u64, bytes: &[u8]) -> bool
    requires { d ≤ 20 }
{
    let Some(size) = bank.size(d) else {
        return false;
    };
    if at <= size && bytes.len() as u64 <= size - at {
        bank.write(d, at, bytes).is_ok()
    } else {
        false
    }
}

/// Reads where the disk is long enough, and says whether it did.
fn read(bank: &mut MemoryBank, d: u8, at: u64, buf: &mut [u8]) -> bool
    requires { d ≤ 20 }
{
    let Some(size) = bank.size(d) else {
        return false;
    };
    if at <= size && buf.len() as u64 <= size - at {
        bank.read(d, at, buf).is_ok()
    } else {
        false
    }
}

/// Syncs where the disk is there, and says whether it did.
fn sync(bank: &mut MemoryBank, d: u8) -> bool
    requires { d ≤ 20 }
{
    if bank.size(d).is_none() {
        return false;
    }
    bank.sync(d).is_ok()
}

/// A bank whose disk 0 has `1111 0000`, all stable, after three calls.
fn bank_of_eight(alloc: Global) -> Result<MemoryBank, AllocError> {
    let mut bank = MemoryBank::new(alloc)?;
    let _ = bank.make(0, 8);
    let _ = write(&mut bank, 0, 0, &[1; 4]);
    let _ = sync(&mut bank, 0);
    Ok(bank)
}

#[test]
fn each_call_of_the_bank_does_its_work(rt: HostRuntime) -> Result<(), Fail> {
    let mut bank = MemoryBank::new(rt.alloc())?;
    assert_eq!(rt; bank.size(20), None);
    assert!(rt; bank.make(20, 4).is_ok());
    assert_eq!(rt; bank.size(20), Some(4));
    assert!(rt; write(&mut bank, 20, 1, &[5, 6]));
    let mut buf = [7; 3];
    assert!(rt; read(&mut bank, 20, 0, &mut buf));
    assert_eq!(rt; buf, [0, 5, 6]);
    assert!(rt; sync(&mut bank, 20));
    assert!(rt; bank.say(b"ok ").is_ok());
    assert!(rt; bank.say(b"1").is_ok());
    assert_eq!(rt; bank.said(), b"ok 1".as_slice());
    assert_eq!(rt; bank.starved(), 0);
    bank.remove(20);
    assert_eq!(rt; bank.size(20), None);
    assert!(rt; bank.disk(20).is_none());
    Ok(())
}

#[test]
fn a_crash_leaves_what_its_seed_says(rt: HostRuntime) -> Result<(), Fail> {
    // After seed 2 the generator's numbers are 59559187, 1495354192, 671064393 and 846338638.
    let outcomes = [
        (0, [1, 1, 9, 9, 9, 9, 0, 0]),
        (1, [1, 1, 1, 1, 0, 0, 0, 0]),
        (2, [1, 1, 0x8c, 0x21, 0xff, 0x72, 0, 0]),
    ];
    for (seed, want) in outcomes {
        let mut bank = bank_of_eight(rt.alloc())?;
        assert!(rt; write(&mut bank, 0, 2, &[9; 4]));
        assert!(rt; bank.say(b"ok").is_ok());
        bank.fail_at(6);
        bank.fuse(0);
        bank.crash(seed);
        assert!(rt; holds(&bank, &want), "seed {seed}");
        assert_eq!(rt; bank.said(), b"ok".as_slice());
        // Nothing is unsynced, and no call is to fail.
        bank.crash(1);
        assert!(rt; holds(&bank, &want), "seed {seed} and then 1");
        assert!(rt; write(&mut bank, 0, 7, &[3]));
    }
    Ok(())
}

/// The bytes of disk 0 are these.
fn holds(bank: &MemoryBank, want: &[u8]) -> bool {
    match bank.disk(0) {
        Some(bytes) => bytes == want,
        None => false,
    }
}

/// One call of each kind, by a number.
fn call(bank: &mut MemoryBank, kind: u8) -> bool {
    match kind {
        0 => bank.make(1, 4).is_ok(),
        1 => read(bank, 0, 0, &mut [0; 8]),
        2 => write(bank, 0, 0, &[2; 4]),
        3 => sync(bank, 0),
        _ => bank.say(b"ok").is_ok(),
    }
}

#[test]
fn each_kind_of_call_fails_by_its_number_and_by_the_fuse(rt: HostRuntime) -> Result<(), Fail> {
    for kind in 0..5 {
        let mut bank = bank_of_eight(rt.alloc())?;
        bank.fail_at(5);
        assert!(rt; call(&mut bank, kind), "call 4 of kind {kind}");
        assert!(rt; !call(&mut bank, kind), "call 5 of kind {kind}");
        assert!(rt; call(&mut bank, kind), "call 6 of kind {kind}");
        bank.fuse(0);
        bank.fuse(1);
        assert!(rt; call(&mut bank, kind), "before the fuse, kind {kind}");
        assert!(rt; !call(&mut bank, kind), "behind the fuse, kind {kind}");
        assert!(rt; !call(&mut bank, kind), "long behind the fuse, kind {kind}");
        assert_eq!(rt; bank.starved(), 0);
    }
    Ok(())
}

#[test]
fn calls_on_one_disk_fail_after_so_many_more(rt: HostRuntime) -> Result<(), Fail> {
    let mut bank = bank_of_eight(rt.alloc())?;
    bank.fail_on(0, 0);
    bank.fail_on(0, 2);
    assert!(rt; write(&mut bank, 0, 0, &[2; 4]));
    assert!(rt; bank.make(1, 4).is_ok());
    assert!(rt; sync(&mut bank, 0));
    assert!(rt; !write(&mut bank, 0, 0, &[3; 4]));
    assert!(rt; !sync(&mut bank, 0));
    assert!(rt; bank.say(b"ok").is_ok());
    bank.crash(1);
    assert!(rt; holds(&bank, &[2, 2, 2, 2, 0, 0, 0, 0]));
    assert!(rt; sync(&mut bank, 0));
    Ok(())
}

#[test]
fn a_call_that_is_made_to_fail_leaves_its_traces(rt: HostRuntime) -> Result<(), Fail> {
    let mut bank = bank_of_eight(rt.alloc())?;
    bank.fuse(0);
    // A write lays its bytes down, and a sync leaves them unsynced.
    assert!(rt; !write(&mut bank, 0, 2, &[9; 4]));
    assert!(rt; holds(&bank, &[1, 1, 9, 9, 9, 9, 0, 0]));
    assert!(rt; !sync(&mut bank, 0));
    assert!(rt; bank.make(0, 2).is_err());
    assert!(rt; bank.say(b"ok").is_err());
    assert_eq!(rt; bank.said(), b"".as_slice());
    bank.crash(1);
    assert!(rt; holds(&bank, &[1, 1, 1, 1, 0, 0, 0, 0]));
    // No call wanted memory.
    assert_eq!(rt; bank.starved(), 0);
    Ok(())
}

#[test]
fn the_last_eight_numbers_are_kept(rt: HostRuntime) -> Result<(), Fail> {
    let mut bank = MemoryBank::new(rt.alloc())?;
    for number in 1..10 {
        bank.fail_at(number);
    }
    assert!(rt; bank.say(b"1").is_ok());
    for number in 2..10 {
        assert!(rt; bank.say(b"2").is_err(), "call {number}");
    }
    assert!(rt; bank.say(b"3").is_ok());
    assert_eq!(rt; bank.said(), b"13".as_slice());
    Ok(())
}

#[test]
fn a_source_gives_its_bytes_in_pieces_and_fails_as_chosen(rt: HostRuntime) -> Result<(), Fail> {
    let mut source = MemorySource::new(rt.alloc(), b"abcd")?;
    let mut buf = [0; 2];
    source.pieces(0);
    source.fail_at(2);
    assert_eq!(rt; source.take(&mut buf), Ok(1));
    assert_eq!(rt; buf, *b"a\0");
    assert!(rt; source.take(&mut buf).is_err());
    source.pieces(1);
    assert_eq!(rt; source.take(&mut buf), Ok(1));
    assert_eq!(rt; buf, *b"b\0");
    source.pieces(3);
    assert_eq!(rt; source.take(&mut buf), Ok(2));
    assert_eq!(rt; buf, *b"cd");
    assert_eq!(rt; source.take(&mut buf), Ok(0));
    Ok(())
}

#[test]
fn turns_come_in_their_order(rt: HostRuntime) -> Result<(), Fail> {
    let mut list = ListTurns::new(rt.alloc(), &[Turn::Drain, Turn::Rebuild])?;
    assert_eq!(rt; list.turn(), Turn::Drain);
    assert_eq!(rt; list.turn(), Turn::Rebuild);
    assert_eq!(rt; list.turn(), Turn::Rest);
    let mut steady = Steady::new();
    assert_eq!(rt; steady.turn(), Turn::Rest);
    assert_eq!(rt; steady.turn(), Turn::Drain);
    assert_eq!(rt; steady.turn(), Turn::Rest);
    assert_eq!(rt; steady.turn(), Turn::Rebuild);
    assert_eq!(rt; steady.turn(), Turn::Rest);
    Ok(())
}
