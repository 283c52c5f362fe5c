//! A small replica on a disk in memory, byte by byte and stopped at each call.

ghost use Rattle.std.specs.Prelude.{◌≡◌, ◌≤◌, ◌^◌};
ghost use Rattle.trap_replica.specs.Mounted.{IsUsable};

use crate::{Frame, Replica, ReplicaFault, Taken, create, load};
use std::alloc::Global;
use std::test::Fail;
use trap_bank::{Bank, MemoryBank, MemorySource};
use trap_format::Shape;
use trap_port::Outgoing;

/// Eight blocks of 16 bytes, of array 7.
fn eight_blocks() -> Shape {
    Shape {
        id: 7,
        block: 16,
        volume: 8,
    }
}

/// The header, and the gate and the turn of the cell's first slot.
const FRONT: [u8; 34] = [
    0xa5, 0x54, 0x52, 0x50, 0x52, 1, 0, 0, 0, 0, 0, 0, 0, 7, 0, 16, 0, 0, 0, 8, 0, 0, 0, 0, 0, 0,
    0, 0, 0, 0, 0, 0, 0xa5, 0,
];

fn disk(bank: &MemoryBank) -> &[u8] {
    bank.disk(17).unwrap_or(&[])
}

/// Whether the disk begins as a replica.
fn begins(bank: &MemoryBank) -> bool {
    let bytes = disk(bank);
    bytes.len() >= 32 && bytes.starts_with(&FRONT[..5])
}

/// Whether the disk is a replica with nothing applied.
fn is_new(bank: &MemoryBank) -> bool {
    let bytes = disk(bank);
    bytes.len() == 236 && bytes.starts_with(&FRONT) && bytes[34..].iter().all(|byte| *byte == 0)
}

#[test]
fn a_new_replica_byte_by_byte(rt: HostRuntime) -> Result<(), Fail> {
    let s = eight_blocks();
    let mut bank = MemoryBank::new(rt.alloc())?;
    assert_eq!(rt; create(&mut bank, &s), Ok(()));
    assert!(rt; is_new(&bank));
    assert_eq!(rt;
        create(&mut bank, &s),
        Err(ReplicaFault::Exists { disk: 17 })
    );
    assert!(rt; is_new(&bank));
    Ok(())
}

#[test]
fn a_stop_at_any_call_leaves_no_replica_or_a_whole_one(rt: HostRuntime) -> Result<(), Fail> {
    let s = eight_blocks();
    for seed in 0..3 {
        for calls in 0..11 {
            let mut bank = MemoryBank::new(rt.alloc())?;
            bank.fuse(calls);
            let is_done = create(&mut bank, &s).is_ok();
            assert_eq!(rt; is_done, calls > 8, "at {calls}");
            bank.crash(seed);
            assert!(rt; begins(&bank) || !is_done, "at {calls} with {seed}");
            assert!(rt; is_new(&bank) || !begins(&bank), "at {calls} with {seed}");
        }
    }
    Ok(())
}

/// Takes a frame of which each byte of the parity is the one given.
fn take<B: Bank>(
    alloc: Global,
    replica: &mut Replica,
    bank: &mut B,
    frame: &Frame,
    byte: u8,
) -> Result<Taken, ReplicaFault>
    requires usable { IsUsable replica.old (B.view bank.old) }
    requires last { frame.now.seq ≤ 2 ^ 40 }
    ensures usable { IsUsable replica.new (B.view bank.new) }
{
    let size = replica.shape().block as usize;
    let parity = vec![in alloc; byte; size]?;
    replica.take(bank, frame, parity.as_slice())
}

/// A frame whose number is its time too.
fn frame_of(id: u64, seq: u16, block: u32) -> Frame
    ensures { result.seq ≤ 2 ^ 16 }
{
    Frame {
        id,
        seq: u64::from(seq),
        time: u64::from(seq),
        block,
        length: 23,
    }
}

#[test]
fn frames_wait_for_those_before_them(rt: HostRuntime) -> Result<(), Fail> {
    let alloc = rt.alloc();
    let mut bank = MemoryBank::new(alloc)?;
    assert_eq!(rt; create(&mut bank, &eight_blocks()), Ok(()));
    let mut replica = Replica::mount(alloc, &mut bank)?;
    let rows = [
        (1, Taken::Applied { upto: 1 }),
        (3, Taken::Held),
        (2, Taken::Applied { upto: 3 }),
        (2, Taken::Repeat),
        (5, Taken::Held),
        (5, Taken::Repeat),
        (68, Taken::Beyond),
        (67, Taken::Held),
        (4, Taken::Applied { upto: 5 }),
        (69, Taken::Held),
        (70, Taken::Beyond),
    ];
    for (seq, answer) in rows {
        let frame = frame_of(7, seq, 3);
        let given = take(alloc, &mut replica, &mut bank, &frame, 0x5a);
        assert_eq!(rt; given, Ok(answer), "at {seq}");
    }
    assert_eq!(rt; replica.applied(), 5);
    assert_eq!(rt; replica.held(), 2);
    Ok(())
}

#[test]
fn refusals_come_in_their_order(rt: HostRuntime) -> Result<(), Fail> {
    let alloc = rt.alloc();
    let mut bank = MemoryBank::new(alloc)?;
    assert_eq!(rt;
        Replica::mount(alloc, &mut bank).err(),
        Some(ReplicaFault::NotAReplica)
    );
    assert_eq!(rt; create(&mut bank, &eight_blocks()), Ok(()));
    bank.fail_on(17, 5);
    let mut replica = Replica::mount(alloc, &mut bank)?;
    let rows = [
        (8, 8, ReplicaFault::Stranger { id: 8 }),
        (7, 8, ReplicaFault::NoBlock { block: 8 }),
        (7, 7, ReplicaFault::DiskFault),
        (7, 7, ReplicaFault::Stopped),
        (7, 8, ReplicaFault::NoBlock { block: 8 }),
        (8, 8, ReplicaFault::Stranger { id: 8 }),
    ];
    for (id, block, why) in rows {
        let frame = frame_of(id, 1, block);
        let given = take(alloc, &mut replica, &mut bank, &frame, 1);
        assert_eq!(rt; given, Err(why));
    }
    Ok(())
}

/// The bytes of an image of eight blocks, and one more.
fn counted_bytes() -> [u8; 129] {
    let mut bytes = [0; 129];
    for (i, byte) in bytes.iter_mut().enumerate() {
        *byte = i as u8;
    }
    bytes
}

/// The bytes of that image alone.
fn image_bytes() -> [u8; 128] {
    let mut bytes = [0; 128];
    for (i, byte) in bytes.iter_mut().enumerate() {
        *byte = i as u8;
    }
    bytes
}

#[test]
fn an_image_is_loaded_in_any_pieces_and_said_again(rt: HostRuntime) -> Result<(), Fail> {
    let alloc = rt.alloc();
    let bytes = image_bytes();
    let image = bytes.as_slice();
    for (piece, room) in [(1, 0), (7, 40), (4096, 32768)] {
        let mut bank = MemoryBank::new(alloc)?;
        let mut source = MemorySource::new(alloc, image)?;
        source.pieces(piece);
        let loaded = load(alloc, &mut bank, &eight_blocks(), 2, 100, &mut source);
        assert_eq!(rt; loaded, Ok(()), "in pieces of {piece}");
        assert!(rt; disk(&bank).ends_with(image), "in pieces of {piece}");
        let mut replica = Replica::mount(alloc, &mut bank)?;
        assert_eq!(rt; replica.applied(), 2);
        let size = replica.shape().block as usize;
        let mut outgoing = Outgoing::new(alloc, size.max(room))?;
        let mut block = vec![in alloc; 0u8; size]?;
        let said = replica.export(&mut bank, &mut outgoing, block.as_mut_slice());
        assert_eq!(rt; said, Ok(()));
        assert_eq!(rt; bank.said(), image);
    }
    Ok(())
}

#[test]
fn another_length_is_refused_with_the_gate_off(rt: HostRuntime) -> Result<(), Fail> {
    let alloc = rt.alloc();
    let bytes = counted_bytes();
    let rows = [
        (0, ReplicaFault::ShortImage { at: 0 }),
        (127, ReplicaFault::ShortImage { at: 127 }),
        (129, ReplicaFault::LongImage { at: 128 }),
    ];
    for (len, why) in rows {
        let mut bank = MemoryBank::new(alloc)?;
        let mut source = MemorySource::new(alloc, &bytes[..len])?;
        let loaded = load(alloc, &mut bank, &eight_blocks(), 2, 100, &mut source);
        assert_eq!(rt; loaded, Err(why), "of {len} bytes");
        assert!(rt; !begins(&bank), "of {len} bytes");
    }
    Ok(())
}

#[test]
fn a_stop_while_an_image_is_loaded_leaves_it_whole_or_no_replica(
    rt: HostRuntime,
) -> Result<(), Fail> {
    let alloc = rt.alloc();
    let bytes = image_bytes();
    let image = bytes.as_slice();
    for calls in 0..20 {
        let mut bank = MemoryBank::new(alloc)?;
        let mut source = MemorySource::new(alloc, image)?;
        bank.fuse(calls);
        let is_done = load(alloc, &mut bank, &eight_blocks(), 2, 100, &mut source).is_ok();
        assert_eq!(rt; is_done, calls > 17, "at {calls}");
        bank.crash(calls);
        assert!(rt; begins(&bank) || !is_done, "at {calls}");
        let is_whole = disk(&bank).ends_with(image);
        assert!(rt; is_whole || !begins(&bank), "at {calls}");
    }
    Ok(())
}
