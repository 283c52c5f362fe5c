//! The commands over a bank and a source in memory.

use crate::{
    AskedReplica, ReplicaEnd, Start, apply_frames, create_replica, export_replica, load_replica,
};
use std::alloc::{AllocError, Global};
use std::test::Fail;
use trap_apply::ApplyFault;
use trap_bank::{MemoryBank, MemorySource};
use trap_format::Field;
use trap_frame::FrameFault;
use trap_replica::ReplicaFault;

/// Eight blocks of 16 bytes, of array 7.
const ASKED: AskedReplica = AskedReplica {
    id: 7,
    block: 16,
    volume: 8,
};

/// A frame of array 7 without its number, which leaves block 0 as it is.
const EMPTY: [u8; 38] =
    *b"TPF1\0\0\0\0\0\0\0\x07\0\0\0\0\0\0\0\0\0\0\0\0\0\0\0\x64\0\0\0\0\0\x04\0\x10\0\0";

/// Two frames of array 7, both of block 0: 43 bytes that set its first byte, and 38 that change
/// nothing.
const STREAM: [u8; 81] =
    *b"TPF1\0\0\0\0\0\0\0\x07\0\0\0\0\0\0\0\x01\0\0\0\0\0\0\0\x64\0\0\0\0\0\x09\0\0\0\x01\x01\0\x0f\0\0TPF1\0\0\0\0\0\0\0\x07\0\0\0\0\0\0\0\x02\0\0\0\0\0\0\0\x64\0\0\0\0\0\x04\0\x10\0\0";

/// A bank with the replica that is asked for.
fn new_replica(alloc: Global, id: u64) -> Result<MemoryBank, AllocError> {
    let mut bank = MemoryBank::new(alloc)?;
    let asked = AskedReplica { id, ..ASKED };
    let _ = create_replica(&mut bank, &asked);
    Ok(bank)
}

/// Applies a stream, and tells how that ends and what was said in all.
fn applied(alloc: Global, bank: &mut MemoryBank, stream: &[u8]) -> Result<ReplicaEnd, AllocError> {
    let mut source = MemorySource::new(alloc, stream)?;
    source.pieces(50);
    Ok(apply_frames(alloc, bank, &mut source))
}

#[test]
fn frames_are_applied_up_to_a_gap(rt: HostRuntime) -> Result<(), Fail> {
    let mut bank = MemoryBank::new(rt.alloc())?;
    assert_eq!(rt; create_replica(&mut bank, &ASKED), ReplicaEnd::Done);
    let there = ReplicaEnd::NotMade(ReplicaFault::Exists { disk: 17 });
    assert_eq!(rt; create_replica(&mut bank, &ASKED), there);
    let mut stream = Vec::new(rt.alloc());
    for seq in [1, 3, 2, 2, 5] {
        let mut frame = EMPTY;
        frame[19] = seq;
        stream.extend_from_slice(&frame)?;
    }
    let end = applied(rt.alloc(), &mut bank, stream.as_slice())?;
    assert_eq!(rt; end, ReplicaEnd::Done);
    let said = b"created 7\napplied 3 frames 5 held 1 repeats 1 beyond 0\n";
    assert!(rt; bank.said() == said.as_slice());
    Ok(())
}

#[test]
fn the_summary_comes_before_a_fault_of_the_stream(rt: HostRuntime) -> Result<(), Fail> {
    let mut other = STREAM;
    other[0] = 0x55;
    let one = "applied 1 frames 1 held 0 repeats 0 beyond 0\n";
    let none = "applied 0 frames 0 held 0 repeats 0 beyond 0\n";
    let cut = ApplyFault::Stream(FrameFault::Cut { at: 43 });
    let bad = ApplyFault::Stream(FrameFault::BadFrame { at: 0 });
    let stranger = ApplyFault::Replica(ReplicaFault::Stranger { id: 7 });
    let rows: [(u64, &[u8], ReplicaEnd, &str); 4] = [
        (7, &STREAM[..53], ReplicaEnd::NotApplied(cut), one),
        (7, &other, ReplicaEnd::NotApplied(bad), none),
        (8, &STREAM, ReplicaEnd::NotApplied(stranger), none),
        (7, &[], ReplicaEnd::Done, none),
    ];
    for (id, stream, end, said) in rows {
        let mut bank = new_replica(rt.alloc(), id)?;
        assert_eq!(rt; applied(rt.alloc(), &mut bank, stream)?, end, "{said}");
        assert!(rt; bank.said().ends_with(said.as_bytes()), "{said}");
    }
    Ok(())
}

#[test]
fn an_image_is_loaded_and_said_again(rt: HostRuntime) -> Result<(), Fail> {
    let start = Start { seq: 2, time: 100 };
    let bytes = [7; 129];
    let rows = [
        (
            127,
            ReplicaEnd::NotMade(ReplicaFault::ShortImage { at: 127 }),
        ),
        (
            129,
            ReplicaEnd::NotMade(ReplicaFault::LongImage { at: 128 }),
        ),
        (128, ReplicaEnd::Done),
    ];
    let mut bank = MemoryBank::new(rt.alloc())?;
    for (len, end) in rows {
        bank.remove(17);
        let mut source = MemorySource::new(rt.alloc(), &bytes[..len])?;
        let loaded = load_replica(rt.alloc(), &mut bank, &mut source, &ASKED, &start);
        assert_eq!(rt; loaded, end, "{len}");
    }
    assert_eq!(rt; export_replica(rt.alloc(), &mut bank), ReplicaEnd::Done);
    let said = bank.said();
    assert!(rt; said.starts_with(b"loaded 2\n"));
    assert!(rt; &said[9..] == &bytes[..128]);
    let far = Start {
        seq: (1 << 40) + 1,
        time: 0,
    };
    let mut source = MemorySource::new(rt.alloc(), &bytes)?;
    let refused = load_replica(rt.alloc(), &mut bank, &mut source, &ASKED, &far);
    assert_eq!(rt; refused, ReplicaEnd::BadGeometry(Field::Seq));
    Ok(())
}

#[test]
fn nothing_is_said_once_the_disk_fails(rt: HostRuntime) -> Result<(), Fail> {
    for calls in 0..20 {
        let mut bank = new_replica(rt.alloc(), 7)?;
        bank.fail_on(17, calls);
        let end = applied(rt.alloc(), &mut bank, &STREAM)?;
        let failed = matches!(
            end,
            ReplicaEnd::NoReplica(ReplicaFault::DiskFault)
                | ReplicaEnd::NotApplied(ApplyFault::Replica(ReplicaFault::DiskFault))
        );
        assert!(rt; failed, "at {calls}");
        assert!(rt; bank.said() == b"created 7\n".as_slice(), "at {calls}");
    }
    Ok(())
}

#[test]
fn a_failing_port_ends_the_command(rt: HostRuntime) -> Result<(), Fail> {
    let mut bank = MemoryBank::new(rt.alloc())?;
    bank.fail_at(10);
    assert_eq!(rt; create_replica(&mut bank, &ASKED), ReplicaEnd::Port);
    // Five calls mount the replica, and no frame is whole.
    bank.fail_at(16);
    let end = applied(rt.alloc(), &mut bank, &STREAM[..20])?;
    assert_eq!(rt; end, ReplicaEnd::Port);
    Ok(())
}
