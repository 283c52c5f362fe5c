//! Streams written by hand, over a small replica on a disk in memory.

ghost use Rattle.std.specs.Prelude.{◌≡◌, IfOk};

use crate::{ApplyFault, Feed, Outcome, SUMMARY_BYTES, Summary, apply, write_summary};
use std::alloc::{AllocError, Global};
use std::test::Fail;
use trap_bank::{MemoryBank, MemorySource};
use trap_format::Shape;
use trap_frame::FrameFault;
use trap_replica::{Replica, ReplicaFault, create};

/// Two frames of array 7 over blocks of 16 bytes: 43 bytes, and 38. Both are of block 0.
const STREAM: [u8; 81] =
    *b"TPF1\0\0\0\0\0\0\0\x07\0\0\0\0\0\0\0\x01\0\0\0\0\0\0\0\x64\0\0\0\0\0\x09\0\0\0\x01\x01\0\x0f\0\0TPF1\0\0\0\0\0\0\0\x07\0\0\0\0\0\0\0\x02\0\0\0\0\0\0\0\x64\0\0\0\0\0\x04\0\x10\0\0";

/// A frame of array 7 without its number, which leaves block 0 as it is.
const EMPTY: [u8; 38] =
    *b"TPF1\0\0\0\0\0\0\0\x07\0\0\0\0\0\0\0\0\0\0\0\0\0\0\0\x64\0\0\0\0\0\x04\0\x10\0\0";

/// A bank with a new replica of array 7: eight blocks of 16 bytes.
fn new_replica(alloc: Global) -> Result<MemoryBank, Fail> {
    let mut bank = MemoryBank::new(alloc)?;
    let shape = Shape {
        id: 7,
        block: 16,
        volume: 8,
    };
    create(&mut bank, &shape)?;
    Ok(bank)
}

/// A source of these bytes in pieces, whose call with a number fails: none, where that is 0.
fn source_of(
    alloc: Global,
    bytes: &[u8],
    piece: usize,
    fails: u64,
) -> Result<MemorySource, AllocError>
    ensures { IfOk result (λ source. source.given ≡ 0) }
{
    let mut source = MemorySource::new(alloc, bytes)?;
    source.pieces(piece);
    source.fail_at(fails);
    Ok(source)
}

/// Mounts the replica, and applies what a source gives.
fn run_over(
    alloc: Global,
    bank: &mut MemoryBank,
    bytes: &[u8],
    piece: usize,
    fails: u64,
) -> Result<Outcome, ReplicaFault> {
    let mut source = source_of(alloc, bytes, piece, fails)?;
    let mut replica = Replica::mount(alloc, bank)?;
    let feed = Feed::new(alloc, usize::from(replica.shape().block))?;
    Ok(apply(&mut replica, feed, bank, &mut source))
}

/// The same of a source that gives all it is asked for, and doesn't fail.
fn run(alloc: Global, bank: &mut MemoryBank, bytes: &[u8]) -> Result<Outcome, ReplicaFault> {
    run_over(alloc, bank, bytes, usize::MAX, 0)
}

/// How many frames a run takes of the first bytes of the stream, and why it ends.
fn ending(len: u64) -> (u64, Option<ApplyFault>) {
    let (frames, at) = match len {
        0..=42 => (0, 0),
        43..=80 => (1, 43),
        _ => (2, 81),
    };
    if len == at {
        return (frames, None);
    }
    (frames, Some(ApplyFault::Stream(FrameFault::Cut { at })))
}

#[test]
fn a_stream_is_applied_up_to_where_it_is_cut(rt: HostRuntime) -> Result<(), Fail> {
    for piece in [1, 100] {
        for len in 0..82usize {
            let mut bank = new_replica(rt.alloc())?;
            let (frames, fault) = ending(len as u64);
            let want = Summary {
                applied: frames,
                frames,
                held: 0,
                repeats: 0,
                beyond: 0,
            };
            let outcome = run_over(rt.alloc(), &mut bank, &STREAM[..len], piece, 0)?;
            assert_eq!(rt; outcome.summary, want, "after {len}");
            assert_eq!(rt; outcome.fault, fault, "after {len}");
        }
    }
    Ok(())
}

/// A stream of empty frames with these numbers.
fn stream_of(alloc: Global, numbers: &[u8]) -> Result<Vec<u8>, AllocError> {
    let mut stream = Vec::new(alloc);
    for seq in numbers {
        let mut frame = EMPTY;
        frame[19] = *seq;
        stream.extend_from_slice(&frame)?;
    }
    Ok(stream)
}

#[test]
fn frames_in_any_order_are_counted(rt: HostRuntime) -> Result<(), Fail> {
    let mut bank = new_replica(rt.alloc())?;
    let runs: [(&[u8], &str); 3] = [
        (
            &[1, 3, 2, 2, 5],
            "applied 3 frames 5 held 1 repeats 1 beyond 0\n",
        ),
        (&[4], "applied 4 frames 1 held 0 repeats 0 beyond 0\n"),
        (&[69, 68], "applied 4 frames 2 held 1 repeats 0 beyond 1\n"),
    ];
    for (numbers, want) in runs {
        let stream = stream_of(rt.alloc(), numbers)?;
        let outcome = run(rt.alloc(), &mut bank, stream.as_slice())?;
        assert_eq!(rt; outcome.fault, None, "{want}");
        let mut line = [0; SUMMARY_BYTES];
        let len = write_summary(&outcome.summary, &mut line);
        assert!(rt; &line[..len] == want.as_bytes(), "{want}");
    }
    Ok(())
}

#[test]
fn nothing_is_taken_after_a_frame_that_is_refused(rt: HostRuntime) -> Result<(), Fail> {
    // In either frame the magic bytes, the array's id and the block.
    let rows = [
        (0, 0x55, ApplyFault::Stream(FrameFault::BadFrame { at: 0 })),
        (11, 8, ApplyFault::Replica(ReplicaFault::Stranger { id: 8 })),
        (
            31,
            8,
            ApplyFault::Replica(ReplicaFault::NoBlock { block: 8 }),
        ),
        (
            43,
            0x55,
            ApplyFault::Stream(FrameFault::BadFrame { at: 43 }),
        ),
        (54, 8, ApplyFault::Replica(ReplicaFault::Stranger { id: 8 })),
        (
            74,
            8,
            ApplyFault::Replica(ReplicaFault::NoBlock { block: 8 }),
        ),
    ];
    for (at, byte, fault) in rows {
        let mut bytes = STREAM;
        bytes[at] = byte;
        let mut bank = new_replica(rt.alloc())?;
        let outcome = run(rt.alloc(), &mut bank, &bytes)?;
        assert_eq!(rt; outcome.fault, Some(fault), "byte {at}");
        let frames = if at < 43 { 0 } else { 1 };
        assert_eq!(rt; outcome.summary.frames, frames, "byte {at}");
        assert_eq!(rt; outcome.summary.applied, frames, "byte {at}");
    }
    Ok(())
}

#[test]
fn a_failure_of_the_source_or_the_disk_ends_the_run(rt: HostRuntime) -> Result<(), Fail> {
    let mut bank = new_replica(rt.alloc())?;
    let outcome = run_over(rt.alloc(), &mut bank, &STREAM, 10, 6)?;
    assert_eq!(rt;
        outcome.fault,
        Some(ApplyFault::Stream(FrameFault::ReadFault))
    );
    assert_eq!(rt; outcome.summary.frames, 1);
    bank.fail_on(17, 5);
    let outcome = run(rt.alloc(), &mut bank, &STREAM)?;
    assert_eq!(rt; outcome.summary.repeats, 1);
    assert_eq!(rt;
        outcome.fault,
        Some(ApplyFault::Replica(ReplicaFault::DiskFault))
    );
    Ok(())
}

#[test]
fn a_frame_is_taken_in_two_pieces(rt: HostRuntime) -> Result<(), Fail> {
    // Two calls for each of two frames, and one that finds the end.
    let rows = [
        (5, Some(ApplyFault::Stream(FrameFault::ReadFault))),
        (6, None),
    ];
    for (call, fault) in rows {
        let mut bank = new_replica(rt.alloc())?;
        let outcome = run_over(rt.alloc(), &mut bank, &STREAM, 100, call)?;
        assert_eq!(rt; outcome.fault, fault, "call {call}");
        assert_eq!(rt; outcome.summary.frames, 2, "call {call}");
    }
    Ok(())
}

#[test]
fn a_stop_at_any_call_leaves_a_number_that_was_reached(rt: HostRuntime) -> Result<(), Fail> {
    for seed in 0..3 {
        // Mounting makes five calls.
        for calls in 5..32 {
            let mut bank = new_replica(rt.alloc())?;
            bank.fuse(calls);
            let outcome = run(rt.alloc(), &mut bank, &STREAM)?;
            bank.crash(seed);
            let mut replica = Replica::mount(rt.alloc(), &mut bank)?;
            let applied = replica.applied();
            let known = outcome.summary.applied;
            assert!(rt; known <= applied && applied <= 2, "at {calls} with {seed}");
            assert!(rt; outcome.fault.is_some() || known == 2, "at {calls}");
            let size = usize::from(replica.shape().block);
            let mut block = vec![in rt.alloc(); 9u8; size]?;
            replica.block(&mut bank, 0, block.as_mut_slice())?;
            assert_eq!(rt;
                block.first() == Some(&1),
                applied > 0,
                "at {calls} with {seed}"
            );
        }
    }
    Ok(())
}
