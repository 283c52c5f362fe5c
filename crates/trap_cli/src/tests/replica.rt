//! The commands of a replica: what they say, leave and refuse, and an `apply` that is stopped.

use super::ended_over;
use super::sending::FRAMES;
use std::alloc::{AllocError, Global};
use std::process::Abort;
use std::test::Fail;
use trap_bank::{Bank, MemoryBank};

/// Eight blocks of 16 bytes, of array 7.
pub const REPLICA: &str = "replica-create 7 16 8";

// The status of a run of these words over that input, and what it says. The source gives at most so
// many bytes at once, and fails in that call of `take`, where there is one.
pub fn run_over(
    alloc: Global,
    bank: &mut MemoryBank,
    text: &str,
    input: &[u8],
    piece: usize,
    failing_take: u64,
) -> Result<(u8, Vec<u8>), AllocError> {
    let before = bank.said().len();
    let status = ended_over(alloc, bank, text, input, piece, failing_take)?;
    let said = bank.said().get(before..).unwrap_or(&[]);
    Ok((status, said.to_vec(alloc)?))
}

// Whether a run of these words over that input ends with the status, and says just that.
pub fn answers(
    alloc: Global,
    bank: &mut MemoryBank,
    text: &str,
    input: &[u8],
    status: u8,
    said: &[u8],
) -> Result<bool, AllocError> {
    let (ended, now) = run_over(alloc, bank, text, input, 4096, 0)?;
    Ok(ended == status && now.as_slice() == said)
}

// A bank with a replica.
pub fn with_replica(
    rt: &impl Abort,
    alloc: Global,
    create: &str,
) -> Result<MemoryBank, AllocError> {
    let mut bank = MemoryBank::new(alloc)?;
    assert!(rt; run_over(alloc, &mut bank, create, &[], 4096, 0)?.0 == 0);
    Ok(bank)
}

// The number of a replica, where it is at most that, as `apply` of no frames says it.
pub fn number_of(alloc: Global, bank: &mut MemoryBank, most: u8) -> Result<Option<u8>, AllocError> {
    let (_, said) = run_over(alloc, bank, "apply", &[], 4096, 0)?;
    for number in 0..=most {
        let line = format!(in alloc; "applied {number} frames 0 held 0 repeats 0 beyond 0\n")?;
        if said.as_slice() == line.as_bytes() {
            return Ok(Some(number));
        }
    }
    Ok(None)
}

// The frame of array 7 with that number, which changes the first byte of a block.
fn frame_of(seq: u8, block: u8, byte: u8) -> [u8; 43] {
    let mut frame = [
        0x54, 0x50, 0x46, 0x31, 0, 0, 0, 0, 0, 0, 0, 7, 0, 0, 0, 0, 0, 0, 0, 0, 0, 0, 0, 0, 0, 0,
        0, 0x64, 0, 0, 0, 0, 0, 9, 0, 0, 0, 1, 0, 0, 0x0f, 0, 0,
    ];
    frame[19] = seq;
    frame[31] = block;
    frame[38] = byte;
    frame
}

// An image of eight blocks that are zero but for the first bytes of some.
fn image_of(firsts: &[(u8, u8)]) -> [u8; 128] {
    let mut image = [0; 128];
    for (block, byte) in firsts {
        image[usize::from(*block % 8) * 16] = *byte;
    }
    image
}

#[test]
fn frames_after_a_gap_wait_for_it(rt: HostRuntime) -> Result<(), Fail> {
    let alloc = rt.alloc();
    let mut bank = MemoryBank::new(alloc)?;
    let rows: [(&str, &[u8], &str); 4] = [
        (REPLICA, &[], "created 7\n"),
        (
            "apply",
            &[1, 3, 2, 2, 5],
            "applied 3 frames 5 held 1 repeats 1 beyond 0\n",
        ),
        (
            "apply",
            &[4],
            "applied 4 frames 1 held 0 repeats 0 beyond 0\n",
        ),
        (
            "apply",
            &[69, 68],
            "applied 4 frames 2 held 1 repeats 0 beyond 1\n",
        ),
    ];
    for (words, numbers, said) in rows {
        let mut stream = Vec::new(alloc);
        for seq in numbers {
            stream.extend_from_slice(&frame_of(*seq, *seq % 8, *seq))?;
        }
        assert!(rt;
            answers(
                alloc,
                &mut bank,
                words,
                stream.as_slice(),
                0,
                said.as_bytes()
            )?,
            "{said}"
        );
    }
    assert!(rt; bank.size(17) == Some(236));
    let image = image_of(&[(1, 1), (2, 2), (3, 3), (4, 4)]);
    assert!(rt; answers(alloc, &mut bank, "replica-export", &[], 0, &image)?);
    Ok(())
}

// The first bytes of the two frames, one of which is another byte.
fn part_of(alloc: Global, len: usize, at: usize, byte: u8) -> Result<Vec<u8>, AllocError> {
    let mut stream = FRAMES.to_vec(alloc)?;
    stream.truncate(len);
    if at < stream.len() {
        stream[at] = byte;
    }
    Ok(stream)
}

#[test]
fn what_comes_before_a_fault_of_the_stream_is_applied(rt: HostRuntime) -> Result<(), Fail> {
    let alloc = rt.alloc();
    let other = "replica-create 8 16 8";
    let none = "applied 0 frames 0 held 0 repeats 0 beyond 0\n";
    let whole = "applied 2 frames 2 held 0 repeats 0 beyond 0\n";
    let cut = "applied 1 frames 1 held 0 repeats 0 beyond 0\nfault cut 43\n";
    let bad = "applied 0 frames 0 held 0 repeats 0 beyond 0\nfault frame 0\n";
    let no_block = "applied 1 frames 1 held 0 repeats 0 beyond 0\nfault no block 8\n";
    let stranger = "applied 0 frames 0 held 0 repeats 0 beyond 0\nfault stranger 7\n";
    for (create, len, at, byte, status, said, first) in [
        (REPLICA, 81, 0, 0x54, 0, whole, 1),
        (REPLICA, 53, 0, 0x54, 11, cut, 1),
        (REPLICA, 81, 0, 0x55, 11, bad, 0),
        (REPLICA, 81, 74, 8, 11, no_block, 1),
        (other, 81, 0, 0x54, 11, stranger, 0),
        (REPLICA, 0, 0, 0x54, 0, none, 0),
    ] {
        let mut bank = with_replica(&rt, alloc, create)?;
        let stream = part_of(alloc, len, at, byte)?;
        assert!(rt;
            answers(
                alloc,
                &mut bank,
                "apply",
                stream.as_slice(),
                status,
                said.as_bytes()
            )?,
            "{said}"
        );
        let image = image_of(&[(0, first)]);
        assert!(rt;
            answers(alloc, &mut bank, "replica-export", &[], 0, &image)?,
            "{said}"
        );
    }
    Ok(())
}

// So many bytes that are zero but for the first.
fn one_first(alloc: Global, len: usize) -> Result<Vec<u8>, AllocError> {
    let mut bytes = Vec::new(alloc);
    bytes.push(1)?;
    bytes.resize(len, 0)?;
    Ok(bytes)
}

#[test]
fn an_image_is_loaded_at_its_number(rt: HostRuntime) -> Result<(), Fail> {
    let alloc = rt.alloc();
    let load = "replica-load 7 16 8 2 100";
    let refused = "fault not a replica\n";
    let repeated = "applied 2 frames 1 held 0 repeats 1 beyond 0\n";
    let second = frame_of(2, 0, 2);
    let mut bank = MemoryBank::new(alloc)?;
    for (len, status, said, next_status, next) in [
        (127, 11, "fault short image 127\n", 3, refused),
        (129, 11, "fault long image 128\n", 3, refused),
        (128, 0, "loaded 2\n", 0, repeated),
    ] {
        bank.remove(17);
        let image = one_first(alloc, len)?;
        let input = image.as_slice();
        assert!(rt;
            answers(alloc, &mut bank, load, input, status, said.as_bytes())?,
            "{len}"
        );
        let said = next.as_bytes();
        assert!(rt;
            answers(alloc, &mut bank, "apply", &second, next_status, said)?,
            "{len}"
        );
    }
    let image = one_first(alloc, 128)?;
    assert!(rt; answers(alloc, &mut bank, "replica-export", &[], 0, image.as_slice())?);
    // The cell: the number, the time, and block 0 with its contents.
    let cell = [
        0xa5, 0, 0, 0, 0, 0, 0, 0, 0, 2, 0, 0, 0, 0, 0, 0, 0, 0x64, 0, 0, 0, 0, 1,
    ];
    let disk = bank.disk(17).unwrap_or(&[]);
    assert!(rt; disk.len() == 236 && disk.ends_with(image.as_slice()));
    assert!(rt; &disk[32..55] == cell.as_slice());
    Ok(())
}

#[test]
fn numbers_are_refused_before_a_disk_that_is_there(rt: HostRuntime) -> Result<(), Fail> {
    let alloc = rt.alloc();
    let mut bank = with_replica(&rt, alloc, REPLICA)?;
    for (words, status, said) in [
        ("replica-create 7 16", 2, "fault usage\n"),
        ("replica-load 7 16 8 2", 2, "fault usage\n"),
        ("apply 1", 2, "fault usage\n"),
        ("replica-export 1", 2, "fault usage\n"),
        ("replica-create 7 24 0", 3, "fault geometry block\n"),
        ("replica-create 7 16 0", 3, "fault geometry volume\n"),
        (
            "replica-load 7 16 0 1099511627777 0",
            3,
            "fault geometry volume\n",
        ),
        (
            "replica-load 7 16 8 1099511627777 0",
            3,
            "fault geometry seq\n",
        ),
        (
            "replica-load 7 16 8 1099511627776 0",
            3,
            "fault exists 17\n",
        ),
        (REPLICA, 3, "fault exists 17\n"),
    ] {
        assert!(rt;
            answers(alloc, &mut bank, words, &[], status, said.as_bytes())?,
            "{words}"
        );
    }
    assert!(rt; number_of(alloc, &mut bank, 2)? == Some(0));
    Ok(())
}

#[test]
fn a_failing_disk_input_or_port_ends_an_apply(rt: HostRuntime) -> Result<(), Fail> {
    let alloc = rt.alloc();
    let mut bank = with_replica(&rt, alloc, REPLICA)?;
    let frames = FRAMES;
    let stream = frames.as_slice();
    // Each frame is two calls of the source.
    let (status, said) = run_over(alloc, &mut bank, "apply", stream, 4096, 3)?;
    let want = "applied 1 frames 1 held 0 repeats 0 beyond 0\nfault input\n";
    assert!(rt; status == 8 && said.as_slice() == want.as_bytes());
    bank.fail_on(17, 0);
    let said = "fault replica\n";
    assert!(rt; answers(alloc, &mut bank, "apply", stream, 13, said.as_bytes())?);
    bank.crash(0);
    // Five calls mount the replica, the first frame is a repeat, and the second takes ten.
    bank.fuse(15);
    assert!(rt; answers(alloc, &mut bank, "apply", stream, 9, &[])?);
    assert!(rt; number_of(alloc, &mut bank, 2)?.is_none());
    bank.crash(0);
    assert!(rt; number_of(alloc, &mut bank, 2)? == Some(2));
    Ok(())
}

// Three frames: two of block 0, and one of the last block.
fn three_frames(alloc: Global) -> Result<Vec<u8>, AllocError> {
    let mut stream = Vec::new(alloc);
    stream.extend_from_slice(&frame_of(1, 0, 1))?;
    stream.extend_from_slice(&frame_of(2, 0, 2))?;
    stream.extend_from_slice(&frame_of(3, 7, 4))?;
    Ok(stream)
}

// Whether an `apply` that is stopped after that many calls, and crashes, leaves the image after the
// number that it leaves, and the next one goes on from there. True where it was done.
fn goes_on(rt: &impl Abort, alloc: Global, calls: u64, seed: u64) -> Result<bool, AllocError> {
    let frames = three_frames(alloc)?;
    let stream = frames.as_slice();
    let mut bank = with_replica(rt, alloc, REPLICA)?;
    bank.fuse(calls);
    let (status, said) = run_over(alloc, &mut bank, "apply", stream, 4096, 0)?;
    assert!(rt; status == 0 || said.is_empty(), "{calls} {seed}");
    bank.crash(seed);
    let number = number_of(alloc, &mut bank, 3)?;
    assert!(rt; status != 0 || number == Some(3), "{calls} {seed}");
    let image = match number {
        Some(0) => image_of(&[]),
        Some(1) => image_of(&[(0, 1)]),
        Some(2) => image_of(&[(0, 3)]),
        _ => image_of(&[(0, 3), (7, 4)]),
    };
    assert!(rt;
        answers(alloc, &mut bank, "replica-export", &[], 0, &image)?,
        "{calls} {seed}"
    );
    let repeats = number.unwrap_or(4);
    let want = format!(in alloc; "applied 3 frames 3 held 0 repeats {repeats} beyond 0\n")?;
    assert!(rt;
        answers(alloc, &mut bank, "apply", stream, 0, want.as_bytes())?,
        "{calls} {seed}"
    );
    let last = image_of(&[(0, 3), (7, 4)]);
    assert!(rt;
        answers(alloc, &mut bank, "replica-export", &[], 0, &last)?,
        "{calls} {seed}"
    );
    Ok(status == 0)
}

#[test]
fn a_stopped_apply_goes_on_where_it_was(rt: HostRuntime) -> Result<(), Fail> {
    for calls in 0..34 {
        for seed in 0..3 {
            assert!(rt; !goes_on(&rt, rt.alloc(), calls, seed)?, "{calls} {seed}");
        }
    }
    // This fuse outlasts it: no call is left out above.
    assert!(rt; goes_on(&rt, rt.alloc(), 34, 1)?);
    Ok(())
}
