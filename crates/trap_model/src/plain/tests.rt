//! Worked rows on the plain machine, request by request, and the lengths of worked codes.

ghost use Rattle.std.specs.Prelude.{◌≡◌, ◌^◌, ◌≤◌, IfOk};
ghost use Rattle.trap_model.specs.ArrayStep.{IsSized};

use super::*;
use crate::code::code_len;
use crate::{Refusal, Reply, Request};
use std::process::Abort;
use std::test::Fail;

/// What is asked: a write's contents are these bytes, and zero bytes after them.
enum Ask<'a> {
    Write(u64, u64, &'a [u8]),
    Read(u64),
    At(u64, u64),
    By(u64, u64),
    Info,
    Keep(u64),
    Quit,
    Bad,
}

/// The wanted reply, with contents as above.
enum Want<'a> {
    Kept(u64),
    Is(&'a [u8]),
    At(&'a [u8]),
    Span(u64, u64, u64, u64),
    No(Refusal),
    Silent,
}

const FULL: &[u8] = &[0x11; 16];

const SHORT: &[u8] = &[0x11; 15];

fn padded(front: &[u8]) -> [u8; 16] {
    let mut bytes = [0; 16];
    for (byte, from) in bytes.iter_mut().zip(front) {
        *byte = *from;
    }
    bytes
}

fn request_of(alloc: Global, ask: &Ask) -> Result<Request, OutOfMemory>
    ensures { IfOk result (λ request. (g : Geometry) → g.block ≡ 16 → IsSized g request) }
{
    Ok(match ask {
        Ask::Write(time, block, front) => {
            Request::Write {
                time: *time,
                block: *block,
                bytes: Block::new(alloc, &padded(front))?,
            }
        }
        Ask::Read(block) => Request::Read { block: *block },
        Ask::At(seq, block) => Request::At {
            seq: *seq,
            block: *block,
        },
        Ask::By(time, block) => Request::By {
            time: *time,
            block: *block,
        },
        Ask::Info => Request::Info,
        Ask::Keep(seq) => Request::Keep { seq: *seq },
        Ask::Quit => Request::Quit,
        Ask::Bad => Request::Bad,
    })
}

fn agrees(reply: &Reply, want: &Want) -> bool {
    match (reply, want) {
        (Reply::Kept { seq }, Want::Kept(number)) => seq == number,
        (Reply::Is { bytes }, Want::Is(front)) => bytes.as_slice() == padded(front).as_slice(),
        (Reply::At { bytes }, Want::At(front)) => bytes.as_slice() == padded(front).as_slice(),
        (
            Reply::Span {
                first,
                last,
                base_time,
                last_time,
            },
            Want::Span(a, b, c, d),
        ) => { first == a && last == b && base_time == c && last_time == d }
        (Reply::No(why), Want::No(refusal)) => why == refusal,
        (Reply::Silent, Want::Silent) => true,
        _ => false,
    }
}

fn eight_blocks(gap: u8, ring: u64) -> Geometry
    requires gap { 2 ≤ gap }
    requires low { 144 ≤ ring }
    requires high { ring ≤ 2 ^ 32 }
    ensures { result.block ≡ 16 }
{
    Geometry {
        id: 7,
        members: 3,
        chunk: 1,
        block: 16,
        rows: 4,
        slots: 1,
        gap,
        entries: 8,
        ring,
    }
}

fn run(
    rt: &impl Abort,
    alloc: Global,
    plain: &mut Plain,
    rows: &[(Ask, Want)],
) -> Result<(), OutOfMemory>
    requires { plain.old.geometry.block ≡ 16 }
    ensures { plain.new.geometry.block ≡ 16 }
{
    for (i, (ask, want)) in rows.iter().enumerate() {
        let request = request_of(alloc, ask)?;
        let reply = plain.step(alloc, &request)?;
        assert!(rt; agrees(&reply, want), "row {i} is {reply:?}");
    }
    Ok(())
}

#[test]
fn instants_of_two_equal_writes(rt: HostRuntime) -> Result<(), Fail> {
    let mut plain = Plain::new(rt.alloc(), eight_blocks(2, 2048))?;
    run(
        &rt,
        rt.alloc(),
        &mut plain,
        &[
            (Ask::Info, Want::Span(0, 0, 0, 0)),
            (Ask::Read(0), Want::Is(&[])),
            (Ask::Bad, Want::No(Refusal::NoLine)),
            (Ask::Write(100, 0, &[1]), Want::Kept(1)),
            (Ask::Info, Want::Span(0, 1, 0, 100)),
            (Ask::Write(100, 0, &[1]), Want::Kept(2)),
            (Ask::At(0, 0), Want::At(&[])),
            (Ask::At(1, 0), Want::At(&[1])),
            (Ask::At(2, 0), Want::At(&[1])),
            (Ask::At(3, 0), Want::No(Refusal::Ahead { last: 2 })),
            (Ask::By(99, 0), Want::At(&[])),
            (Ask::By(100, 0), Want::At(&[1])),
            (Ask::By(u64::MAX, 0), Want::At(&[1])),
            (Ask::Quit, Want::Silent),
        ],
    )?;
    Ok(())
}

#[test]
fn refusals_of_a_write_and_of_a_block(rt: HostRuntime) -> Result<(), Fail> {
    let mut plain = Plain::new(rt.alloc(), eight_blocks(2, 2048))?;
    run(
        &rt,
        rt.alloc(),
        &mut plain,
        &[
            (Ask::Write(100, 0, &[1]), Want::Kept(1)),
            (
                Ask::Write(99, 1, &[]),
                Want::No(Refusal::TimeBack { last: 100 }),
            ),
            (Ask::Info, Want::Span(0, 1, 0, 100)),
            (Ask::Write(100, 1, &[]), Want::Kept(2)),
            (Ask::Write(99, 8, &[]), Want::No(Refusal::NoBlock)),
            (Ask::Write(100, 7, &[]), Want::Kept(3)),
            (Ask::At(9, 8), Want::No(Refusal::NoBlock)),
            (Ask::Read(u64::MAX), Want::No(Refusal::NoBlock)),
        ],
    )?;
    Ok(())
}

#[test]
fn the_ninth_write_wants_room(rt: HostRuntime) -> Result<(), Fail> {
    let mut plain = Plain::new(rt.alloc(), eight_blocks(2, 2048))?;
    run(
        &rt,
        rt.alloc(),
        &mut plain,
        &[
            (Ask::Write(10, 0, &[1]), Want::Kept(1)),
            (Ask::Write(20, 0, &[2]), Want::Kept(2)),
            (Ask::Write(30, 0, &[3]), Want::Kept(3)),
            (Ask::Write(40, 0, &[4]), Want::Kept(4)),
            (Ask::Write(50, 0, &[5]), Want::Kept(5)),
            (Ask::Write(60, 0, &[6]), Want::Kept(6)),
            (Ask::Write(70, 0, &[7]), Want::Kept(7)),
            (Ask::Write(80, 0, &[8]), Want::Kept(8)),
            (Ask::Write(90, 0, &[9]), Want::No(Refusal::Full)),
            (Ask::Keep(3), Want::Kept(3)),
            (Ask::Write(90, 0, &[9]), Want::Kept(9)),
            (Ask::At(2, 0), Want::No(Refusal::NotKept { bound: 3 })),
            (Ask::At(3, 0), Want::At(&[3])),
            (Ask::By(29, 0), Want::No(Refusal::NotKept { bound: 30 })),
            (Ask::By(30, 0), Want::At(&[3])),
            (Ask::By(95, 0), Want::At(&[9])),
            (Ask::Keep(2), Want::No(Refusal::NotKept { bound: 3 })),
            (Ask::Keep(3), Want::Kept(3)),
            (Ask::Keep(10), Want::No(Refusal::Ahead { last: 9 })),
        ],
    )?;
    Ok(())
}

#[test]
fn records_fill_a_small_ring_to_the_byte(rt: HostRuntime) -> Result<(), Fail> {
    let mut plain = Plain::new(rt.alloc(), eight_blocks(255, 144))?;
    run(
        &rt,
        rt.alloc(),
        &mut plain,
        &[
            (Ask::Write(1, 0, FULL), Want::Kept(1)),
            (Ask::Write(2, 1, SHORT), Want::Kept(2)),
            (Ask::Write(3, 2, SHORT), Want::Kept(3)),
            (Ask::Write(4, 3, FULL), Want::No(Refusal::Full)),
            (Ask::Keep(1), Want::Kept(1)),
            (Ask::Write(4, 3, SHORT), Want::No(Refusal::Full)),
            (Ask::Write(4, 3, FULL), Want::Kept(4)),
            (Ask::At(1, 0), Want::At(FULL)),
        ],
    )?;
    Ok(())
}

#[test]
fn the_last_number_is_worn(rt: HostRuntime) -> Result<(), Fail> {
    let mut plain = Plain::new(rt.alloc(), eight_blocks(2, 2048))?;
    plain.state.first = 1 << 40;
    plain.state.base_time = 5;
    run(
        &rt,
        rt.alloc(),
        &mut plain,
        &[
            (
                Ask::Info,
                Want::Span(1_099_511_627_776, 1_099_511_627_776, 5, 5),
            ),
            (Ask::Write(5, 0, &[]), Want::No(Refusal::Worn)),
            (
                Ask::Write(4, 0, &[]),
                Want::No(Refusal::TimeBack { last: 5 }),
            ),
        ],
    )?;
    Ok(())
}

#[test]
fn codes_have_the_worked_lengths(rt: HostRuntime) {
    let rows: [(&[u8], usize); 5] = [
        (&[], 4),
        (FULL, 20),
        (SHORT, 23),
        (&[0xaa, 0, 0, 0, 0xbb], 13),
        (&[0xaa, 0, 0, 0, 0, 0xbb], 14),
    ];
    for (front, want) in rows {
        let bytes = padded(front);
        assert_eq!(rt; code_len(&bytes), want, "of {bytes:?}");
    }
}
