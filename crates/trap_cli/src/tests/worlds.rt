//! Random worlds: an array goes on, and a replica gets its frames over a line that loses, repeats
//! and reorders them, and is stopped.

ghost use Rattle.std.specs.Prelude.{◌<◌};

use super::replica::{REPLICA, answers, number_of, run_over};
use std::alloc::{AllocError, Global};
use std::process::Abort;
use std::test::Fail;
use trap_bank::MemoryBank;

/// An array of eight blocks of 16 bytes that keeps 250 entries.
const PRIMARY: &str = "create 7 3 1 16 4 1 2 250 16384";

/// A write to a block: zeros, but for the byte at one place.
#[derive(Drop)]
struct Change {
    block: u8,
    place: u8,
    byte: u8,
}

// A random number below another one.
fn drawn(number: &mut u32, below: u32) -> u32
    requires { 0 < below }
    ensures { result < below }
{
    *number = ((u64::from(*number) * 1_103_515_245 + 12_345) % (1 << 31)) as u32;
    *number / 65_536 % below
}

// The image after the first changes.
fn image_after(changes: &[Change], count: u8) -> [u8; 128] {
    let mut image = [0; 128];
    for change in changes.iter().take(usize::from(count)) {
        let at = usize::from(change.block % 8) * 16;
        image[at..at + 16].fill(0);
        image[at + usize::from(change.place % 16)] = change.byte;
    }
    image
}

// Writes that many random changes to the array.
fn commit(
    rt: &impl Abort,
    alloc: Global,
    bank: &mut MemoryBank,
    changes: &mut Vec<Change>,
    count: u32,
    draws: &mut u32,
) -> Result<(), AllocError> {
    let mut lines = String::new(alloc);
    let mut replies = String::new(alloc);
    for _ in 0..count {
        let change = Change {
            block: drawn(draws, 8) as u8,
            place: drawn(draws, 16) as u8,
            byte: drawn(draws, 256) as u8,
        };
        lines.push_str(format!(in alloc; "W 5 {} ", change.block)?.as_str())?;
        for place in 0..16 {
            let byte = if place == change.place {
                change.byte
            } else {
                0
            };
            lines.push_str(format!(in alloc; "{byte:02x}")?.as_str())?;
        }
        lines.push_str("\n")?;
        changes.push(change)?;
        replies.push_str(format!(in alloc; "ok {}\n", changes.len())?.as_str())?;
    }
    let said = replies.as_bytes();
    assert!(rt; answers(alloc, bank, "session", lines.as_bytes(), 0, said)?);
    Ok(())
}

// The frames of a stream, each of less than 256 bytes after its header.
fn frames_in<'a>(
    rt: &impl Abort,
    alloc: Global,
    stream: &'a [u8],
) -> Result<Vec<&'a [u8]>, AllocError> {
    let mut frames = Vec::new(alloc);
    let mut rest = stream;
    for _ in 0..250 {
        if rest.is_empty() {
            break;
        }
        assert!(rt; 34 <= rest.len() && rest[32] == 0);
        let len = 34 + usize::from(rest[33]);
        assert!(rt; len <= rest.len());
        frames.push(&rest[..len])?;
        rest = &rest[len..];
    }
    assert!(rt; rest.is_empty());
    Ok(frames)
}

// Numbers below a bound in order, but for some that are lost or repeated, and some that come
// earlier or later: none, by a few places, or by many.
fn arrivals(alloc: Global, count: u8, draws: &mut u32) -> Result<Vec<u8>, AllocError> {
    let mut order = Vec::new(alloc);
    let fewest = drawn(draws, 2) as usize;
    for i in 0..count {
        let copies = match drawn(draws, 8) {
            0 => fewest,
            1 => 2,
            _ => 1,
        };
        for _ in 0..copies {
            order.push(i)?;
        }
    }
    let reach = match drawn(draws, 4) {
        0 => 1,
        1 => 8,
        _ => 250,
    };
    for i in 0..order.len() {
        let other = drawn(draws, reach) as usize;
        if i < order.len() && other < order.len() - i {
            order.swap(i, i + other);
        }
    }
    Ok(order)
}

// The number up to which all after the first came.
fn end_of(first: u8, came: &[bool; 256]) -> u8 {
    for number in first..255 {
        if !came[usize::from(number) + 1] {
            return number;
        }
    }
    255
}

// The end of the longest gapless prefix of the numbers that came within the window.
fn gapless(first: u8, numbers: &[u8]) -> u8 {
    let mut came = [false; 256];
    for number in numbers {
        if u16::from(*number) <= u16::from(end_of(first, &came)) + 64 {
            came[usize::from(*number)] = true;
        }
    }
    end_of(first, &came)
}

/// A part of a primary's frames as they come: their bytes and their numbers.
#[derive(Drop)]
struct Delivery {
    line: Vec<u8>,
    numbers: Vec<u8>,
}

// Some of the frames after a number.
fn some_frames(
    rt: &impl Abort,
    alloc: Global,
    bank: &mut MemoryBank,
    from: u8,
    draws: &mut u32,
) -> Result<Delivery, AllocError> {
    let words = format!(in alloc; "send {from}")?;
    let (status, stream) = run_over(alloc, bank, words.as_str(), &[], 4096, 0)?;
    assert!(rt; status == 0);
    let frames = frames_in(rt, alloc, stream.as_slice())?;
    let mut line = Vec::new(alloc);
    let mut numbers = Vec::new(alloc);
    let order = arrivals(alloc, frames.len().min(250) as u8, draws)?;
    for i in order.as_slice() {
        if let Some(frame) = frames.as_slice().get(usize::from(*i)) {
            line.extend_from_slice(frame)?;
            numbers.push(from.saturating_add(1).saturating_add(*i))?;
        }
    }
    Ok(Delivery { line, numbers })
}

// Delivers some frames to a replica at that number, and may stop it. Its image is then the
// primary's after the number that it answers.
fn deliver(
    rt: &impl Abort,
    alloc: Global,
    bank: &mut MemoryBank,
    changes: &[Change],
    number: u8,
    draws: &mut u32,
) -> Result<u8, AllocError> {
    let from = number.saturating_sub(drawn(draws, 4) as u8);
    let delivery = some_frames(rt, alloc, bank, from, draws)?;
    let upto = gapless(number, delivery.numbers.as_slice());
    let is_stopped = drawn(draws, 2) == 0;
    if is_stopped {
        bank.fuse(u64::from(drawn(draws, 300)));
    }
    let piece = 1 + drawn(draws, 100) as usize;
    let (status, said) = run_over(alloc, bank, "apply", delivery.line.as_slice(), piece, 0)?;
    let frames = delivery.numbers.len();
    let want = format!(in alloc; "applied {upto} frames {frames} held ")?;
    assert!(rt; said.is_empty() || said.as_slice().starts_with(want.as_bytes()));
    assert!(rt; is_stopped || status == 0);
    if is_stopped {
        bank.crash(u64::from(drawn(draws, 3)));
    }
    let Some(now) = number_of(alloc, bank, upto)? else {
        assert!(rt; false, "no number up to {upto}");
        return Ok(number);
    };
    assert!(rt; number <= now && (now == upto || said.is_empty()));
    let image = image_after(changes, now);
    assert!(rt; answers(alloc, bank, "replica-export", &[], 0, &image)?);
    Ok(now)
}

// A world in which the replica is far behind at first.
fn follows(rt: &impl Abort, alloc: Global, seed: u32) -> Result<(), AllocError> {
    let mut bank = MemoryBank::new(alloc)?;
    for words in [PRIMARY, REPLICA] {
        assert!(rt; answers(alloc, &mut bank, words, &[], 0, "created 7\n".as_bytes())?);
    }
    let mut draws = seed;
    let mut changes = Vec::new(alloc);
    let mut number = 0;
    commit(rt, alloc, &mut bank, &mut changes, 200, &mut draws)?;
    for _ in 0..9 {
        number = deliver(rt, alloc, &mut bank, changes.as_slice(), number, &mut draws)?;
        let count = drawn(&mut draws, 6);
        commit(rt, alloc, &mut bank, &mut changes, count, &mut draws)?;
    }
    let words = format!(in alloc; "send {number}")?;
    let (_, stream) = run_over(alloc, &mut bank, words.as_str(), &[], 4096, 0)?;
    let (status, _) = run_over(alloc, &mut bank, "apply", stream.as_slice(), 4096, 0)?;
    let last = number_of(alloc, &mut bank, 250)?.map(usize::from);
    assert!(rt; status == 0 && last == Some(changes.len()));
    let image = image_after(changes.as_slice(), 250);
    assert!(rt; answers(alloc, &mut bank, "replica-export", &[], 0, &image)?);
    Ok(())
}

#[test]
fn a_replica_follows_over_a_bad_line(rt: HostRuntime) -> Result<(), Fail> {
    for seed in 1..21 {
        follows(&rt, rt.alloc(), seed)?;
    }
    Ok(())
}
