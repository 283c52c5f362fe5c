//! A session that is stopped at every call of the bank.

ghost use Rattle.std.specs.Prelude.{◌+◌, ◌≤◌};

use super::{ended, with_array};
use std::alloc::{AllocError, Global};
use std::process::Abort;
use std::test::Fail;

/// Eight lines: after the first, the third, the fifth and the seventh one block more is written.
const LINES: &str =
    "W 1 0 11111111111111111111111111111111\nR 0\nW 2 1 22222222222222222222222222222222\nR 1\n\
    W 3 0 33333333333333333333333333333333\nR 0\nW 4 5 44444444444444444444444444444444\nR 5\n";

// Writes a reply of a block whose digits are all one.
fn put_reply(text: &mut [u8; 108], at: usize, digit: u8)
    requires { at + 36 ≤ 108 }
{
    text[at] = b'i';
    text[at + 1] = b's';
    text[at + 2] = b' ';
    for i in 3..35 {
        text[at + i] = digit;
    }
    text[at + 35] = b'\n';
}

// What blocks 0, 1 and 5 read as after that many of the eight lines.
fn state_after(lines: usize) -> [u8; 108] {
    let mut text = [0; 108];
    let first = match lines {
        0 => b'0',
        1..=4 => b'1',
        _ => b'3',
    };
    put_reply(&mut text, 0, first);
    put_reply(&mut text, 36, if lines < 3 { b'0' } else { b'2' });
    put_reply(&mut text, 72, if lines < 7 { b'0' } else { b'4' });
    text
}

// How many lines end among the bytes.
fn line_feeds(bytes: &[u8]) -> usize {
    let mut count = 0usize;
    for byte in bytes {
        if *byte == b'\n' {
            count = count.saturating_add(1);
        }
    }
    count
}

// Whether a session that is stopped after that many calls, and crashes, leaves the state after the
// lines whose replies were said, or after one more. A member is removed then, unless its number is
// 3.
fn outlives(
    rt: &impl Abort,
    alloc: Global,
    calls: u64,
    seed: u64,
    member: u8,
) -> Result<bool, AllocError>
    requires { member ≤ 3 }
{
    let mut bank = with_array(rt, alloc)?;
    bank.fuse(calls);
    ended(alloc, &mut bank, "session", LINES, 4096, 0)?;
    bank.crash(seed);
    if member < 3 {
        bank.remove(member + 1);
    }
    let before = bank.said().len();
    let given = line_feeds(bank.said()).saturating_sub(1);
    let status = ended(alloc, &mut bank, "session", "R 0\nR 1\nR 5\n", 4096, 0)?;
    let said = bank.said();
    assert!(rt; before <= said.len());
    let said = &said[before..];
    Ok(
        status == 0
            && (said == &state_after(given)[..]
                || said == &state_after(given.saturating_add(1))[..]),
    )
}

#[test]
fn what_was_replied_outlives_a_stop_at_any_call(rt: HostRuntime) -> Result<(), Fail> {
    for calls in 0..130 {
        for seed in 0..3 {
            for member in 0..4 {
                assert!(rt;
                    outlives(&rt, rt.alloc(), calls, seed, member)?,
                    "{calls} {seed} {member}"
                );
            }
        }
    }
    // The longest fuse outlasts a whole session: no call of it is left out above.
    let mut bank = with_array(&rt, rt.alloc())?;
    bank.fuse(129);
    assert!(rt; ended(rt.alloc(), &mut bank, "session", LINES, 4096, 0)? == 0);
    Ok(())
}
