//! Lines that ask for earlier instants.

ghost use Rattle.std.specs.Prelude.{◌≤◌};

use super::{WRITES, ended, says, with_array};
use std::alloc::{AllocError, Global};
use std::process::Abort;
use std::test::Fail;

const AT_ZEROS: &str = "at 00000000000000000000000000000000\n";

const AT_ONE: &str = "at 01000000000000000000000000000000\n";

/// A write at the last time that there is.
const LAST_TIME: &str = "W 18446744073709551615 0 00000000000000000000000000000000\n";

#[test]
fn instants_are_answered(rt: HostRuntime) -> Result<(), Fail> {
    let alloc = rt.alloc();
    let mut bank = with_array(&rt, alloc)?;
    assert!(rt; says(alloc, &mut bank, "session", WRITES, 0, "ok 1\nok 2\n")?);
    for (line, reply) in [
        ("A 0 0\n", AT_ZEROS),
        ("A 1 0\n", AT_ONE),
        ("A 2 0\n", AT_ONE),
        ("A 3 0\n", "no ahead 2\n"),
        ("A 2 7\n", AT_ZEROS),
        ("A 9 8\n", "no block\n"),
        ("T 0 0\n", AT_ZEROS),
        ("T 99 0\n", AT_ZEROS),
        ("T 100 0\n", AT_ONE),
        ("T 18446744073709551615 0\n", AT_ONE),
        ("T 100 8\n", "no block\n"),
        ("W 99 1 00000000000000000000000000000000\n", "no time 100\n"),
        ("I\n", "is 0 2 0 100\n"),
        ("W 99 8 00000000000000000000000000000000\n", "no block\n"),
        ("W 100 1 00000000000000000000000000000000\n", "ok 3\n"),
        ("W 100 7 01000000000000000000000000000000\n", "ok 4\n"),
        ("A 3 7\n", AT_ZEROS),
        ("T 100 7\n", AT_ONE),
        (LAST_TIME, "ok 5\n"),
        ("T 18446744073709551614 0\n", AT_ONE),
        ("T 18446744073709551615 0\n", AT_ZEROS),
        (
            "W 18446744073709551614 0 00000000000000000000000000000000\n",
            "no time 18446744073709551615\n",
        ),
        ("I\n", "is 0 5 0 18446744073709551615\n"),
    ] {
        assert!(rt;
            says(alloc, &mut bank, "session", line, 0, reply)?,
            "{line}"
        );
    }
    assert!(rt; bank.starved() == 0);
    Ok(())
}

/// The first of the two writes.
const FIRST: &str = "W 100 0 01000000000000000000000000000000\n";

// Whether the write, stopped after that many calls and crashed, is an instant. If not, nothing was
// written.
fn is_instant(
    rt: &impl Abort,
    alloc: Global,
    calls: u64,
    seed: u64,
    member: u8,
) -> Result<bool, AllocError>
    requires { member ≤ 3 }
{
    let mut bank = with_array(rt, alloc)?;
    bank.fuse(calls);
    ended(alloc, &mut bank, "session", FIRST, 4096, 0)?;
    bank.crash(seed);
    if member < 3 {
        bank.remove(member + 1);
    }
    let there = says(alloc, &mut bank, "session", "A 1 0\n", 0, AT_ONE)?;
    let none = says(alloc, &mut bank, "session", "A 1 0\n", 0, "no ahead 0\n")?;
    assert!(rt; there != none, "{calls} {seed} {member}");
    assert!(rt; says(alloc, &mut bank, "session", "A 0 0\n", 0, AT_ZEROS)?);
    Ok(there)
}

#[test]
fn a_stop_leaves_an_instant_or_none(rt: HostRuntime) -> Result<(), Fail> {
    let mut is_torn = [false; 4];
    for calls in 0..40 {
        for member in 0..4u8 {
            let kept = is_instant(&rt, rt.alloc(), calls, 0, member)?;
            let given_back = is_instant(&rt, rt.alloc(), calls, 1, member)?;
            assert!(rt; kept || !given_back, "{calls} {member}");
            is_torn[member as usize] = is_torn[member as usize] || kept && !given_back;
        }
    }
    // The head's last gate was written, and not yet synced.
    assert!(rt; is_torn[0] && is_torn[1] && is_torn[2] && is_torn[3]);
    // The longest fuse outlasts the write: no call of it is left out above.
    assert!(rt; is_instant(&rt, rt.alloc(), 40, 1, 3)?);
    Ok(())
}
