//! Runs of `history`.

use super::{CREATE, WRITES, ended, says, with_array};
use std::alloc::{AllocError, Global};
use std::process::Abort;
use std::test::Fail;
use trap_bank::MemoryBank;

const BOTH: &str = "1 100 0 35 -\n2 100 0 30 -\n";

#[test]
fn each_entry_has_a_line(rt: HostRuntime) -> Result<(), Fail> {
    let alloc = rt.alloc();
    let mut bank = with_array(&rt, alloc)?;
    assert!(rt; says(alloc, &mut bank, "history", "R 0\n", 0, "")?);
    assert!(rt; says(alloc, &mut bank, "session", WRITES, 0, "ok 1\nok 2\n")?);
    assert!(rt; says(alloc, &mut bank, "history", "R 0\n", 0, BOTH)?);
    Ok(())
}

#[test]
fn a_history_is_refused(rt: HostRuntime) -> Result<(), Fail> {
    let alloc = rt.alloc();
    let mut none = MemoryBank::new(alloc)?;
    assert!(rt; says(alloc, &mut none, "history", "", 3, "fault not an array\n")?);
    let mut bank = with_array(&rt, alloc)?;
    bank.remove(1);
    bank.remove(3);
    assert!(rt; says(alloc, &mut bank, "history", "", 5, "fault lost 0 2\n")?);
    for words in ["history 1", "histories", "create history"] {
        let mut bank = MemoryBank::new(alloc)?;
        assert!(rt;
            says(alloc, &mut bank, words, "", 2, "fault usage\n")?,
            "{words}"
        );
    }
    Ok(())
}

// Whether the statuses of a history of two entries, whose calls fail in turn, come with what is
// said.
fn is_failing(status: u8, said: &[u8]) -> bool {
    match status {
        0 => said == BOTH.as_bytes(),
        6 => said == "fault log\n".as_bytes(),
        7 => {
            said == "fault members 0 0\n".as_bytes()
                || said == "fault members 1 1\n".as_bytes()
                || said == "fault members 2 2\n".as_bytes()
        }
        9 => BOTH.as_bytes().starts_with(said),
        _ => false,
    }
}

#[test]
fn each_call_of_a_history_fails_in_turn(rt: HostRuntime) -> Result<(), Fail> {
    let alloc = rt.alloc();
    let mut statuses = [false; 256];
    for call in 70..100 {
        let mut bank = with_array(&rt, alloc)?;
        assert!(rt; says(alloc, &mut bank, "session", WRITES, 0, "ok 1\nok 2\n")?);
        let before = bank.said().len();
        bank.fail_at(call);
        let status = ended(alloc, &mut bank, "history", "", 4096, 0)?;
        let said = bank.said();
        assert!(rt;
            before <= said.len() && is_failing(status, &said[before..]),
            "{call} {status}"
        );
        statuses[status as usize] = true;
    }
    assert!(rt; statuses[0] && statuses[6] && statuses[7] && statuses[9]);
    Ok(())
}

/// The first of the two writes.
const FIRST: &str = "W 100 0 01000000000000000000000000000000\n";

// Whether one write, stopped after that many calls and crashed, is in the history. It is where it
// was replied to.
fn is_kept(rt: &impl Abort, alloc: Global, calls: u64, seed: u64) -> Result<bool, AllocError> {
    let mut bank = with_array(rt, alloc)?;
    let created = bank.said().len();
    bank.fuse(calls);
    ended(alloc, &mut bank, "session", FIRST, 4096, 0)?;
    let before = bank.said().len();
    bank.crash(seed);
    let status = ended(alloc, &mut bank, "history", "", 4096, 0)?;
    let said = bank.said();
    assert!(rt; status == 0 && created <= before && before <= said.len());
    let is_there = &said[before..] == "1 100 0 35 -\n".as_bytes();
    assert!(rt; is_there || before == said.len());
    assert!(rt; is_there || !said[created..before].contains(&b'\n'));
    Ok(is_there)
}

#[test]
fn a_stop_leaves_a_write_or_none(rt: HostRuntime) -> Result<(), Fail> {
    let mut is_torn = false;
    for calls in 0..40 {
        let kept = is_kept(&rt, rt.alloc(), calls, 0)?;
        let given_back = is_kept(&rt, rt.alloc(), calls, 1)?;
        assert!(rt; kept || !given_back, "{calls}");
        is_torn = is_torn || kept && !given_back;
    }
    // The head's last gate was written, and not yet synced.
    assert!(rt; is_torn && is_kept(&rt, rt.alloc(), 40, 1)?);
    Ok(())
}

#[test]
fn many_lines_come_whole(rt: HostRuntime) -> Result<(), Fail> {
    let alloc = rt.alloc();
    let mut bank = MemoryBank::new(alloc)?;
    let create = "create 7 3 1 16 4 1 2 150 8192";
    assert!(rt; says(alloc, &mut bank, create, "", 0, "created 7\n")?);
    let mut input = String::new(alloc);
    let mut replies = String::new(alloc);
    let mut lines = String::new(alloc);
    for seq in 1..151 {
        input.push_str("W 18446744073709551615 7 00000000000000000000000000000000\n")?;
        replies.push_str(format!(in alloc; "ok {seq}\n")?.as_str())?;
        lines.push_str(format!(in alloc; "{seq} 18446744073709551615 7 30 -\n")?.as_str())?;
    }
    assert!(rt; 4096 < lines.len());
    assert!(rt;
        says(
            alloc,
            &mut bank,
            "session",
            input.as_str(),
            0,
            replies.as_str()
        )?
    );
    assert!(rt; says(alloc, &mut bank, "history", "", 0, lines.as_str())?);
    Ok(())
}
