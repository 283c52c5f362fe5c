//! Runs over a bank, a source and turns in memory, and the trusted edge over real files.

ghost use Rattle.std.specs.Prelude.{◌≡◌, ◌+◌, ◌≤◌, ℕ, length, IsTrue};
ghost use Rattle.trap_bank.specs.Calls.{Fits};

mod instants;
mod listing;
mod replica;
mod sending;
mod stops;
mod worlds;

use crate::{FileBank, StdinSource, run};
use std::alloc::{AllocError, Global};
use std::process::Abort;
use std::test::Fail;
use trap_bank::{Bank, MemoryBank, MemorySource, Source, Steady};
use trap_format::{Head, spell_head};

/// Three members, a block a chunk, blocks of 16 bytes, four rows: eight blocks. The ring stands at
/// byte 236.
pub const CREATE: &str = "create 7 3 1 16 4 1 2 8 2048";

const ZEROS: &str = "is 00000000000000000000000000000000\n";

/// The same write twice.
pub const WRITES: &str =
    "W 100 0 01000000000000000000000000000000\nW 100 0 01000000000000000000000000000000\n";

// The status of a run of these words over that input, in pieces of that length; the source fails in
// that call of `take`, where there is one.
pub fn ended(
    alloc: Global,
    bank: &mut MemoryBank,
    text: &str,
    input: &str,
    piece: usize,
    failing_take: u64,
) -> Result<u8, AllocError> {
    ended_over(alloc, bank, text, input.as_bytes(), piece, failing_take)
}

// The same over bytes that are no text.
pub fn ended_over(
    alloc: Global,
    bank: &mut MemoryBank,
    text: &str,
    input: &[u8],
    piece: usize,
    failing_take: u64,
) -> Result<u8, AllocError> {
    let mut source = MemorySource::new(alloc, input)?;
    source.pieces(piece);
    source.fail_at(failing_take);
    let mut words = Vec::new(alloc);
    for word in text.split_whitespace() {
        words.push(String::from_str(alloc, word)?)?;
    }
    let mut turns = Steady::new();
    Ok(run(alloc, words.as_slice(), bank, &mut source, &mut turns))
}

// Whether a run of these words over that input ends with the status, and says just that.
pub fn says(
    alloc: Global,
    bank: &mut MemoryBank,
    text: &str,
    input: &str,
    status: u8,
    said: &str,
) -> Result<bool, AllocError> {
    says_bytes(alloc, bank, text, input, status, said.as_bytes())
}

// The same, of bytes that are no text.
pub fn says_bytes(
    alloc: Global,
    bank: &mut MemoryBank,
    text: &str,
    input: &str,
    status: u8,
    said: &[u8],
) -> Result<bool, AllocError> {
    let before = bank.said().len();
    let is = ended(alloc, bank, text, input, 4096, 0)?;
    let now = bank.said();
    Ok(is == status && before <= now.len() && &now[before..] == said)
}

// A bank with the array of `CREATE`.
pub fn with_array(rt: &impl Abort, alloc: Global) -> Result<MemoryBank, AllocError> {
    let mut bank = MemoryBank::new(alloc)?;
    assert!(rt; says(alloc, &mut bank, CREATE, "", 0, "created 7\n")?);
    Ok(bank)
}

// Writes bytes of a disk that is there and long enough.
fn put(rt: &impl Abort, bank: &mut MemoryBank, d: u8, at: u64, bytes: &[u8])
    requires disk { d ≤ 20 }
    requires small { at + length bytes.now ≤ 4096 }
{
    let end = at + bytes.len() as u64;
    match bank.size(d) {
        Some(len) if end <= len => {
            assert!(rt; bank.write(d, at, bytes).is_ok() && bank.sync(d).is_ok());
        }
        _ => assert!(rt; false),
    }
}

// Whether the disk has these bytes from an offset on.
fn has(bank: &MemoryBank, d: u8, at: usize, bytes: &[u8]) -> bool
    requires disk { d ≤ 20 }
    requires small { at + length bytes.now ≤ 4096 }
{
    match bank.disk(d) {
        Some(disk) => at + bytes.len() <= disk.len() && &disk[at..at + bytes.len()] == bytes,
        None => false,
    }
}

#[test]
fn an_array_is_made_and_written(rt: HostRuntime) -> Result<(), Fail> {
    let alloc = rt.alloc();
    let mut bank = with_array(&rt, alloc)?;
    assert!(rt; says(alloc, &mut bank, "session", "R 0\nQ\n", 0, ZEROS)?);
    assert!(rt; says(alloc, &mut bank, "session", WRITES, 0, "ok 1\nok 2\n")?);
    let first = [
        1, 0, 0, 0, 0, 0, 0, 0, 0, 1, 0, 0, 0, 0, 0, 0, 0, 0x64, 0, 0, 0, 0, 0, 9, 0, 0, 0, 0, 0,
        1, 1, 0, 0x0f, 0, 0,
    ];
    let second = [
        1, 0, 0, 0, 0, 0, 0, 0, 0, 2, 0, 0, 0, 0, 0, 0, 0, 0x64, 0, 0, 0, 0, 0, 4, 0, 0, 0, 0x10,
        0, 0,
    ];
    assert!(rt; has(&bank, 0, 236, &first) && has(&bank, 0, 271, &second));
    assert!(rt;
        says(
            alloc,
            &mut bank,
            "session",
            "R 0\nR 8\nI\n",
            0,
            "is 01000000000000000000000000000000\nno block\nis 0 2 0 100\n"
        )?
    );
    assert!(rt; bank.starved() == 0);
    Ok(())
}

#[test]
fn create_is_refused(rt: HostRuntime) -> Result<(), Fail> {
    let alloc = rt.alloc();
    let mut bank = with_array(&rt, alloc)?;
    assert!(rt; says(alloc, &mut bank, CREATE, "", 3, "fault exists 0\n")?);
    bank.remove(0);
    assert!(rt; says(alloc, &mut bank, CREATE, "", 3, "fault exists 1\n")?);
    for (words, said) in [
        ("create 7 3 1 24 4 1 2 8 2048", "fault geometry block\n"),
        ("create 7 3 1 16 4 1 2 8 143", "fault geometry ring\n"),
        ("create 7 3 1 16 4 2 2 8 2048", "fault geometry slots\n"),
        ("create 7 2 0 24 4 2 2 8 2048", "fault geometry members\n"),
    ] {
        let mut empty = MemoryBank::new(alloc)?;
        assert!(rt; says(alloc, &mut empty, words, "", 3, said)?, "{words}");
        assert!(rt; empty.size(0).is_none(), "{words}");
    }
    Ok(())
}

#[test]
fn other_words_are_refused(rt: HostRuntime) -> Result<(), Fail> {
    let alloc = rt.alloc();
    for words in [
        "",
        "sesion",
        "session 1",
        "create 7",
        "create 07 3 1 16 4 1 2 8 2048",
        "create 7 3 1 16 4 1 2 8 2048 1",
        "create 7 3 1 16 4 1 2 8 18446744073709551616",
        "health",
    ] {
        let mut bank = MemoryBank::new(alloc)?;
        assert!(rt;
            says(alloc, &mut bank, words, "R 0\n", 2, "fault usage\n")?,
            "{words}"
        );
    }
    Ok(())
}

#[test]
fn a_session_is_refused(rt: HostRuntime) -> Result<(), Fail> {
    let alloc = rt.alloc();
    let mut none = MemoryBank::new(alloc)?;
    assert!(rt;
        says(
            alloc,
            &mut none,
            "session",
            "R 0\n",
            3,
            "fault not an array\n"
        )?
    );

    let mut bank = with_array(&rt, alloc)?;
    bank.remove(1);
    bank.remove(3);
    assert!(rt; says(alloc, &mut bank, "session", "R 0\n", 5, "fault lost 0 2\n")?);

    let mut bank = with_array(&rt, alloc)?;
    assert!(rt; says(alloc, &mut bank, "session", WRITES, 0, "ok 1\nok 2\n")?);
    put(&rt, &mut bank, 0, 236, &[2]);
    assert!(rt;
        says(
            alloc,
            &mut bank,
            "session",
            "R 0\n",
            4,
            "fault damaged 236\n"
        )?
    );

    for (d, at, byte, status, said) in [
        (0, 66, 9, 3, "fault version 9\n"),
        (0, 0, 0, 3, "fault not an array\n"),
        (1, 12, 1, 5, "fault wrong member 0\n"),
    ] {
        let mut bank = with_array(&rt, alloc)?;
        put(&rt, &mut bank, d, at, &[byte]);
        assert!(rt;
            says(alloc, &mut bank, "session", "R 0\n", status, said)?,
            "{said}"
        );
    }
    Ok(())
}

#[test]
fn the_last_number_wears_an_array_out(rt: HostRuntime) -> Result<(), Fail> {
    let alloc = rt.alloc();
    let mut bank = with_array(&rt, alloc)?;
    let head = Head {
        version: 1,
        lost: None,
        rebuilt: 0,
        first: 1_099_511_627_776,
        base_time: 5,
        first_off: 0,
        last: 1_099_511_627_776,
        end_off: 0,
        drained: 1_099_511_627_776,
        last_time: 5,
    };
    let mut value = [0; 62];
    spell_head(&head, &mut value);
    put(&rt, &mut bank, 0, 66, &value);
    assert!(rt;
        says(
            alloc,
            &mut bank,
            "session",
            "W 5 0 00000000000000000000000000000000\nW 4 0 00000000000000000000000000000000\n",
            0,
            "no worn\nno time 5\n"
        )?
    );
    Ok(())
}

#[test]
fn a_source_that_fails_ends_a_session(rt: HostRuntime) -> Result<(), Fail> {
    let alloc = rt.alloc();
    let mut bank = with_array(&rt, alloc)?;
    let status = ended(alloc, &mut bank, "session", "R 0\nR 1\n", 4, 2)?;
    assert!(rt; status == 8);
    assert!(rt;
        bank.said() == "created 7\nis 00000000000000000000000000000000\nfault input\n".as_bytes()
    );
    Ok(())
}

// What one write and one read say when one call fails, by the status.
fn is_failing(status: u8, said: &[u8]) -> bool {
    let replies = "ok 1\nis 11111111111111111111111111111111\n".as_bytes();
    match status {
        0 => said == replies,
        6 => said == "fault log\n".as_bytes() || said == "ok 1\nfault log\n".as_bytes(),
        7 => {
            said == "fault members 0 0\n".as_bytes()
                || said == "fault members 1 1\n".as_bytes()
                || said == "fault members 2 2\n".as_bytes()
                || said == "ok 1\nfault members 0 0\n".as_bytes()
        }
        9 => replies.starts_with(said),
        _ => false,
    }
}

#[test]
fn each_call_fails_in_turn(rt: HostRuntime) -> Result<(), Fail> {
    let alloc = rt.alloc();
    let mut statuses = [false; 256];
    for call in 1..160 {
        let mut bank = with_array(&rt, alloc)?;
        bank.fail_at(call);
        let input = "W 1 0 11111111111111111111111111111111\nR 0\n";
        let status = ended(alloc, &mut bank, "session", input, 4096, 0)?;
        let said = bank.said();
        assert!(rt;
            10 <= said.len() && is_failing(status, &said[10..]),
            "{call} {status}"
        );
        statuses[status as usize] = true;
    }
    assert!(rt; statuses[0] && statuses[6] && statuses[7] && statuses[9]);
    Ok(())
}

#[test]
fn a_second_member_fails(rt: HostRuntime) -> Result<(), Fail> {
    let alloc = rt.alloc();
    let mut seen = false;
    for call in 1..120 {
        let mut bank = with_array(&rt, alloc)?;
        bank.remove(1);
        bank.fail_at(call);
        let status = ended(alloc, &mut bank, "session", "R 0\n", 4096, 0)?;
        let said = bank.said();
        let is_second = 10 <= said.len() && &said[10..] == "fault members 1 1\n".as_bytes();
        assert!(rt;
            status == 0 || status == 6 || status == 7 || status == 9,
            "{call} {status}"
        );
        seen = seen || status == 7 && is_second;
    }
    assert!(rt; seen);
    Ok(())
}

#[test]
fn files_are_disks(rt: HostRuntime) -> Result<(), Fail> {
    {
        // The folder is this bank's alone until the end of the block.
        let mut bank = FileBank::new(rt.clone()?, rt.alloc())?;
        assert!(rt; bank.size(0).is_none());
        assert!(rt; bank.make(0, 70000).is_ok());
        assert!(rt; bank.size(0) == Some(70000));
        assert!(rt; bank.write(0, 69998, &[1, 2]).is_ok() && bank.sync(0).is_ok());
    }
    let mut again = FileBank::new(rt.clone()?, rt.alloc())?;
    assert!(rt; again.size(0) == Some(70000));
    let mut end = [9u8; 4];
    assert!(rt; again.read(0, 69996, &mut end).is_ok() && end == [0, 0, 1, 2]);
    assert!(rt; again.size(1).is_none() && again.say(b"").is_ok());
    Ok(())
}

#[test]
fn input_ends(rt: HostRuntime) -> Result<(), Fail> {
    let mut source = StdinSource::new(rt.clone()?);
    let mut buf = [9u8; 4];
    assert!(rt; source.take(&mut buf) == Ok(0));
    Ok(())
}
