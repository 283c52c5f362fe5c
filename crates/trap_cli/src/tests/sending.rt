//! The frames of an array's entries.

use super::{WRITES, says, says_bytes, with_array};
use std::test::Fail;

/// The frames of the two writes of `WRITES`: 43 bytes and 38.
pub const FRAMES: [u8; 81] = [
    0x54, 0x50, 0x46, 0x31, 0, 0, 0, 0, 0, 0, 0, 7, 0, 0, 0, 0, 0, 0, 0, 1, 0, 0, 0, 0, 0, 0, 0,
    0x64, 0, 0, 0, 0, 0, 9, 0, 0, 0, 1, 1, 0, 0x0f, 0, 0, 0x54, 0x50, 0x46, 0x31, 0, 0, 0, 0, 0, 0,
    0, 7, 0, 0, 0, 0, 0, 0, 0, 2, 0, 0, 0, 0, 0, 0, 0, 0x64, 0, 0, 0, 0, 0, 4, 0, 0x10, 0, 0,
];

#[test]
fn the_frames_after_a_number_are_said(rt: HostRuntime) -> Result<(), Fail> {
    let alloc = rt.alloc();
    let mut bank = with_array(&rt, alloc)?;
    assert!(rt; says(alloc, &mut bank, "session", WRITES, 0, "ok 1\nok 2\n")?);
    assert!(rt; says_bytes(alloc, &mut bank, "send 0", "W 1 0 00\n", 0, &FRAMES)?);
    assert!(rt; says_bytes(alloc, &mut bank, "send 1", "", 0, &FRAMES[43..])?);
    for (words, status, said) in [
        ("send 2", 0, ""),
        ("send 3", 14, "fault ahead 2\n"),
        ("send 01", 2, "fault usage\n"),
        ("send", 2, "fault usage\n"),
    ] {
        assert!(rt; says(alloc, &mut bank, words, "", status, said)?, "{words}");
    }
    Ok(())
}
