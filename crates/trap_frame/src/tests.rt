use crate::{Frame, FrameFault, Frames, Next, spell};
use std::test::Fail;
use trap_bank::{MemorySource, Source};

/// Two frames of array 7 over blocks of 16 bytes: 43 bytes, and 38.
const STREAM: [u8; 81] =
    *b"TPF1\0\0\0\0\0\0\0\x07\0\0\0\0\0\0\0\x01\0\0\0\0\0\0\0\x64\0\0\0\0\0\x09\0\0\0\x01\x01\0\x0f\0\0TPF1\0\0\0\0\0\0\0\x07\0\0\0\0\0\0\0\x02\0\0\0\0\0\0\0\x64\0\0\0\0\0\x04\0\x10\0\0";

/// The header of the first frame, and of the second.
fn header(second: bool) -> Frame {
    let (seq, length) = if second { (2, 4) } else { (1, 9) };
    Frame {
        id: 7,
        seq,
        time: 100,
        block: 0,
        length,
    }
}

#[test]
fn frames_are_written_byte_for_byte(rt: HostRuntime) {
    let mut out = [0xee; 81];
    let first = Frame {
        id: 7,
        seq: 1,
        time: 100,
        block: 0,
        length: 9,
    };
    let len = spell(&first, &[0, 0, 0, 1, 1, 0, 15, 0, 0], &mut out);
    assert_eq!(rt; len, 43);
    let second = Frame {
        seq: 2,
        length: 4,
        ..first
    };
    let len = spell(&second, &[0, 16, 0, 0], &mut out[43..]);
    assert_eq!(rt; len, 38);
    assert_eq!(rt; out.as_slice(), STREAM.as_slice());
}

/// What a reader answers at the end of this many bytes of the stream, which have whole frames up to
/// `at`.
fn ending(len: u64) -> Result<Next, FrameFault> {
    let at = if len < 43 { 0 } else { 43 };
    match len {
        0 | 43 | 81 => Ok(Next::End),
        _ => Err(FrameFault::Cut { at }),
    }
}

#[test]
fn a_stream_cut_after_each_length_ends_as_it_should(rt: HostRuntime) -> Result<(), Fail> {
    for piece in [1, 100] {
        for len in 0..82usize {
            let mut source = MemorySource::new(rt.alloc(), &STREAM[..len])?;
            source.pieces(piece);
            let mut frames = Frames::new(rt.alloc(), 16)?;
            let mut parity = [9; 16];
            if len >= 43 {
                let next = frames.next(&mut source, &mut parity);
                assert_eq!(rt; next, Ok(Next::Frame(header(false))), "first of {len}");
                assert_eq!(rt; parity[0], 1);
                assert_eq!(rt; parity[1], 0);
            }
            if len == 81 {
                let next = frames.next(&mut source, &mut parity);
                assert_eq!(rt; next, Ok(Next::Frame(header(true))), "second of {len}");
                assert_eq!(rt; parity, [0; 16]);
            }
            let want = ending(len as u64);
            assert_eq!(rt; frames.next(&mut source, &mut parity), want, "after {len}");
            assert_eq!(rt;
                frames.next(&mut source, &mut parity),
                want,
                "again after {len}"
            );
        }
    }
    Ok(())
}

#[test]
fn each_changed_byte_of_a_header_or_a_code_is_seen(rt: HostRuntime) -> Result<(), Fail> {
    // The magic bytes, the number, the length, and the code.
    for (at, byte) in [
        (0, 0x55),
        (19, 0),
        (12, 1),
        (33, 3),
        (33, 24),
        (36, 2),
        (38, 0),
    ] {
        let mut bytes = STREAM;
        bytes[at] = byte;
        let mut source = MemorySource::new(rt.alloc(), &bytes)?;
        let mut frames = Frames::new(rt.alloc(), 16)?;
        let mut parity = [0; 16];
        let want = Err(FrameFault::BadFrame { at: 0 });
        assert_eq!(rt; frames.next(&mut source, &mut parity), want, "byte {at}");
    }
    Ok(())
}

#[test]
fn after_a_failure_of_the_source_nothing_more_is_taken(rt: HostRuntime) -> Result<(), Fail> {
    let mut source = MemorySource::new(rt.alloc(), &STREAM)?;
    source.pieces(10);
    source.fail_at(3);
    let mut frames = Frames::new(rt.alloc(), 16)?;
    let mut parity = [0; 16];
    assert_eq!(rt;
        frames.next(&mut source, &mut parity),
        Err(FrameFault::ReadFault)
    );
    assert_eq!(rt;
        frames.next(&mut source, &mut parity),
        Err(FrameFault::ReadFault)
    );
    let mut rest = [0; 81];
    source.pieces(100);
    assert_eq!(rt; source.take(&mut rest), Ok(61));
    Ok(())
}
