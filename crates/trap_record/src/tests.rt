use crate::{LogRec, ReadRec, read, spell};

// The first record of a small array: a byte 01 and fifteen zero bytes over zeros, at time 100.
const FIRST: [u8; 35] = [
    1, 0, 0, 0, 0, 0, 0, 0, 0, 1, 0, 0, 0, 0, 0, 0, 0, 0x64, 0, 0, 0, 0, 0, 9, 0, 0, 0, 0, 0, 1, 1,
    0, 0x0f, 0, 0,
];

// The second one, the same contents again, with a snapshot of them.
const SECOND: [u8; 39] = [
    1, 1, 0, 0, 0, 0, 0, 0, 0, 2, 0, 0, 0, 0, 0, 0, 0, 0x64, 0, 0, 0, 0, 0, 4, 0, 9, 0, 0x10, 0, 0,
    0, 0, 0, 1, 1, 0, 0x0f, 0, 0,
];

const FIRST_HEADER: LogRec = LogRec {
    snap: false,
    seq: 1,
    time: 100,
    block: 0,
    plen: 9,
    slen: 0,
};

const SECOND_HEADER: LogRec = LogRec {
    snap: true,
    seq: 2,
    time: 100,
    block: 0,
    plen: 4,
    slen: 9,
};

#[test]
fn each_worked_record_is_written_and_read(rt: HostRuntime) {
    let code = [0, 0, 0, 1, 1, 0, 0x0f, 0, 0];
    let mut out = [0xee; 60];
    assert_eq!(rt; spell(&FIRST_HEADER, &code, &[], &mut out), 35);
    assert_eq!(rt; &out[..35], FIRST.as_slice());
    assert_eq!(rt;
        read(&FIRST, 16),
        ReadRec::Whole {
            rec: FIRST_HEADER,
            used: 35
        }
    );
    assert_eq!(rt;
        read(&out, 16),
        ReadRec::Whole {
            rec: FIRST_HEADER,
            used: 35
        }
    );
    assert_eq!(rt;
        spell(&SECOND_HEADER, &[0, 0x10, 0, 0], &code, &mut out),
        39
    );
    assert_eq!(rt; &out[..39], SECOND.as_slice());
    assert_eq!(rt;
        read(&out, 16),
        ReadRec::Whole {
            rec: SECOND_HEADER,
            used: 39
        }
    );
}

#[test]
fn each_front_of_a_record_is_short(rt: HostRuntime) {
    for len in 0..35 {
        assert_eq!(rt; read(&FIRST[..len], 16), ReadRec::Short, "{len} bytes");
    }
    for len in 0..39 {
        assert_eq!(rt; read(&SECOND[..len], 16), ReadRec::Short, "{len} bytes");
    }
}

// The second record with one byte changed.
fn changed(at: usize, byte: u8) -> [u8; 39] {
    let mut bytes = SECOND;
    if at < 39 {
        bytes[at] = byte;
    }
    bytes
}

#[test]
fn each_break_is_found_at_its_place(rt: HostRuntime) {
    let breaks = [
        (0, 2, 0),
        (1, 2, 0),
        // The flag says that there is no snapshot, and there is one.
        (1, 0, 0),
        (9, 0, 0),
        // A number above 2^40.
        (4, 1, 0),
        (23, 3, 0),
        (23, 24, 0),
        (25, 3, 0),
        (25, 24, 0),
        // The first code stands for a byte too few; the second one has a zero as its literal, and
        // then stands for a byte too few.
        (27, 0x0f, 26),
        (34, 0, 30),
        (36, 0x0e, 35),
    ];
    for (at, byte, place) in breaks {
        assert_eq!(rt;
            read(&changed(at, byte), 16),
            ReadRec::Bad { at: place },
            "{byte} at {at}"
        );
    }
}
