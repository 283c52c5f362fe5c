//! Headers and heads of a small array, byte by byte, and every limit at both of its ends.

use super::*;
use trap_block::{put_u32, put_u64};
use trap_model::{Asked, Geometry};

fn eight_blocks() -> Geometry {
    Geometry {
        id: 7,
        members: 3,
        chunk: 1,
        block: 16,
        rows: 4,
        slots: 1,
        gap: 2,
        entries: 8,
        ring: 2048,
    }
}

const LOG_HEADER: [u8; 64] = [
    0xa5, 0x54, 0x52, 0x50, 0x4c, 0, 0, 0, 0, 0, 0, 0, 7, 3, 1, 0, 0x10, 0, 0, 0, 4, 1, 2, 0, 0, 0,
    8, 0, 0, 0, 0, 0, 0, 8, 0, 0, 0, 0, 0, 0, 0, 0, 0, 0, 0, 0, 0, 0, 0, 0, 0, 0, 0, 0, 0, 0, 0, 0,
    0, 0, 0, 0, 0, 0,
];

#[test]
fn the_log_header_of_eight_blocks(rt: HostRuntime) {
    let g = eight_blocks();
    assert_eq!(rt; log_len(&g), 2284);
    let mut bytes = [0xff; 64];
    spell_log(&g, &mut bytes);
    assert_eq!(rt; bytes, LOG_HEADER);
    assert_eq!(rt; read_log(&bytes), Some(g));
}

/// A place of the log's header, and a byte that makes it none; whether it still begins as one.
const WRONG_BYTES: [(usize, u8, bool); 6] = [
    (0, 0, false),
    (1, 0x55, false),
    (13, 2, true),
    (21, 2, true),
    (35, 1, true),
    (63, 1, true),
];

#[test]
fn one_wrong_byte_in_the_log_header(rt: HostRuntime) {
    for (at, byte, begins) in WRONG_BYTES {
        let mut bytes = LOG_HEADER;
        if at < 64 {
            bytes[at] = byte;
        }
        assert!(rt; read_log(&bytes).is_none(), "with {byte} at {at}");
        assert_eq!(rt; is_log(&bytes), begins, "with {byte} at {at}");
    }
}

const MEMBER_HEADER: [u8; 16] = [0x54, 0x52, 0x50, 0x4d, 0, 0, 0, 0, 0, 0, 0, 7, 2, 0, 0, 0];

#[test]
fn the_header_of_a_member(rt: HostRuntime) {
    assert_eq!(rt; member_len(&eight_blocks()), 80);
    let mut bytes = [0xff; 16];
    spell_member(7, 2, &mut bytes);
    assert_eq!(rt; bytes, MEMBER_HEADER);
    assert_eq!(rt; read_member(&bytes), Some((7, 2)));
    bytes[15] = 1;
    assert_eq!(rt; read_member(&bytes), None);
}

/// Members, chunk, block, rows, slots, gap, entries and ring, and the first that breaks its limit.
const LIMITS: [([u64; 8], Option<Field>); 33] = [
    ([3, 1, 16, 4, 1, 2, 8, 2048], None),
    ([16, 1, 16, 4, 1, 2, 8, 2048], None),
    ([2, 1, 16, 4, 1, 2, 8, 2048], Some(Field::Members)),
    ([17, 1, 16, 4, 1, 2, 8, 2048], Some(Field::Members)),
    ([3, 128, 16, 128, 1, 2, 8, 2048], None),
    ([3, 0, 16, 4, 1, 2, 8, 2048], Some(Field::Chunk)),
    ([3, 129, 16, 129, 1, 2, 8, 2048], Some(Field::Chunk)),
    ([3, 1, 4096, 4, 1, 2, 8, 16464], None),
    ([3, 1, 8, 4, 1, 2, 8, 2048], Some(Field::Block)),
    ([3, 1, 24, 4, 1, 2, 8, 2048], Some(Field::Block)),
    ([3, 1, 8192, 4, 1, 2, 8, 32848], Some(Field::Block)),
    ([3, 1, 16, 1, 1, 2, 8, 2048], None),
    ([3, 1, 16, 0, 1, 2, 8, 2048], Some(Field::Rows)),
    ([3, 2, 16, 5, 1, 2, 8, 2048], Some(Field::Rows)),
    ([3, 1, 16, 1048577, 1, 2, 8, 2048], Some(Field::Rows)),
    ([3, 1, 16, 1048576, 1, 2, 8, 2048], Some(Field::Volume)),
    ([3, 1, 16, 524288, 1, 2, 8, 2048], None),
    ([3, 1, 16, 524289, 1, 2, 8, 2048], Some(Field::Volume)),
    ([3, 1, 16, 4, 0, 2, 8, 2048], Some(Field::Slots)),
    ([3, 1, 16, 4, 2, 2, 8, 2048], Some(Field::Slots)),
    ([3, 1, 16, 4, 1, 255, 8, 2048], None),
    ([3, 1, 16, 4, 1, 1, 8, 2048], Some(Field::Gap)),
    ([3, 1, 16, 4, 1, 256, 8, 2048], Some(Field::Gap)),
    ([3, 1, 16, 4, 1, 2, 1, 2048], None),
    ([3, 1, 16, 4, 1, 2, 1048576, 2048], None),
    ([3, 1, 16, 4, 1, 2, 0, 2048], Some(Field::Entries)),
    ([3, 1, 16, 4, 1, 2, 1048577, 2048], Some(Field::Entries)),
    ([3, 1, 16, 4, 1, 2, 8, 144], None),
    ([3, 1, 16, 4, 1, 2, 8, 4294967296], None),
    ([3, 1, 16, 4, 1, 2, 8, 143], Some(Field::Ring)),
    ([3, 1, 16, 4, 1, 2, 8, 4294967297], Some(Field::Ring)),
    ([3, 0, 16, 0, 0, 2, 8, 0], Some(Field::Chunk)),
    ([3, 1, 16, 4, 0, 0, 0, 0], Some(Field::Slots)),
];

#[test]
fn each_limit_at_both_ends(rt: HostRuntime) {
    for ([members, chunk, block, rows, slots, gap, entries, ring], want) in LIMITS {
        let asked = Asked {
            id: 7,
            members,
            chunk,
            block,
            rows,
            slots,
            gap,
            entries,
            ring,
        };
        assert_eq!(rt;
            check(&asked).err().map(|bad| bad.field),
            want,
            "of {asked:?}"
        );
    }
}

/// Version, lost byte, rebuilt, first, base time, first offset, last, end offset, drained and last
/// time, and whether this is a head of the array.
const HEADS: [([u64; 10], bool); 25] = [
    ([1, 0, 0, 2, 20, 70, 3, 105, 3, 30], true),
    ([2, 0, 0, 2, 20, 70, 3, 105, 3, 30], false),
    ([1, 3, 0, 2, 20, 70, 3, 105, 3, 30], true),
    ([1, 4, 0, 2, 20, 70, 3, 105, 3, 30], false),
    ([1, 1, 3, 2, 20, 70, 3, 105, 3, 30], true),
    ([1, 1, 4, 2, 20, 70, 3, 105, 3, 30], false),
    ([1, 0, 1, 2, 20, 70, 3, 105, 3, 30], false),
    ([1, 0, 0, 2, 20, 70, 3, 105, 2, 30], true),
    ([1, 0, 0, 2, 20, 70, 3, 105, 1, 30], false),
    ([1, 0, 0, 2, 20, 70, 3, 105, 4, 30], false),
    ([1, 0, 0, 1, 20, 70, 3, 105, 1, 30], false),
    (
        [
            1,
            0,
            0,
            1099511627776,
            5,
            0,
            1099511627776,
            0,
            1099511627776,
            5,
        ],
        true,
    ),
    (
        [
            1,
            0,
            0,
            1099511627777,
            5,
            0,
            1099511627777,
            0,
            1099511627777,
            5,
        ],
        false,
    ),
    ([1, 0, 0, 0, 20, 70, 8, 105, 8, 30], true),
    ([1, 0, 0, 0, 20, 70, 9, 105, 9, 30], false),
    ([1, 0, 0, 2, 20, 106, 3, 105, 3, 30], false),
    ([1, 0, 0, 40, 20, 0, 45, 2048, 45, 30], true),
    ([1, 0, 0, 40, 20, 0, 45, 2049, 45, 30], false),
    ([1, 0, 0, 2, 20, 70, 3, 216, 3, 30], true),
    ([1, 0, 0, 2, 20, 70, 3, 217, 3, 30], false),
    ([1, 0, 0, 2, 30, 70, 3, 105, 3, 30], true),
    ([1, 0, 0, 2, 31, 70, 3, 105, 3, 30], false),
    ([1, 0, 0, 3, 30, 105, 3, 105, 3, 30], true),
    ([1, 0, 0, 3, 30, 104, 3, 105, 3, 30], false),
    ([1, 0, 0, 3, 29, 105, 3, 105, 3, 30], false),
];

fn value_of(numbers: &[u64; 10]) -> [u8; 62] {
    let mut bytes = [0; 62];
    bytes[0] = (numbers[0] & 0xff) as u8;
    bytes[1] = (numbers[1] & 0xff) as u8;
    put_u32(&mut bytes, 2, (numbers[2] & 0xff) as u32);
    for i in 0..7 {
        put_u64(&mut bytes, 6 + 8 * i, numbers[3 + i]);
    }
    bytes
}

#[test]
fn each_rule_of_a_head(rt: HostRuntime) {
    for (numbers, want) in &HEADS {
        let head = read_head(&eight_blocks(), &value_of(numbers));
        assert_eq!(rt; head.is_some(), *want, "of {numbers:?}");
    }
}

const HEAD_VALUE: [u8; 62] = [
    1, 3, 0, 0, 0, 3, 0, 0, 0, 0, 0, 0, 0, 2, 0, 0, 0, 0, 0, 0, 0, 20, 0, 0, 0, 0, 0, 0, 0, 70, 0,
    0, 0, 0, 0, 0, 0, 3, 0, 0, 0, 0, 0, 0, 0, 105, 0, 0, 0, 0, 0, 0, 0, 3, 0, 0, 0, 0, 0, 0, 0, 30,
];

#[test]
fn the_bytes_of_a_head(rt: HostRuntime) {
    let head = Head {
        version: 1,
        lost: Some(2),
        rebuilt: 3,
        first: 2,
        base_time: 20,
        first_off: 70,
        last: 3,
        end_off: 105,
        drained: 3,
        last_time: 30,
    };
    let mut bytes = [0xff; 62];
    spell_head(&head, &mut bytes);
    assert_eq!(rt; bytes, HEAD_VALUE);
    assert_eq!(rt; read_head(&eight_blocks(), &bytes), Some(head));
}
