ghost use Rattle.std.specs.Prelude.{◌≡◌, ◌+◌, ◌<◌, ◌≤◌, length};

use crate::{check, code, decode};

#[test]
fn each_worked_block_has_its_code(rt: HostRuntime) {
    let most = [0x11; 16];
    let mut tail = [0x11; 16];
    tail[15] = 0;
    let three = [0xaa, 0, 0, 0, 0xbb, 0, 0, 0, 0, 0, 0, 0, 0, 0, 0, 0];
    let four = [0xaa, 0, 0, 0, 0, 0xbb, 0, 0, 0, 0, 0, 0, 0, 0, 0, 0];
    let of_most = [
        0, 0, 0, 0x10, 0x11, 0x11, 0x11, 0x11, 0x11, 0x11, 0x11, 0x11, 0x11, 0x11, 0x11, 0x11,
        0x11, 0x11, 0x11, 0x11,
    ];
    let of_tail = [
        0, 0, 0, 0x0f, 0x11, 0x11, 0x11, 0x11, 0x11, 0x11, 0x11, 0x11, 0x11, 0x11, 0x11, 0x11,
        0x11, 0x11, 0x11, 0, 1, 0, 0,
    ];
    let of_three = [0, 0, 0, 5, 0xaa, 0, 0, 0, 0xbb, 0, 0x0b, 0, 0];
    let of_four = [0, 0, 0, 1, 0xaa, 0, 4, 0, 1, 0xbb, 0, 0x0a, 0, 0];
    let mut out = [0xee; 23];
    let len = code(&[0; 16], &mut out);
    assert_eq!(rt; &out[..len], [0, 0x10, 0, 0].as_slice());
    let len = code(&most, &mut out);
    assert_eq!(rt; &out[..len], of_most.as_slice());
    let len = code(&tail, &mut out);
    assert_eq!(rt; &out[..len], of_tail.as_slice());
    let len = code(&three, &mut out);
    assert_eq!(rt; &out[..len], of_three.as_slice());
    let len = code(&four, &mut out);
    assert_eq!(rt; &out[..len], of_four.as_slice());
}

// Where a code of 16 bytes is refused; 99 where it isn't, and 98 where `decode` and `check` differ.
fn refused_at(bytes: &[u8]) -> usize {
    let mut out = [0xee; 16];
    let by_check = match check(bytes, 16) {
        Ok(()) => 99,
        Err(bad) => bad.at,
    };
    let by_decode = match decode(bytes, &mut out) {
        Ok(()) => 99,
        Err(bad) => bad.at,
    };
    if by_check == by_decode { by_check } else { 98 }
}

#[test]
fn each_wrong_code_is_refused_at_its_place(rt: HostRuntime) {
    let short_inner_run = [0, 0, 0, 1, 0xaa, 0, 3, 0, 1, 0xbb, 0, 0x0b, 0, 0];
    assert_eq!(rt; refused_at(&short_inner_run), 5);
    assert_eq!(rt; refused_at(&[0, 0x10, 0, 0, 0]), 4);
    assert_eq!(rt; refused_at(&[0, 0x0f, 0, 0]), 0);
    assert_eq!(rt; refused_at(&[]), 0);
    assert_eq!(rt; refused_at(&[0, 0x10, 0, 0]), 99);
}

// Whether the block's code is read as the block, without its last byte as no code, and with a byte
// after it as one that ends there.
fn goes_round(block: &[u8]) -> bool
    requires { length block.now ≤ 4096 }
{
    let mut out = [0xee; 4104];
    let mut back = [0xee; 4096];
    let size = block.len();
    let len = code(block, &mut out[..size + 7]);
    if len < 4 || check(&out[..len], size).is_err() {
        return false;
    }
    if decode(&out[..len], &mut back[..size]).is_err() || &back[..size] != block {
        return false;
    }
    match check(&out[..len + 1], size) {
        Ok(()) => false,
        Err(bad) => bad.at == len && check(&out[..len - 1], size).is_err(),
    }
}

// Makes a run of zero bytes, as far as the block goes.
fn make_run(block: &mut [u8], at: usize, len: usize) {
    for byte in block.iter_mut().skip(at).take(len) {
        *byte = 0;
    }
}

#[test]
fn blocks_of_each_size_with_runs_at_each_edge_go_round(rt: HostRuntime) {
    for size in [16, 32, 64, 128, 256, 512, 1024, 2048, 4096] {
        for first in 0..6 {
            for last in 0..6 {
                for middle in 0..6 {
                    let mut bytes = [0x5a; 4096];
                    let block = &mut bytes[..size];
                    make_run(block, 0, first);
                    make_run(block, size / 2, middle);
                    make_run(block, size - last, last);
                    assert!(rt;
                        goes_round(block),
                        "{size} bytes with runs of {first}, {middle}, {last}"
                    );
                }
            }
        }
    }
}

#[test]
fn a_run_at_each_place_and_of_each_length_goes_round(rt: HostRuntime) {
    for at in 0..32 {
        for len in 0..33 {
            let mut bytes = [0x5a; 32];
            make_run(&mut bytes, at, len);
            assert!(rt; goes_round(&bytes), "a run of {len} at {at}");
            let mut other = [0; 32];
            for byte in other.iter_mut().skip(at).take(len) {
                *byte = 0xa5;
            }
            assert!(rt; goes_round(&other), "a literal of {len} at {at}");
        }
    }
}
