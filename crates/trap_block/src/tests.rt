ghost use Rattle.std.specs.Prelude.{◌≤◌};

use crate::lanes::{xor32, zero_mask};
use crate::{
    four_zeros, get_u16, get_u32, get_u64, is_zero, put_u16, put_u32, put_u64, xor_into, zeros_from,
};
use std::simd::prelude::*;

#[test]
fn fields_are_big_endian_and_leave_the_rest(rt: HostRuntime) {
    let mut bytes = [0xaa; 16];
    put_u16(&mut bytes, 1, 0x0102);
    put_u32(&mut bytes, 3, 0x0304_0506);
    put_u64(&mut bytes, 7, 0x0708_090a_0b0c_0d0e);
    let wanted = [0xaa, 1, 2, 3, 4, 5, 6, 7, 8, 9, 10, 11, 12, 13, 14, 0xaa];
    assert_eq!(rt; bytes.as_slice(), wanted.as_slice());
    assert_eq!(rt; get_u16(&wanted, 1), 0x0102);
    assert_eq!(rt; get_u32(&wanted, 3), 0x0304_0506);
    assert_eq!(rt; get_u64(&wanted, 7), 0x0708_090a_0b0c_0d0e);
}

#[test]
fn exclusive_or_of_two_blocks(rt: HostRuntime) {
    let mut block = [0x0f, 0xff, 0x55, 0];
    xor_into(&mut block, &[0x35, 0xff, 0, 0x81]);
    assert_eq!(rt; block.as_slice(), [0x3a, 0, 0x55, 0x81].as_slice());
}

#[test]
fn one_byte_that_is_not_zero_is_seen_at_each_place(rt: HostRuntime) {
    assert!(rt; is_zero(&[0; 5]));
    for at in 0..5 {
        let mut bytes = [0; 5];
        bytes[at] = 0x80;
        assert!(rt; !is_zero(&bytes), "at {at}");
    }
}

#[test]
fn lanes_are_taken_one_by_one(rt: HostRuntime) {
    let mut a = [0x0f; 32];
    let mut b = [0x35; 32];
    a[0] = 0;
    a[31] = 0;
    b[31] = 0xff;
    let sum = xor32(u8x32::from_array(a), u8x32::from_array(b)).to_array();
    let mut wanted = [0x3a; 32];
    wanted[0] = 0x35;
    wanted[31] = 0xff;
    assert_eq!(rt; sum.as_slice(), wanted.as_slice());
    assert_eq!(rt; zero_mask(u8x32::from_array(a)), 0x8000_0001);
    assert_eq!(rt; zero_mask(u8x32::from_array(b)), 0);
}

#[test]
fn four_zeros_across_two_lanes_are_found(rt: HostRuntime) {
    let mut bytes = [1; 70];
    for byte in bytes.iter_mut().skip(30).take(4) {
        *byte = 0;
    }
    assert_eq!(rt; four_zeros(&bytes, 0), 30);
    assert_eq!(rt; four_zeros(&bytes, 31), 70);
    assert_eq!(rt; zeros_from(&bytes, 30), 4);
}

// Bytes from a place on are no longer zero.
fn end_zeros_at(bytes: &mut [u8], ones: usize) {
    for byte in bytes.iter_mut().skip(ones) {
        *byte = 1;
    }
}

#[test]
fn each_length_up_to_130_is_gone_over_whole(rt: HostRuntime) {
    for len in 0..131 {
        let mut sum = [0x0f; 130];
        let mut wanted = [0x0f; 130];
        for byte in wanted.iter_mut().take(len) {
            *byte = 0xaa;
        }
        xor_into(&mut sum[..len], &[0xa5; 130][..len]);
        assert_eq!(rt; sum.as_slice(), wanted.as_slice(), "of {len}");
        for zeros in len.saturating_sub(5)..len {
            let mut bytes = [0; 130];
            end_zeros_at(&mut bytes[..len], zeros);
            assert_eq!(rt; zeros_from(&bytes[..len], 0), zeros, "of {len}");
            assert!(rt; !is_zero(&bytes[..len]), "{zeros} of {len}");
            assert!(rt; is_zero(&bytes[..zeros]), "{zeros}");
        }
    }
}

// Whether four zero bytes are found at the end of that many bytes, and three aren't.
fn finds_four_at_the_end(len: usize) -> bool
    requires { len ≤ 130 }
{
    let mut bytes = [1; 130];
    for byte in bytes.iter_mut().take(len).skip(len.saturating_sub(4)) {
        *byte = 0;
    }
    let found = four_zeros(&bytes[..len], 0);
    for byte in bytes.iter_mut().take(len.saturating_sub(3)) {
        *byte = 1;
    }
    found == (if len < 4 { len } else { len - 4 }) && four_zeros(&bytes[..len], 0) == len
}

#[test]
fn four_zeros_at_the_end_of_each_length_up_to_130_are_found(rt: HostRuntime) {
    for len in 0..131 {
        assert!(rt; finds_four_at_the_end(len), "of {len}");
    }
}
