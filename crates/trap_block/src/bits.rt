//! Exclusive-or, and whether there is anything but zeros.

ghost use Rattle.std.specs.Prelude.{◌≡◌, ◌↔◌, ◌≤◌, ◌<◌, ℕ, length, slice_index, bit_xor, IsTrue};
ghost use Rattle.trap_block.specs.Xor.{xor, zeros};

use crate::lanes::xor32;
use crate::zeros::zeros_from;
use std::simd::prelude::*;

/// Each byte of `dst` becomes its exclusive-or with the byte of `src` at the same place.
#[tactic(auto, using(crate::proofs::XorLemmas::xor_from_bytes))]
pub fn xor_into(dst: &mut [u8], src: &[u8])
    requires same_size { length dst.old ≡ length src.now }
    ensures { dst.new ≡ xor dst.old src.now }
{
    let mut at = 0;
    while dst.len() - at >= 32 {
        let both = xor32(u8x32::from_slice(&dst[at..]), u8x32::from_slice(&src[at..]));
        both.copy_to_slice(&mut dst[at..]);
        at += 32;
    }
    xor_from(dst, src, at);
}

// The same from a place on, byte by byte.
fn xor_from(dst: &mut [u8], src: &[u8], at: usize)
    requires same_size { length dst.old ≡ length src.now }
    requires inside { at ≤ length src.now }
    ensures size { length dst.new ≡ length dst.old }
    ensures done { (k : ℕ) → at ≤ k → k < length src.now
        → slice_index dst.new k ≡ bit_xor (slice_index dst.old k) (slice_index src.now k) }
    ensures still { (k : ℕ) → k < at → slice_index dst.new k ≡ slice_index dst.old k }
{
    for i in at..src.len() {
        dst[i] ^= src[i];
    }
}

/// Whether each byte is zero.
pub fn is_zero(bytes: &[u8]) -> bool
    ensures { IsTrue result ↔ (bytes.now ≡ zeros (length bytes.now)) }
{
    zeros_from(bytes, 0) == bytes.len()
}
