//! Thirty-two bytes at once.

ghost use Rattle.std.specs.Prelude.{◌≡◌, ◌↔◌, ◌<◌, ℕ, slice_index};
ghost use Rattle.std.specs.Int.{bit_at};
ghost use Rattle.trap_block.specs.Xor.{xor};

use std::simd::prelude::*;

/// The exclusive-or, lane by lane.
#[inline(always)]
pub fn xor32(a: u8x32, b: u8x32) -> u8x32
    ensures { result ≡ xor a b }
{
    a ^ b
}

/// Bit `i` is set exactly where lane `i` is zero.
#[inline(always)]
pub fn zero_mask(a: u8x32) -> u32
    ensures { (lane : ℕ) → lane < 32 → (bit_at result lane ≡ 1) ↔ (slice_index a lane ≡ 0) }
{
    a.simd_eq(u8x32::splat(0)).to_bitmask() as u32
}
