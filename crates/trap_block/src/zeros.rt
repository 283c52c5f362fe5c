//! Searches for zero bytes, thirty-two places at a time as far as that many are left.

ghost use Rattle.std.specs.Prelude.{◌≡◌, ◌↔◌, ℕ, ◌+◌, ◌<◌, ◌≤◌, length, slice_index};
ghost use Rattle.std.specs.Int.{bit_at};
ghost use Rattle.trap_block.specs.Zeros.{AreZeros, FourSet};

use crate::lanes::zero_mask;
use std::simd::prelude::*;

/// How many zero bytes stand in succession from a place on.
pub fn zeros_from(bytes: &[u8], at: usize) -> usize
    requires { at ≤ length bytes.now }
    ensures zeros { AreZeros bytes.now at result }
    ensures end { at + result < length bytes.now → 0 < slice_index bytes.now (at + result) }
{
    let mut end = at;
    while bytes.len() - end >= 32 {
        let zeros = low_bits_set(zeros_at(bytes, end));
        if zeros < 32 {
            return end + zeros - at;
        }
        end += 32;
    }
    end + zeros_one_by_one(bytes, end) - at
}

/// The first place from `at` on at which four zero bytes in succession begin, or the length where
/// there is none.
#[inline]
pub fn four_zeros(bytes: &[u8], at: usize) -> usize
    requires { at ≤ length bytes.now }
    ensures from { at ≤ result }
    ensures within { result ≤ length bytes.now }
    ensures found { result < length bytes.now → AreZeros bytes.now result 4 }
    ensures first { (place : ℕ) → at ≤ place → place < result → ¬ AreZeros bytes.now place 4 }
{
    four_zeros_before(bytes, at, bytes.len())
}

/// The first place from `at` on and before `stop` at which four zero bytes in succession begin,
/// or `stop` where there is none. The four may reach past `stop`.
pub fn four_zeros_before(bytes: &[u8], at: usize, stop: usize) -> usize
    requires order { at ≤ stop }
    requires inside { stop ≤ length bytes.now }
    ensures from { at ≤ result }
    ensures within { result ≤ stop }
    ensures found { result < stop → AreZeros bytes.now result 4 }
    ensures first { (place : ℕ) → at ≤ place → place < result → ¬ AreZeros bytes.now place 4 }
{
    let mut place = at;
    while place < stop && bytes.len() - place >= 32 {
        let found = four_bits_set(zeros_at(bytes, place));
        if found < 32 {
            return stop.min(place + found);
        }

        // Four zero bytes that begin at one of the last three places end after them.
        place += 29;
    }
    four_zeros_one_by_one(bytes, stop.min(place), stop)
}

// Bit k is set exactly where the byte k places further is zero.
#[inline(always)]
fn zeros_at(bytes: &[u8], at: usize) -> u32
    requires { at + 32 ≤ length bytes.now }
    ensures { (k : ℕ) → k < 32 → (bit_at result k ≡ 1) ↔ (slice_index bytes.now (at + k) ≡ 0) }
{
    zero_mask(u8x32::from_slice(&bytes[at..]))
}

// How many bits are set below the lowest one that isn't.
#[inline(always)]
fn low_bits_set(mask: u32) -> usize
    ensures bound { result ≤ 32 }
    ensures set { (k : ℕ) → k < result → bit_at mask k ≡ 1 }
    ensures end { result < 32 → bit_at mask result ≡ 0 }
{
    mask.trailing_ones() as usize
}

// The lowest place at which four set bits begin, or 32 where there is none.
#[inline(always)]
fn four_bits_set(mask: u32) -> usize
    ensures bound { result ≤ 32 }
    ensures found { result < 32 → FourSet mask result }
    ensures first { (place : ℕ) → place < result → ¬ FourSet mask place }
{
    let pairs = mask & (mask >> 1);
    let fours = pairs & (pairs >> 2);
    fours.trailing_zeros() as usize
}

// `zeros_from`, byte by byte.
fn zeros_one_by_one(bytes: &[u8], at: usize) -> usize
    requires { at ≤ length bytes.now }
    ensures zeros { AreZeros bytes.now at result }
    ensures end { at + result < length bytes.now → 0 < slice_index bytes.now (at + result) }
{
    let mut end = at;
    while end < bytes.len() && bytes[end] == 0 {
        end += 1;
    }
    end - at
}

// `four_zeros_before`, byte by byte.
fn four_zeros_one_by_one(bytes: &[u8], at: usize, stop: usize) -> usize
    requires order { at ≤ stop }
    requires inside { stop ≤ length bytes.now }
    ensures from { at ≤ result }
    ensures within { result ≤ stop }
    ensures found { result < stop → AreZeros bytes.now result 4 }
    ensures first { (place : ℕ) → at ≤ place → place < result → ¬ AreZeros bytes.now place 4 }
{
    let mut place = at;
    while place < stop {
        let zeros = zeros_one_by_one(bytes, place);
        if zeros >= 4 {
            return place;
        }
        place += zeros + 1;
    }
    stop
}
