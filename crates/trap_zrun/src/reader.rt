//! Reads the code of a block.

ghost use Rattle.std.specs.Prelude.{◌≡◌, ℕ, ◌+◌, ◌^◌, ◌<◌, ◌≤◌, ◌↔◌, List, length, take, drop};
ghost use Rattle.std.specs.Prelude.{IsTrue, IsOk, IfOk, IfErr, OnOk, IfSome, IfNone};
ghost use Rattle.trap_model.specs.ZeroRun.{ZeroRun, IsCode, IsRefused, IsLiteral, KeepsRules};
ghost use Rattle.trap_model.specs.ZeroRun.{NoneFollows};
ghost use Rattle.trap_zrun.specs.Scans.{IsNextSegment};

use crate::pieces::put_contents;
use trap_block::{four_zeros_before, get_u16};

// Whether that many of the bytes are a literal.
#[inline]
fn is_literal(bytes: &[u8], len: usize) -> bool
    requires some { 1 ≤ len }
    requires inside { len ≤ length bytes.now }
    ensures { IsTrue result ↔ IsLiteral (take len bytes.now) }
{
    if bytes[0] == 0 {
        return false;
    }
    if bytes[len - 1] == 0 {
        return false;
    }

    // The last byte isn't zero, so no four zero bytes reach past it.
    four_zeros_before(bytes, 0, len) == len
}

// Whether a segment of that many zero bytes, and of that many of these bytes as its literal, keeps
// the rules.
#[inline]
fn follows(least: usize, owed: usize, zeros: usize, bytes: &[u8], len: usize) -> bool
    requires some { 1 ≤ owed }
    requires inside { len ≤ length bytes.now }
    ensures { IsTrue result
        ↔ KeepsRules least owed (record { zeros = zeros; literal = take len bytes.now }) }
{
    if len == 0 {
        zeros == owed
    } else {
        zeros >= least && zeros <= owed && len <= owed - zeros && is_literal(bytes, len)
    }
}

// The segment at the front of the bytes: its zero bytes and its literal.
#[inline]
fn next_segment(bytes: &[u8], least: usize, owed: usize) -> Option<(usize, &[u8])>
    requires some { 1 ≤ owed }
    requires small { owed < 2 ^ 16 }
    ensures found { IfSome result (λ next. IsNextSegment least owed bytes.now
        (record { zeros = next.0; literal = next.1.now })) }
    ensures none { IfNone result (NoneFollows least owed bytes.now) }
{
    if bytes.len() < 4 {
        return None;
    }
    let zeros = usize::from(get_u16(bytes, 0));
    let len = usize::from(get_u16(bytes, 2));
    let rest = &bytes[4..];
    if rest.len() < len {
        return None;
    }
    if !follows(least, owed, zeros, rest, len) {
        return None;
    }
    Some((zeros, &rest[..len]))
}

/// Bytes that spell no block of the size asked. `at` is the offset of the first byte of the first
/// segment that isn't whole, breaks a rule or goes past the end of the block; or of the first byte
/// after the last segment.
#[derive(Clone, Copy, Debug, PartialEq, Eq)]
pub struct BadCode {
    pub at: usize,
}

// The segment at a place, where one follows.
fn segment_at(bytes: &[u8], at: usize, least: usize, owed: usize) -> Result<(usize, &[u8]), BadCode>
    requires inside { at ≤ length bytes.now }
    requires some { 1 ≤ owed }
    requires small { owed < 2 ^ 16 }
    ensures found { IfOk result (λ next. IsNextSegment least owed (drop at bytes.now)
        (record { zeros = next.0; literal = next.1.now })) }
    ensures none { IfErr result (λ bad.
        (bad.at ≡ at) × NoneFollows least owed (drop at bytes.now)) }
{
    match next_segment(&bytes[at..], least, owed) {
        Some(next) => Ok(next),
        None => Err(BadCode { at }),
    }
}

// No byte follows the last segment, which ends at a place.
fn end_at(bytes: &[u8], at: usize) -> Result<(), BadCode>
    requires { at ≤ length bytes.now }
    ensures end { OnOk result (length bytes.now ≤ at) }
    ensures more { IfErr result (λ bad. (bad.at ≡ at) × (at < length bytes.now)) }
{
    if at < bytes.len() {
        return Err(BadCode { at });
    }
    Ok(())
}

/// Fills `out` with the block that the bytes spell. After a refusal it holds any bytes.
pub fn decode(bytes: &[u8], out: &mut [u8]) -> Result<(), BadCode>
    requires { length out.old < 2 ^ 16 }
    ensures decoded { OnOk result (ZeroRun out.new bytes.now) }

    // It answers Ok wherever the bytes spell a block of that size, and the block is that one.
    ensures only { (block : List ℕ) → length block ≡ length out.old → ZeroRun block bytes.now
        → IsOk result × (out.new ≡ block) }
    ensures refused { IfErr result (λ bad. IsRefused (length out.old) bytes.now bad.at) }
{
    let mut at = 0;
    let mut filled = 0;
    let mut least = 0;
    while filled < out.len() {
        let (zeros, literal) = segment_at(bytes, at, least, out.len() - filled)?;
        filled = put_contents(out, filled, zeros, literal);
        at += 4 + literal.len();
        least = 4;
    }
    end_at(bytes, at)?;
    Ok(())
}

/// Whether the bytes spell a block of that size: `decode` without a place for the block.
pub fn check(bytes: &[u8], size: usize) -> Result<(), BadCode>
    requires { size < 2 ^ 16 }
    ensures spelled { IsOk result ↔ IsCode size bytes.now }
    ensures refused { IfErr result (λ bad. IsRefused size bytes.now bad.at) }
{
    let mut at = 0;
    let mut filled = 0;
    let mut least = 0;
    while filled < size {
        let (zeros, literal) = segment_at(bytes, at, least, size - filled)?;
        filled += zeros + literal.len();
        at += 4 + literal.len();
        least = 4;
    }
    end_at(bytes, at)?;
    Ok(())
}
