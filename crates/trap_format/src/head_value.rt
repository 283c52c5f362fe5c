//! The head's value: how it is spelled, and which bytes are one.

ghost use Rattle.std.specs.Prelude.{◌≡◌, ◌↔◌, ◌^◌, ◌<◌, ◌≤◌, IsTrue, IfSome, IfNone};
ghost use Rattle.std.specs.Option.{ForSome};
ghost use Rattle.trap_format.specs.declared.head.Head.{Head};
ghost use Rattle.trap_format.specs.HeadValue.{lost_byte, head_value, IsLostInRange, KeepsNumbers};
ghost use Rattle.trap_format.specs.HeadValue.{KeepsOffsets, IsEmpty, IsHead, IsHeadValue};
ghost use Rattle.trap_format.specs.HeadValue.{HeadStandsIn, HeadFits};

use crate::head::Head;
use crate::layout::HEAD_VALUE_BYTES;
use crate::limits::greatest_record;
use crate::pieces::put_byte;
use trap_block::{get_u32, get_u64, put_u32, put_u64};
use trap_model::Geometry;

// Where each number begins in the value.
const VERSION_AT: usize = 0;

const LOST_AT: usize = 1;

const REBUILT_AT: usize = 2;

const FIRST_AT: usize = 6;

const BASE_TIME_AT: usize = 14;

const FIRST_OFF_AT: usize = 22;

const LAST_AT: usize = 30;

const END_OFF_AT: usize = 38;

const DRAINED_AT: usize = 46;

const LAST_TIME_AT: usize = 54;

/// The greatest sequence number.
const LAST_NUMBER: u64 = 1 << 40;

/// Writes the value. A lost member is below 16.
pub fn spell_head(h: &Head, out: &mut [u8; HEAD_VALUE_BYTES])
    requires { ForSome h.now.lost (λ member. member < 16) }
    ensures { out.new ≡ head_value h.now }
{
    put_byte(out, VERSION_AT, h.version);
    put_byte(out, LOST_AT, byte_of(h.lost));
    put_u32(out, REBUILT_AT, h.rebuilt);
    put_u64(out, FIRST_AT, h.first);
    put_u64(out, BASE_TIME_AT, h.base_time);
    put_u64(out, FIRST_OFF_AT, h.first_off);
    put_u64(out, LAST_AT, h.last);
    put_u64(out, END_OFF_AT, h.end_off);
    put_u64(out, DRAINED_AT, h.drained);
    put_u64(out, LAST_TIME_AT, h.last_time);
}

/// The head, where the bytes are the value of one of such an array.
pub fn read_head(g: &Geometry, bytes: &[u8; HEAD_VALUE_BYTES]) -> Option<Head>
    ensures some { IfSome result (λ h. IsHeadValue g.now h bytes.now) }
    ensures none { IfNone result ((h : Head) → ¬ IsHeadValue g.now h bytes.now) }
{
    let head = head_in(bytes);
    if is_head(g, &head) { Some(head) } else { None }
}

/// The byte of a lost member.
fn byte_of(lost: Option<u8>) -> u8
    requires { ForSome lost (λ member. member < 16) }
    ensures { result ≡ lost_byte lost }
{
    match lost {
        None => 0,
        Some(member) => member + 1,
    }
}

/// The lost member of a byte.
fn lost_of(byte: u8) -> Option<u8>
    ensures { lost_byte result ≡ byte }
{
    if byte == 0 { None } else { Some(byte - 1) }
}

/// The numbers at their places, whatever they are.
fn head_in(bytes: &[u8; HEAD_VALUE_BYTES]) -> Head
    ensures stands { HeadStandsIn bytes.now result }
    ensures fits { HeadFits result }
{
    Head {
        version: bytes[VERSION_AT],
        lost: lost_of(bytes[LOST_AT]),
        rebuilt: get_u32(bytes, REBUILT_AT),
        first: get_u64(bytes, FIRST_AT),
        base_time: get_u64(bytes, BASE_TIME_AT),
        first_off: get_u64(bytes, FIRST_OFF_AT),
        last: get_u64(bytes, LAST_AT),
        end_off: get_u64(bytes, END_OFF_AT),
        drained: get_u64(bytes, DRAINED_AT),
        last_time: get_u64(bytes, LAST_TIME_AT),
    }
}

/// Whether these can be a head's numbers.
fn is_head(g: &Geometry, h: &Head) -> bool
    requires { h.now.last_time < 2 ^ 64 }
    ensures { IsTrue result ↔ IsHead g.now h.now }
{
    h.version == 1
        && keeps_lost(g, h)
        && keeps_numbers(g, h)
        && keeps_offsets(g, h)
        && h.base_time <= h.last_time
        && (h.first != h.last || is_empty(h))
}

fn keeps_lost(g: &Geometry, h: &Head) -> bool
    ensures { IsTrue result ↔ IsLostInRange g.now h.now }
{
    match h.lost {
        None => h.rebuilt == 0,
        Some(member) => member < g.members && h.rebuilt < g.rows,
    }
}

fn keeps_numbers(g: &Geometry, h: &Head) -> bool
    ensures { IsTrue result ↔ KeepsNumbers g.now h.now }
{
    h.first <= h.drained
        && h.drained <= h.last
        && h.last <= LAST_NUMBER
        && h.last <= h.drained + g.slots as u64
        && h.last <= h.first + g.entries as u64
}

fn keeps_offsets(g: &Geometry, h: &Head) -> bool
    requires { h.now.last ≤ 2 ^ 40 }
    ensures { IsTrue result ↔ KeepsOffsets g.now h.now }
{
    h.first_off <= h.end_off
        && h.end_off - h.first_off <= g.ring
        && h.end_off <= h.last * greatest_record(g.block as u64)
}

fn is_empty(h: &Head) -> bool
    ensures { IsTrue result ↔ IsEmpty h.now }
{
    h.first_off == h.end_off && h.base_time == h.last_time
}
