//! The log's disk: its size, and its header.

ghost use Rattle.std.specs.Prelude.{◌≡◌, ◌↔◌, take, IsTrue, IfSome, IfNone};
ghost use Rattle.trap_model.specs.declared.numbers.Geometry.{Geometry};
ghost use Rattle.trap_format.specs.LogDisk as disk;
ghost use Rattle.trap_format.specs.LogDisk.{log_size, log_start, log_header, ring_at, IsLogHeader};
ghost use Rattle.trap_format.specs.LogDisk.{StandsIn};

use crate::layout::{OPEN_GATE, SLOT_NUMBERS_BYTES, SLOTS_AT};
use crate::limits::check;
use crate::pieces::{begins_with, ends_in_zeros, put_byte, put_bytes};
use trap_block::{get_u16, get_u32, get_u64, put_u16, put_u32, put_u64};
use trap_model::{Asked, Geometry};

/// An open gate, and the magic bytes.
const START: [u8; 5] = [OPEN_GATE, b'T', b'R', b'P', b'L'];

// Where each number begins in the header; zeros follow the last one.
const ID_AT: usize = 5;

const MEMBERS_AT: usize = 13;

const CHUNK_AT: usize = 14;

const BLOCK_AT: usize = 15;

const ROWS_AT: usize = 17;

const SLOT_COUNT_AT: usize = 21;

const GAP_AT: usize = 22;

const ENTRIES_AT: usize = 23;

const RING_AT: usize = 27;

const ZEROS_AT: usize = 35;

/// The size of the log's disk in bytes.
pub fn log_len(g: &Geometry) -> u64
    ensures { result ≡ log_size g.now }
{
    ring_start(g) + ring_len(g)
}

/// Where the ring begins on the log's disk, after the staging slots.
pub fn ring_start(g: &Geometry) -> u64
    ensures { result ≡ ring_at g.now }
{
    SLOTS_AT + g.slots as u64 * (SLOT_NUMBERS_BYTES + 2 * g.block as u64)
}

/// How many bytes the ring has on the log's disk.
pub fn ring_len(g: &Geometry) -> u64
    ensures { result ≡ disk.ring_len g.now }
{
    g.ring
}

/// Whether these are the first bytes of a log: the gate is open, and the magic bytes stand.
pub fn is_log(bytes: &[u8; 64]) -> bool
    ensures { IsTrue result ↔ (take 5 bytes.now ≡ log_start) }
{
    begins_with(bytes, &START)
}

/// Writes the header.
pub fn spell_log(g: &Geometry, out: &mut [u8; 64])
    ensures { out.new ≡ log_header g.now }
{
    put_bytes(out, 0, &START);
    put_u64(out, ID_AT, g.id);
    put_byte(out, MEMBERS_AT, g.members);
    put_byte(out, CHUNK_AT, g.chunk);
    put_u16(out, BLOCK_AT, g.block);
    put_u32(out, ROWS_AT, g.rows);
    put_byte(out, SLOT_COUNT_AT, g.slots);
    put_byte(out, GAP_AT, g.gap);
    put_u32(out, ENTRIES_AT, g.entries);
    put_u64(out, RING_AT, g.ring);
    put_bytes(out, ZEROS_AT, &[0; 29]);
}

/// The numbers of the header, where the bytes are one.
pub fn read_log(bytes: &[u8; 64]) -> Option<Geometry>
    ensures some { IfSome result (λ g. IsLogHeader g bytes.now) }
    ensures none { IfNone result ((g : Geometry) → ¬ IsLogHeader g bytes.now) }
{
    if !is_log(bytes) || !ends_in_zeros(bytes, ZEROS_AT) {
        return None;
    }
    check(&numbers_in(bytes)).ok()
}

/// The numbers at their places, within their limits or not.
fn numbers_in(bytes: &[u8; 64]) -> Asked
    ensures { StandsIn bytes.now result }
{
    Asked {
        id: get_u64(bytes, ID_AT),
        members: bytes[MEMBERS_AT] as u64,
        chunk: bytes[CHUNK_AT] as u64,
        block: get_u16(bytes, BLOCK_AT) as u64,
        rows: get_u32(bytes, ROWS_AT) as u64,
        slots: bytes[SLOT_COUNT_AT] as u64,
        gap: bytes[GAP_AT] as u64,
        entries: get_u32(bytes, ENTRIES_AT) as u64,
        ring: get_u64(bytes, RING_AT),
    }
}
