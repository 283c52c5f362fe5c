//! The replica's disk: which numbers it can have, its size, and its header.

ghost use Rattle.std.specs.Prelude.{◌≡◌, ◌≢◌, ◌↔◌, ◌^◌, ◌<◌, take, None, Some, IsOk, IfOk, IfErr};
ghost use Rattle.std.specs.Prelude.{IsTrue, IfSome, IfNone};
ghost use Rattle.trap_format.specs.ReplicaDisk.{first_broken_shape, HasShape, replica_size};
ghost use Rattle.trap_format.specs.ReplicaDisk.{replica_start, replica_header};

use crate::layout::{OPEN_GATE, REPLICA_CELL_AT, REPLICA_NUMBERS_BYTES};
use crate::limits::{BadGeometry, Field, is_block_size};
use crate::pieces::{begins_with, ends_in_zeros, put_byte, put_bytes};
use crate::shape::Shape;
use trap_block::{get_u16, get_u32, get_u64, put_u16, put_u32, put_u64};

/// An open gate, and the magic bytes.
const START: [u8; 5] = [OPEN_GATE, b'T', b'R', b'P', b'R'];

/// The version of the format.
const VERSION: u8 = 1;

// Where each number begins in the header; zeros follow the last one.
const VERSION_AT: usize = 5;

const ID_AT: usize = 6;

const BLOCK_AT: usize = 14;

const VOLUME_AT: usize = 16;

const ZEROS_AT: usize = 20;

/// The numbers as a replica's, where each keeps its limit. A sequence number is at most 2^40.
pub fn check_shape(id: u64, block: u64, volume: u64, seq: u64) -> Result<Shape, BadGeometry>
    ensures ok { IfOk result (λ s. HasShape s id block volume) }
    ensures kept { IsOk result ↔ (first_broken_shape block volume seq ≡ None) }
    ensures broken { IfErr result (λ bad. first_broken_shape block volume seq ≡ Some bad.field) }
{
    if !is_block_size(block) {
        return Err(BadGeometry {
            field: Field::Block,
        });
    }
    if volume < 1 || volume > 1 << 20 {
        return Err(BadGeometry {
            field: Field::Volume,
        });
    }
    if seq > 1 << 40 {
        return Err(BadGeometry { field: Field::Seq });
    }
    Ok(Shape {
        id,
        block: block as u16,
        volume: volume as u32,
    })
}

/// The size of the replica's disk in bytes.
pub fn replica_len(s: &Shape) -> u64
    ensures { result ≡ replica_size s.now }
{
    REPLICA_CELL_AT
        + 2 * (2 + REPLICA_NUMBERS_BYTES + s.block as u64)
        + s.volume as u64 * s.block as u64
}

/// Whether these are the first bytes of a replica: the gate is open, and the magic bytes stand.
pub fn is_replica(bytes: &[u8; 32]) -> bool
    ensures { IsTrue result ↔ (take 5 bytes.now ≡ replica_start) }
{
    begins_with(bytes, &START)
}

/// Writes the header.
pub fn spell_replica(s: &Shape, out: &mut [u8; 32])
    ensures { out.new ≡ replica_header s.now }
{
    put_bytes(out, 0, &START);
    put_byte(out, VERSION_AT, VERSION);
    put_u64(out, ID_AT, s.id);
    put_u16(out, BLOCK_AT, s.block);
    put_u32(out, VOLUME_AT, s.volume);
    put_bytes(out, ZEROS_AT, &[0; 12]);
}

/// The numbers of the header, where the bytes are one.
pub fn read_replica(bytes: &[u8; 32]) -> Option<Shape>
    ensures some { IfSome result (λ s. bytes.now ≡ replica_header s) }
    ensures none { IfNone result ((s : Shape) → bytes.now ≢ replica_header s) }
{
    if !is_replica(bytes) {
        return None;
    }
    if bytes[VERSION_AT] != VERSION {
        return None;
    }
    if !ends_in_zeros(bytes, ZEROS_AT) {
        return None;
    }
    let id = get_u64(bytes, ID_AT);
    let block = get_u16(bytes, BLOCK_AT);
    let volume = get_u32(bytes, VOLUME_AT);
    match check_shape(id, block as u64, volume as u64, 0) {
        Ok(shape) => Some(shape),
        Err(_) => None,
    }
}
