//! Which numbers an array can have.

ghost use Rattle.std.specs.Prelude.{◌≡◌, ◌↔◌, ◌%◌, ◌^◌, ◌<◌, ◌≤◌, ◌==◌, ◌&&◌, None, IsOk, IfOk};
ghost use Rattle.std.specs.Prelude.{IfErr};
ghost use Rattle.trap_model.specs.Limits.{is_block_size, greatest_record};
ghost use Rattle.trap_format.specs.Checked.{is_between, first_broken, HasNumbers};

use crate::layout::RECORD_HEADER_BYTES;
use trap_model::{Asked, Geometry};

/// What a number that breaks its limit is of. The order is the one in which they are looked at.
#[derive(Debug, Clone, Copy, PartialEq, Eq)]
pub enum Field {
    /// How many members.
    Members,
    /// How many blocks a chunk has.
    Chunk,
    /// The size of a block.
    Block,
    /// How many rows: also where they aren't whole chunks.
    Rows,
    /// How many blocks all together.
    Volume,
    /// How many staging slots.
    Slots,
    /// The gap between snapshots.
    Gap,
    /// How many entries.
    Entries,
    /// The size of the ring.
    Ring,
    /// A sequence number.
    Seq,
}

/// A number breaks its limit: this field's is the first that does.
#[derive(Debug, Clone, Copy, PartialEq, Eq)]
pub struct BadGeometry {
    pub field: Field,
}

/// The numbers as an array's, where each keeps its limit.
pub fn check(asked: &Asked) -> Result<Geometry, BadGeometry>
    ensures ok { IfOk result (λ g. HasNumbers g asked.now) }
    ensures kept { IsOk result ↔ (first_broken asked.now ≡ None) }
    ensures broken { IfErr result (λ bad. first_broken asked.now ≡ Some bad.field) }
{
    if let Some(field) = first_broken(asked) {
        return Err(BadGeometry { field });
    }
    Ok(Geometry {
        id: asked.id,
        members: asked.members as u8,
        chunk: asked.chunk as u8,
        block: asked.block as u16,
        rows: asked.rows as u32,
        slots: asked.slots as u8,
        gap: asked.gap as u8,
        entries: asked.entries as u32,
        ring: asked.ring,
    })
}

/// The first field that breaks its limit, where one does.
fn first_broken(asked: &Asked) -> Option<Field>
    ensures { result ≡ first_broken asked.now }
{
    if !is_between(3, 16, asked.members) {
        Some(Field::Members)
    } else if !is_between(1, 128, asked.chunk) {
        Some(Field::Chunk)
    } else if !is_block_size(asked.block) {
        Some(Field::Block)
    } else if !are_whole_chunks(asked.chunk, asked.rows) {
        Some(Field::Rows)
    } else if asked.rows * (asked.members - 1) > 1 << 20 {
        Some(Field::Volume)
    } else if asked.slots != 1 {
        Some(Field::Slots)
    } else if !is_between(2, 255, asked.gap) {
        Some(Field::Gap)
    } else if !is_between(1, 1 << 20, asked.entries) {
        Some(Field::Entries)
    } else if !is_between(2 * greatest_record(asked.block), 1 << 32, asked.ring) {
        Some(Field::Ring)
    } else {
        None
    }
}

/// The greatest length of a log record over blocks of a size: its header, and two codes.
pub(crate) fn greatest_record(block: u64) -> u64
    requires { block ≤ 4096 }
    ensures is { result ≡ greatest_record block }
    ensures most { result ≤ 8232 }
{
    RECORD_HEADER_BYTES + 2 * (block + 7)
}

fn is_between(least: u64, most: u64, n: u64) -> bool
    ensures { result ≡ is_between least most n }
{
    least <= n && n <= most
}

/// Whether it is a power of two from 16 to 4096.
pub(crate) fn is_block_size(size: u64) -> bool
    ensures { result ≡ is_block_size size }
{
    matches!(size, 16 | 32 | 64 | 128 | 256 | 512 | 1024 | 2048 | 4096)
}

/// Whether that many rows are some chunks, and no more than there may be.
fn are_whole_chunks(chunk: u64, rows: u64) -> bool
    requires { 0 < chunk }
    ensures { result ≡ (is_between chunk (2 ^ 20) rows && (rows % chunk == 0)) }
{
    is_between(chunk, 1 << 20, rows) && rows % chunk == 0
}
