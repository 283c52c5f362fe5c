//! Where things stand on the replica's disk, and the value of its cell.

ghost use Rattle.std.specs.Prelude.{◌≡◌, ◌+◌, ◌≤◌, length};
ghost use Rattle.trap_block.specs.Fields.{put_over};
ghost use Rattle.trap_format.specs.ReplicaDisk.{home_at};
ghost use Rattle.trap_replica.specs.OnDisk.{value_bytes};

use trap_block::{put_u32, put_u64};
use trap_format::Shape;
use trap_format::layout::REPLICA_NUMBERS_BYTES;

/// The replica's disk.
pub(crate) const DISK: u8 = 17;

/// Where its cell begins, after the header.
pub(crate) use trap_format::layout::REPLICA_CELL_AT as CELL_AT;

/// The numbers at the front of the cell's value: the number applied, its time, and a block's.
pub(crate) const NUMBERS: usize = REPLICA_NUMBERS_BYTES as usize;

// Where the time and the block's number begin in the value.
const TIME_AT: usize = 8;

const BLOCK_AT: usize = 16;

/// Where a block stands in the image area.
pub(crate) fn home_at(s: &Shape, block: u32) -> u64
    ensures { result ≡ home_at s.now block }
{
    CELL_AT + 2 * (2 + REPLICA_NUMBERS_BYTES + s.block as u64) + block as u64 * s.block as u64
}

/// Writes the contents over the last bytes of the cell's value.
fn put_contents(value: &mut [u8], contents: &[u8])
    requires { length value.old ≡ 20 + length contents.now }
    ensures { value.new ≡ put_over 20 contents.now value.old }
{
    value[NUMBERS..].copy_from_slice(contents);
}

/// Writes the value of the cell.
pub(crate) fn spell_value(value: &mut [u8], number: u64, time: u64, block: u32, contents: &[u8])
    requires { length value.old ≡ 20 + length contents.now }
    ensures { value.new ≡ value_bytes number time block contents.now }
{
    put_u64(value, 0, number);
    put_u64(value, TIME_AT, time);
    put_u32(value, BLOCK_AT, block);
    put_contents(value, contents);
}
