//! What is known of the replica's disk: the image after a number, by the cell.

ghost use Rattle.std.specs.Prelude.{◌≡◌, ◌^◌, ◌<◌, ◌≤◌, vec_len};
ghost use Rattle.trap_format.specs.ReplicaDisk.{replica_value_len};
ghost use Rattle.trap_replica.specs.OnDisk.{cell_place};

use trap_cell::Cell;
use trap_format::Shape;

mod reading;
mod stepping;

/// The image on the disk, by its cell: the number applied, its time, and a block with its contents.
#[derive(Drop)]
pub(crate) struct Store {
    pub shape: Shape,
    pub cell: Cell,
    pub number: u64,
    pub time: u64,
    pub block: u32,
    pub contents: Vec<u8>,
    pub value: Vec<u8>,
    ghost place: { cell.place ≡ cell_place shape },
    ghost most: { number ≤ 2 ^ 40 },
    ghost inside: { block < shape.volume },
    ghost sized: { vec_len contents ≡ shape.block },
    ghost long: { vec_len value ≡ replica_value_len shape },
}
