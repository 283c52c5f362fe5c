//! What mounting finds.

use crate::Buffers;
use trap_cell::Cell;
use trap_format::Head;
use trap_index::Index;
use trap_model::Geometry;
use trap_stage::Stage;

/// An array as the disks have it: its numbers, its head, the head's cell, the pending writes, the
/// index of the retained records; and the memory for its calls.
#[derive(Drop)]
pub struct Found {
    pub g: Geometry,
    pub head: Head,
    pub cell: Cell,
    pub stage: Stage,
    pub index: Index,
    pub buffers: Buffers,
}
