//! The gate of what stands on a disk.

/// The byte at the front of a header or of a cell's slot that is whole. It is written last.
pub const OPEN_GATE: u8 = 0xa5;
