//! Where things stand on an array's disks: byte offsets, and lengths in bytes.

/// The first byte of what is whole: a header, or a slot of a cell.
pub use trap_model::OPEN_GATE;

/// The log's header, at the front of its disk.
pub const LOG_HEADER_BYTES: u64 = 64;

/// Where the head's cell begins on the log's disk, after the header.
pub const CELL_AT: u64 = 64;

/// The head's value, in a slot of its cell.
pub const HEAD_VALUE_BYTES: usize = 62;

/// Where the staging slots begin on the log's disk, after the head's cell.
pub const SLOTS_AT: u64 = 192;

/// The numbers at the front of a staging slot: the entry's, and its block's.
pub const SLOT_NUMBERS_BYTES: u64 = 12;

/// A log record's header.
pub use trap_model::RECORD_HEADER_BYTES;

/// A member's header, at the front of its disk. The place of row 0 follows it.
pub const MEMBER_HEADER_BYTES: u64 = 16;

/// The replica's disk has its header at the front, and then its cell, which begins here.
pub const REPLICA_CELL_AT: u64 = 32;

/// The numbers at the front of the value of the replica's cell: the number applied and its time, of
/// 8 bytes each, and a block's number of 4.
pub const REPLICA_NUMBERS_BYTES: u64 = 20;
