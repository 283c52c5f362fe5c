//! What an index tells of a record.

/// A retained record: what its header tells, and where it stands.
#[derive(Debug, Clone, Copy, PartialEq, Eq)]
pub struct Item {
    /// The entry's time.
    pub time: u64,
    /// The block that it writes.
    pub block: u32,
    /// Where the record begins in the ring.
    pub off: u64,
    /// The length in bytes of its first code.
    pub plen: u16,
    /// The length in bytes of its second code, 0 where it isn't marked.
    pub slen: u16,
    /// Whether it is marked.
    pub snap: bool,
    /// The number of the block's previous retained entry, or 0 where there is none.
    pub prev: u64,
}

// An index of 2^20 entries over 2^20 blocks stays below 64 MB by this, with 8 bytes for each block.
const _: () = prove!(size_of::<Item>() == 40);
