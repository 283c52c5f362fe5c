//! The header of a log record.

/// How many bytes it has. The codes follow it.
pub const RECORD_HEADER_BYTES: u64 = 26;

/// The header of a log record, which tells how long the two codes after it are.
#[derive(Clone, Copy, Debug, PartialEq, Eq)]
pub struct LogRec {
    /// Whether the record holds the new contents too.
    pub snap: bool,
    /// The entry's number, 1 to 2^40.
    pub seq: u64,
    /// The entry's time.
    pub time: u64,
    /// The block that it writes.
    pub block: u32,
    /// The length in bytes of the first code, of the old contents xor the new ones: 4 to 7 more
    /// than a block has.
    pub plen: u16,
    /// The length in bytes of the second code, of the new contents: 4 to 7 more than a block has
    /// where `snap` is set, and 0 otherwise.
    pub slen: u16,
}
