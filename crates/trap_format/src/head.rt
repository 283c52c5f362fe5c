//! The head: the numbers whose put commits.

/// What the head's cell says of an array.
#[derive(Debug, Clone, Copy, PartialEq, Eq)]
pub struct Head {
    /// The version of the format, 1.
    pub version: u8,
    /// The member that is recorded lost.
    pub lost: Option<u8>,
    /// How many rows of the lost member are rebuilt; 0 where none is lost.
    pub rebuilt: u32,
    /// How many entries are dropped.
    pub first: u64,
    /// The time of the last dropped entry.
    pub base_time: u64,
    /// The ring offset of the first retained record, in bytes.
    pub first_off: u64,
    /// The number of the last entry, at most 2^40.
    pub last: u64,
    /// The ring offset after the last record, in bytes.
    pub end_off: u64,
    /// Entries up to this number are on the members.
    pub drained: u64,
    /// The time of the last entry.
    pub last_time: u64,
}
