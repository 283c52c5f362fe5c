//! The numbers that an array is asked to have.

/// The numbers of an array as they are asked for, within their limits or not.
#[derive(Debug, Clone, Copy, PartialEq, Eq)]
pub struct Asked {
    /// The array's name among others.
    pub id: u64,
    /// How many member disks.
    pub members: u64,
    /// How many blocks a chunk has.
    pub chunk: u64,
    /// The size of a block in bytes.
    pub block: u64,
    /// How many blocks a member has.
    pub rows: u64,
    /// How many staging slots.
    pub slots: u64,
    /// Of that many successive entries of a block one holds its contents.
    pub gap: u64,
    /// How many entries are retained at most.
    pub entries: u64,
    /// The size of the log's ring in bytes.
    pub ring: u64,
}
