//! What a log is to hold.

/// The numbers of the records that are to stand in a ring.
#[derive(Clone, Copy, Debug, PartialEq, Eq)]
pub struct Expected {
    /// The size of a block in bytes.
    pub size: u16,
    /// How many blocks the volume has.
    pub volume: u32,
    /// The number of the last entry that was dropped: the first record has the next one.
    pub first: u64,
    /// The time of that entry.
    pub base_time: u64,
    /// The offset in the ring where the first record begins.
    pub first_off: u64,
    /// The number of the last record.
    pub last: u64,
    /// The time of the last record.
    pub last_time: u64,
    /// The offset in the ring where the last record ends.
    pub end_off: u64,
}
