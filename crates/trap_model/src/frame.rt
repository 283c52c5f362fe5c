//! The header of a frame.

/// The header of a frame, which tells how long the code after it is.
#[derive(Clone, Copy, Debug, PartialEq, Eq)]
pub struct Frame {
    /// The id of the array that sends it.
    pub id: u64,
    /// The entry's number, 1 to 2^40.
    pub seq: u64,
    /// The entry's time.
    pub time: u64,
    /// The block that it writes.
    pub block: u32,
    /// The length in bytes of the code, of the old contents xor the new ones: 4 to 7 more than a
    /// block has.
    pub length: u16,
}
