//! The numbers of a replica.

ghost use Rattle.trap_format.specs.Shape.{AreShapeLimits};

/// The numbers of a replica, each within its limits.
#[derive(Debug, Clone, Copy, PartialEq, Eq)]
pub struct Shape {
    /// The id of the array that it follows.
    pub id: u64,
    /// The size of a block in bytes: a power of two, 16 to 4096.
    pub block: u16,
    /// How many blocks, 1 to 2^20.
    pub volume: u32,
    pub ghost within: { AreShapeLimits block volume },
}
