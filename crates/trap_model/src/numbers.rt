//! The numbers of an array.

ghost use Rattle.trap_model.specs.Limits.{AreWithinLimits};

/// The numbers of an array, each within its limits.
#[derive(Debug, Clone, Copy, PartialEq, Eq)]
pub struct Geometry {
    /// The array's name among others.
    pub id: u64,
    /// How many member disks, 3 to 16.
    pub members: u8,
    /// How many blocks a chunk has, 1 to 128.
    pub chunk: u8,
    /// The size of a block in bytes: a power of two, 16 to 4096.
    pub block: u16,
    /// How many blocks a member has: a multiple of the chunk. The volume, `rows` times one member
    /// less than there are, is at most 2^20 blocks.
    pub rows: u32,
    /// How many staging slots, 1 to 64.
    pub slots: u8,
    /// Of that many successive entries of a block one holds its contents, 2 to 255.
    pub gap: u8,
    /// How many entries are retained at most, 1 to 2^20.
    pub entries: u32,
    /// The size of the log's ring in bytes: room for two of the longest records, at most 2^32.
    pub ring: u64,
    pub ghost within: { AreWithinLimits members chunk block rows slots gap entries ring },
}

impl Geometry {
    ghost use Rattle.std.specs.Prelude.{◌≡◌, ◌^◌, ◌≤◌};
    ghost use Rattle.trap_model.specs.Image.{volume};

    /// How many blocks the array has.
    pub fn volume(&self) -> u32
        ensures is { result ≡ volume self.now }
        ensures most { result ≤ 2 ^ 20 }
    {
        self.rows * (u32::from(self.members) - 1)
    }
}
