//! How a block's contents at an instant are reached.

/// A point at which a block's contents are known.
#[derive(Debug, Clone, Copy, PartialEq, Eq)]
pub enum Known {
    /// The present.
    Present,
    /// The marked entry with this number: its record holds the contents.
    Snapshot { seq: u64 },
}

/// Which way the block's entries are taken from a known point.
#[derive(Debug, Clone, Copy, PartialEq, Eq)]
pub enum Way {
    /// From newer entries to older ones.
    Back,
    /// From older entries to newer ones.
    Ahead,
}

/// From which known point a block's contents at an instant are reached.
#[derive(Debug, Clone, Copy, PartialEq, Eq)]
pub struct Path {
    /// Where it begins.
    pub from: Known,
    /// How many of the block's entries lie between.
    pub turns: u32,
    /// Which way it goes.
    pub way: Way,
}
