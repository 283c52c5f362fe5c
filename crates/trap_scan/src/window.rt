//! The bytes of a ring up to an offset, read through a buffer.

ghost use Rattle.std.specs.Prelude.{◌+◌, ◌-◌, ◌≤◌, vec_len};

mod loading;

use trap_model::LogRec;

/// The bytes of a ring from one absolute offset up to another. A first part of them stands in the
/// buffer.
#[derive(Drop)]
pub struct Window {
    at: u64,
    end: u64,
    buf: Vec<u8>,
    from: usize,
    to: usize,
    ghost ordered: { from ≤ to },
    ghost within: { to ≤ vec_len buf },
    ghost before_end: { at + (to - from) ≤ end },
}

/// A record at the front of bytes, and how many of them it takes.
#[derive(Clone, Copy, Debug, PartialEq, Eq)]
pub struct Front {
    pub rec: LogRec,
    pub len: usize,
}
