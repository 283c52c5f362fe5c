//! Why not all frames were said.

use trap_array::Denied;

/// Why not all frames were said. What was said is a first part of them.
#[derive(Debug, Clone, Copy, PartialEq, Eq)]
pub enum SendFault {
    /// The array has no code of an entry: disk 0 failed, which stops the array, or the entry's
    /// record is damaged. What waited isn't said.
    Array(Denied),
    /// The port failed: its count of faults rose.
    Port,
}
