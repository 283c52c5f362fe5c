//! Why a call of a mounted array did not do what was asked.

use trap_model::Refusal;

/// Why a call of a mounted array did not do what was asked.
#[derive(Debug, Clone, Copy, PartialEq, Eq)]
pub enum Denied {
    /// The request is refused, and the state is the one before.
    Refused(Refusal),
    /// Disk 0 failed: its count of faults rose in the call. The array is stopped: mount it again.
    /// The disks hold the state before the call, or the one after it.
    LogFault,
    /// A member failed of which some row counts: not the lost one, unless rows of it are rebuilt.
    /// The count of its disk rose in the call. Both numbers are its own. The array is stopped:
    /// mount it again. The disks hold the state before the call, or the one after it.
    MemberFault { first: u8, second: u8 },
    /// A record that was read again, at this byte offset of disk 0, isn't the one that was there.
    /// The state is the one before, and the array goes on.
    Damaged { offset: u64 },
    /// A fault of an earlier call has stopped the array. Nothing was done.
    Stopped,
}
