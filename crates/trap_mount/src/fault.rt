//! Why an array could not be made or mounted.

use thiserror::Error;

/// Why an array could not be made.
#[derive(Debug, Clone, Copy, PartialEq, Eq)]
pub enum CreateFault {
    /// A disk of the array is there already: this is the lowest. Nothing was written.
    Exists { disk: u8 },
    /// Disk 0 failed: its count of faults rose in the call. Disk 0 is no array then, or the array
    /// is whole.
    LogFault,
    /// A member failed: the count of its disk rose in the call. Both numbers are its own.
    MemberFault { first: u8, second: u8 },
}

/// Why an array could not be mounted. Nothing was written but perhaps the head.
#[derive(Debug, Clone, Copy, PartialEq, Eq, Error)]
pub enum MountFault {
    /// Disk 0 is absent, or has fewer than 192 bytes, or doesn't begin as a log does.
    #[error("not an array")]
    NotAnArray,
    /// The head has another version than 1.
    #[error("another version of the format")]
    BadVersion { version: u8 },
    /// The disk of a member has another size or header than its own.
    #[error("the disk of another member")]
    WrongMember { member: u8 },
    /// A second member is out: `first` is the recorded lost one, or the lowest absent one.
    #[error("two members are lost")]
    TooManyLost { first: u8, second: u8 },
    /// What stands at a byte offset of disk 0 has no meaning.
    #[error("a part of the log is damaged")]
    Damaged { offset: u64 },
    /// Disk 0 failed: its count of faults rose in the call.
    #[error("the log failed")]
    LogFault,
    /// A member that isn't the lost one failed: the count of its disk rose in the call. Both
    /// numbers are its own.
    #[error("a member failed")]
    MemberFault { first: u8, second: u8 },
    /// There was no memory for the array.
    #[error("out of memory")]
    OutOfMemory,
}
