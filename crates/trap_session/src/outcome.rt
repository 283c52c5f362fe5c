//! How a line and a session end.

use trap_array::Denied;

/// What comes after a line.
#[derive(Debug, Clone, Copy, PartialEq, Eq)]
pub enum Next {
    /// The next line.
    More,
    /// Nothing: the line was `Q`.
    Quit,
}

/// Where a session ended.
#[derive(Debug, Clone, Copy, PartialEq, Eq)]
pub enum Ended {
    /// A line was `Q`.
    Quit,
    /// The input ended before one.
    Input,
}

/// What failed in a line, or between two.
#[derive(Debug, Clone, Copy, PartialEq, Eq)]
pub enum SessionFault {
    /// The array answered a fault. It is stopped, unless a record that was read again is damaged.
    Array(Denied),
    /// The source failed: its count of faults rose.
    ReadFault,
    /// The port failed in a reply: its count of faults rose.
    WriteFault,
    /// 2^40 bytes were taken, and more input is needed.
    TooLong,
}
