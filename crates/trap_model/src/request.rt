//! Requests and their replies.

use crate::Block;

/// What a line of a session asks. Numbers are as the line has them, in range or not.
#[derive(Debug, Drop)]
pub enum Request {
    /// Write the block.
    Write { time: u64, block: u64, bytes: Block },
    /// The present contents of the block.
    Read { block: u64 },
    /// The contents after the entry with this number.
    At { seq: u64, block: u64 },
    /// The contents after all entries with a time of at most this one.
    By { time: u64, block: u64 },
    /// The numbers of the history.
    Info,
    /// Drop the entries up to this number.
    Keep { seq: u64 },
    /// End the session.
    Quit,
    /// The line has no form.
    Bad,
}

/// Why a request is refused. A refused request changes nothing.
#[derive(Debug, Clone, Copy, PartialEq, Eq)]
pub enum Refusal {
    /// The line has no form.
    NoLine,
    /// There is no such block.
    NoBlock,
    /// The time is below the last one.
    TimeBack { last: u64 },
    /// The last sequence number is used.
    Worn,
    /// The history has no room.
    Full,
    /// The number, or the time, is below what is retained.
    NotKept { bound: u64 },
    /// The number is above the last one.
    Ahead { last: u64 },
}

/// The reply to a request.
#[derive(Debug, Drop)]
pub enum Reply {
    /// The write has this number, or entries up to this number are dropped.
    Kept {
        seq: u64,
    },
    /// Present contents.
    Is {
        bytes: Block,
    },
    /// Contents at an instant.
    At {
        bytes: Block,
    },
    /// The numbers of the history.
    Span {
        first: u64,
        last: u64,
        base_time: u64,
        last_time: u64,
    },
    /// The request is refused.
    No(Refusal),
    /// No reply.
    Silent,
}
