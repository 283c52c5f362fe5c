//! What a reader of frames finds.

use trap_model::Frame;

/// What a reader found.
#[derive(Debug, Clone, Copy, PartialEq, Eq)]
pub enum Next {
    /// A frame.
    Frame(Frame),
    /// The end of the stream, with nothing after the last frame.
    End,
}

/// Why no frame was found. `at` is the offset of its first byte in the stream.
#[derive(Debug, Clone, Copy, PartialEq, Eq)]
pub enum FrameFault {
    /// The bytes are no frame.
    BadFrame { at: u64 },
    /// The stream ends in a frame.
    Cut { at: u64 },
    /// The source failed: its count of faults rose.
    ReadFault,
    /// 2^40 bytes were taken, and more input is needed.
    TooLong,
}
