//! What a reader of lines finds.

/// What a reader found.
#[derive(Debug, Clone, Copy, PartialEq, Eq)]
pub enum Found {
    /// A line of that many bytes, which a line feed ends.
    Line { len: usize },
    /// The last line, of that many bytes and not empty, which the end of the input ends.
    Last { len: usize },
    /// The end of the input, with nothing after the last line feed.
    End,
}

/// Why no line was found.
#[derive(Debug, Clone, Copy, PartialEq, Eq)]
pub enum ReadFault {
    /// The source failed: its count of faults rose.
    Source,
    /// 2^40 bytes were taken, and more input is needed.
    TooLong,
}
