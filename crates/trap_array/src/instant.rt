//! An instant of the past.

/// What a block's contents are asked for.
#[derive(Clone, Copy)]
pub(crate) enum Instant {
    /// Right after the entry with this number.
    Number(u64),
    /// After all entries with a time of at most this one.
    Time(u64),
}
