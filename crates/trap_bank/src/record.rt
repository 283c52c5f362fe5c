//! What a bank in memory keeps of its calls.

use crate::disk::{Bytes, Disk, Ranges};

/// What a call changed, with what it takes to go back.
#[derive(Debug, Drop)]
pub(crate) enum Change {
    /// A disk was given that many bytes in the place of what was there.
    Made {
        d: u8,
        len: u64,
        before: Option<Disk>,
    },
    /// Bytes were laid over these.
    Written {
        d: u8,
        at: usize,
        replaced: Bytes,
    },
    /// These ranges became stable.
    Synced {
        d: u8,
        ranges: Ranges,
    },
    /// So many bytes were said.
    Said {
        len: usize,
    },
}

/// One call, with the moment at which it began.
#[derive(Debug, Drop)]
pub(crate) struct Entry {
    pub moment: u64,
    pub change: Change,
}
