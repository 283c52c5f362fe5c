//! How many bytes an entry takes in the log's ring.

ghost use Rattle.std.specs.Prelude.{◌≡◌, ◌≤◌, length};

use crate::code::{change_len, code_len};
use crate::history::Entry;
use crate::log_record::RECORD_HEADER_BYTES;

impl Entry {
    ghost use Rattle.trap_model.specs.Size.{entry_size};

    /// The size of the entry's record, where its block held `old`.
    pub(crate) fn size(&self, old: &[u8]) -> u64
        requires same_size { length old.now ≡ length self.now.bytes }
        requires small { length old.now ≤ 4096 }
        ensures size { result ≡ entry_size old.now self.now }
        ensures bound { result ≤ 41000 }
    {
        let change = change_len(old, self.bytes.as_slice()) as u64;
        let contents = if self.snap {
            code_len(self.bytes.as_slice()) as u64
        } else {
            0
        };
        RECORD_HEADER_BYTES + change + contents
    }
}
