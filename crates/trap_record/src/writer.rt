//! Writes a record.

ghost use Rattle.std.specs.Prelude.{◌≡◌, ℕ, ◌+◌, ◌^◌, ◌≤◌, ◌++◌, length, take};
ghost use Rattle.trap_model.specs.Limits.{record_header_len};
ghost use Rattle.trap_model.specs.ZeroRun.{IsCode};
ghost use Rattle.trap_model.specs.LogRecord.{header, IsSnapshot, LogRecord};

use crate::header::{HEADER, put_header};
use trap_model::LogRec;

/// Writes a record at the front of `out`, and answers its length: its header and both codes.
/// `parity` is the code of the old contents xor the new ones, and `snapshot` that of the new ones,
/// or empty where the flag isn't set.
pub fn spell(rec: &LogRec, parity: &[u8], snapshot: &[u8], out: &mut [u8]) -> usize
    requires parity { rec.now.plen ≡ length parity.now }
    requires snapshot { rec.now.slen ≡ length snapshot.now }
    requires room { record_header_len + length parity.now + length snapshot.now
        ≤ length out.old }
    ensures end { result ≡ record_header_len + rec.now.plen + rec.now.slen }
    ensures spelled { take result out.new ≡ header rec.now ++ (parity.now ++ snapshot.now) }

    // With a number in range and codes of blocks of one size this is a record over such blocks.
    ensures whole { (size : ℕ) → 1 ≤ size → 1 ≤ rec.now.seq → rec.now.seq ≤ 2 ^ 40
        → IsCode size parity.now → IsSnapshot size rec.now.snap snapshot.now
        → LogRecord size rec.now parity.now snapshot.now (take result out.new) }
{
    put_header(rec, out);
    let parity_end = HEADER + parity.len();
    let end = parity_end + snapshot.len();
    out[HEADER..parity_end].copy_from_slice(parity);
    out[parity_end..end].copy_from_slice(snapshot);
    end
}
