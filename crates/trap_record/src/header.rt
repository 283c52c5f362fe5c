//! The bytes that head a record.

ghost use Rattle.std.specs.Prelude.{◌≡◌, ◌+◌, ◌^◌, ◌<◌, ◌≤◌, ◌↔◌, List, ◌++◌, length, drop, IsTrue};
ghost use Rattle.std.specs.Prelude.{IfSome, IfNone};
ghost use Rattle.trap_model.specs.Limits.{record_header_len};
ghost use Rattle.trap_model.specs.LogRecord.{header, IsRecordInRange, SnapshotLength};
ghost use Rattle.trap_record.specs.Reading.{BeginsWith};

use trap_block::{get_u16, get_u32, get_u64, put_u16, put_u32, put_u64};
use trap_model::{LogRec, RECORD_HEADER_BYTES};

/// How many bytes a header has.
pub const HEADER: usize = RECORD_HEADER_BYTES as usize;

/// The byte that each record begins with.
const FIRST_BYTE: u8 = 1;

/// Where the flag is, after the first byte.
const FLAG_AT: usize = 1;

/// Where the entry's number is.
const SEQ_AT: usize = 2;

/// Where its time is.
const TIME_AT: usize = 10;

/// Where the block's number is.
const BLOCK_AT: usize = 18;

/// Where the length of the first code is.
const PARITY_LEN_AT: usize = 22;

/// Where the length of the second code is.
const SNAPSHOT_LEN_AT: usize = 24;

// Whether the second length fits the flag.
fn fits_flag(snap: bool, slen: u16, size: usize) -> bool
    requires { size < 2 ^ 15 }
    ensures { IsTrue result ↔ SnapshotLength size snap slen }
{
    if snap {
        4 <= slen && usize::from(slen) <= size + 7
    } else {
        slen == 0
    }
}

// Whether the fields keep their ranges.
fn keeps_ranges(rec: LogRec, size: usize) -> bool
    requires { size < 2 ^ 15 }
    ensures { IsTrue result ↔ IsRecordInRange size rec }
{
    if rec.seq < 1 {
        return false;
    }
    if rec.seq > 1 << 40 {
        return false;
    }
    if rec.plen < 4 {
        return false;
    }
    if usize::from(rec.plen) > size + 7 {
        return false;
    }
    fits_flag(rec.snap, rec.slen, size)
}

// The fields of a header, whatever their ranges.
fn split_header(bytes: &[u8]) -> Option<LogRec>
    requires { record_header_len ≤ length bytes.now }
    ensures found { IfSome result (λ rec.
        bytes.now ≡ header rec ++ drop record_header_len bytes.now) }
    ensures none { IfNone result ((rec : LogRec) (more : List _)
        → bytes.now ≡ header rec ++ more → ⊥) }
{
    if bytes[0] != FIRST_BYTE {
        return None;
    }
    if bytes[FLAG_AT] > 1 {
        return None;
    }
    let snap = bytes[FLAG_AT] == 1;
    let seq = get_u64(bytes, SEQ_AT);
    let time = get_u64(bytes, TIME_AT);
    let block = get_u32(bytes, BLOCK_AT);
    let plen = get_u16(bytes, PARITY_LEN_AT);
    let slen = get_u16(bytes, SNAPSHOT_LEN_AT);
    Some(LogRec {
        snap,
        seq,
        time,
        block,
        plen,
        slen,
    })
}

/// The header that begins the bytes, where its fields keep their ranges.
pub fn read_header(bytes: &[u8], size: usize) -> Option<LogRec>
    requires size { size < 2 ^ 15 }
    requires long { record_header_len ≤ length bytes.now }
    ensures found { IfSome result (λ rec. BeginsWith size rec bytes.now) }
    ensures none { IfNone result ((rec : LogRec) → BeginsWith size rec bytes.now → ⊥) }
{
    let Some(rec) = split_header(bytes) else {
        return None;
    };
    if !keeps_ranges(rec, size) {
        return None;
    }
    Some(rec)
}

/// Writes a header over the first bytes.
pub fn put_header(rec: &LogRec, out: &mut [u8])
    requires { record_header_len ≤ length out.old }
    ensures spelled { out.new ≡ header rec.now ++ drop record_header_len out.old }

    // What the types of the fields say.
    ensures time { rec.now.time < 2 ^ 64 }
    ensures block { rec.now.block < 2 ^ 32 }
{
    out[0] = FIRST_BYTE;
    out[FLAG_AT] = u8::from(rec.snap);
    put_u64(out, SEQ_AT, rec.seq);
    put_u64(out, TIME_AT, rec.time);
    put_u32(out, BLOCK_AT, rec.block);
    put_u16(out, PARITY_LEN_AT, rec.plen);
    put_u16(out, SNAPSHOT_LEN_AT, rec.slen);
}
