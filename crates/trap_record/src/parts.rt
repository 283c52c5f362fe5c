//! Reads one part of a record whose header is known.

ghost use Rattle.std.specs.Prelude.{◌≡◌, ◌↔◌, ◌^◌, ◌<◌, ◌≤◌, length, IsTrue};
ghost use Rattle.trap_model.specs.Limits.{record_header_len};
ghost use Rattle.trap_model.specs.LogRecord.{IsSnapshot};
ghost use Rattle.trap_model.specs.ZeroRun.{ZeroRun};
ghost use Rattle.trap_record.specs.Reading.{BeginsWith, IsWhole, record_len, parity_of};
ghost use Rattle.trap_record.specs.Reading.{snapshot_of};
ghost use Rattle.trap_record.specs.Parts.{part_of};
ghost use Rattle.trap_record.specs.declared.parts.Part.TheVariants as Part;

use crate::header::{HEADER, read_header};
use trap_model::LogRec;
use trap_zrun::{check, decode};

/// A part of a record.
#[derive(Debug, Clone, Copy, PartialEq, Eq)]
pub enum Part {
    /// The code of a block's old contents xor the new ones.
    Parity,
    /// The code of the contents that a marked entry writes.
    Snapshot,
}

/// Whether the bytes are the record of this header. Then `into` is filled with the block that the
/// part spells; otherwise it holds any bytes. Each code is looked through once.
pub fn read_part(bytes: &[u8], rec: &LogRec, part: Part, into: &mut [u8]) -> bool
    requires size { length into.old < 2 ^ 15 }
    requires long { length bytes.now ≡ record_len rec.now }
    requires marked { part ≡ Part.Snapshot → IsTrue rec.now.snap }
    ensures whole { IsTrue result ↔ IsWhole (length into.old) rec.now (length bytes.now) bytes.now }
    ensures spelled { IsTrue result → ZeroRun into.new (part_of part rec.now bytes.now) }
{
    if !has_header(bytes, rec, into.len()) {
        return false;
    }
    match part {
        Part::Parity => fill_parity(bytes, rec, into),
        Part::Snapshot => fill_snapshot(bytes, rec, into),
    }
}

// Whether this header begins the bytes.
fn has_header(bytes: &[u8], rec: &LogRec, size: usize) -> bool
    requires size { size < 2 ^ 15 }
    requires long { record_header_len ≤ length bytes.now }
    ensures { IsTrue result ↔ BeginsWith size rec.now bytes.now }
{
    match read_header(bytes, size) {
        Some(found) => found == *rec,
        None => false,
    }
}

// Whether the bytes are what stands after the parity: a code where the flag is set, and nothing
// otherwise.
fn is_snapshot(snap: bool, bytes: &[u8], size: usize) -> bool
    requires { size < 2 ^ 15 }
    ensures { IsTrue result ↔ IsSnapshot size snap bytes.now }
{
    if snap {
        check(bytes, size).is_ok()
    } else {
        bytes.is_empty()
    }
}

// Whether the codes after the header are right. Then `into` is filled with the block of the parity.
fn fill_parity(bytes: &[u8], rec: &LogRec, into: &mut [u8]) -> bool
    requires size { length into.old < 2 ^ 15 }
    requires long { length bytes.now ≡ record_len rec.now }
    requires begins { BeginsWith (length into.old) rec.now bytes.now }
    ensures whole { IsTrue result ↔ IsWhole (length into.old) rec.now (length bytes.now) bytes.now }
    ensures spelled { IsTrue result → ZeroRun into.new (parity_of rec.now bytes.now) }
{
    let end = HEADER + usize::from(rec.plen);
    let all = end + usize::from(rec.slen);
    if !is_snapshot(rec.snap, &bytes[end..all], into.len()) {
        return false;
    }
    match decode(&bytes[HEADER..end], into) {
        Ok(()) => true,
        Err(_) => false,
    }
}

// The same, with the block of the snapshot.
fn fill_snapshot(bytes: &[u8], rec: &LogRec, into: &mut [u8]) -> bool
    requires size { length into.old < 2 ^ 15 }
    requires long { length bytes.now ≡ record_len rec.now }
    requires begins { BeginsWith (length into.old) rec.now bytes.now }
    requires marked { IsTrue rec.now.snap }
    ensures whole { IsTrue result ↔ IsWhole (length into.old) rec.now (length bytes.now) bytes.now }
    ensures spelled { IsTrue result → ZeroRun into.new (snapshot_of rec.now bytes.now) }
{
    let end = HEADER + usize::from(rec.plen);
    let all = end + usize::from(rec.slen);
    if check(&bytes[HEADER..end], into.len()).is_err() {
        return false;
    }
    match decode(&bytes[end..all], into) {
        Ok(()) => true,
        Err(_) => false,
    }
}
