//! The 34 bytes that head a frame.

ghost use Rattle.std.specs.Prelude.{◌≡◌, ◌+◌, ◌^◌, ◌<◌, ◌≤◌, ◌↔◌, List, ◌++◌, length, take, drop};
ghost use Rattle.std.specs.Prelude.{IsTrue, IfSome, IfNone};
ghost use Rattle.trap_model.specs.Frame.{frame_magic, frame_header, BeginsFrame, IsFrameInRange};
ghost use Rattle.trap_frame.specs.Headers.{HasFrameFields};

use trap_block::{get_u16, get_u32, get_u64, put_u16, put_u32, put_u64};
use trap_model::Frame;

/// How many bytes a header has.
pub const HEADER: usize = 34;

/// Where the array's id is, after the magic bytes.
const ID_AT: usize = 4;

/// Where the entry's number is.
const SEQ_AT: usize = 12;

/// Where its time is.
const TIME_AT: usize = 20;

/// Where the block's number is.
const BLOCK_AT: usize = 28;

/// Where the length of the code is.
const LENGTH_AT: usize = 32;

/// The magic bytes.
const MAGIC: [u8; 4] = [b'T', b'P', b'F', b'1'];

// Whether the bytes begin with the magic ones.
fn has_magic(bytes: &[u8]) -> bool
    ensures { IsTrue result ↔ (take 4 bytes.now ≡ frame_magic) }
{
    bytes.starts_with(&MAGIC)
}

// Whether the number and the length keep their ranges.
fn keeps_ranges(frame: Frame, size: usize) -> bool
    requires { size < 2 ^ 15 }
    ensures { IsTrue result ↔ IsFrameInRange size frame }
{
    if frame.seq < 1 {
        return false;
    }
    if frame.seq > 1 << 40 {
        return false;
    }
    if frame.length < 4 {
        return false;
    }
    usize::from(frame.length) <= size + 7
}

// The fields at their places.
fn fields_in(bytes: &[u8]) -> Frame
    requires { 34 ≤ length bytes.now }
    ensures { HasFrameFields bytes.now result }
{
    Frame {
        id: get_u64(bytes, ID_AT),
        seq: get_u64(bytes, SEQ_AT),
        time: get_u64(bytes, TIME_AT),
        block: get_u32(bytes, BLOCK_AT),
        length: get_u16(bytes, LENGTH_AT),
    }
}

/// The header that begins the bytes, where its fields keep their ranges.
pub fn read_header(bytes: &[u8], size: usize) -> Option<Frame>
    requires size { size < 2 ^ 15 }
    requires long { 34 ≤ length bytes.now }
    ensures found { IfSome result (λ frame. BeginsFrame size frame bytes.now) }
    ensures none { IfNone result ((frame : Frame) → ¬ BeginsFrame size frame bytes.now) }
{
    if !has_magic(bytes) {
        return None;
    }
    let frame = fields_in(bytes);
    if !keeps_ranges(frame, size) {
        return None;
    }
    Some(frame)
}

// Writes the magic bytes over the first four.
fn put_magic(out: &mut [u8])
    requires { 4 ≤ length out.old }
    ensures { out.new ≡ frame_magic ++ drop 4 out.old }
{
    out[..ID_AT].copy_from_slice(&MAGIC);
}

/// Writes a header over the first 34 bytes.
pub fn put_header(frame: &Frame, out: &mut [u8])
    requires { 34 ≤ length out.old }
    ensures spelled { out.new ≡ frame_header frame.now ++ drop 34 out.old }

    // What the types of the fields say.
    ensures id { frame.now.id < 2 ^ 64 }
    ensures time { frame.now.time < 2 ^ 64 }
    ensures block { frame.now.block < 2 ^ 32 }
{
    put_magic(out);
    put_u64(out, ID_AT, frame.id);
    put_u64(out, SEQ_AT, frame.seq);
    put_u64(out, TIME_AT, frame.time);
    put_u32(out, BLOCK_AT, frame.block);
    put_u16(out, LENGTH_AT, frame.length);
}
