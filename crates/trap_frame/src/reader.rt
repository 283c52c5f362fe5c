//! A reader of frames. It takes the bytes of one frame at a time and no more, and no memory after
//! it is made.

ghost use Rattle.std.specs.Prelude.{◌≡◌, ◌+◌, ◌^◌, ◌<◌, ◌≤◌, vec_len};

use trap_model::Frame;

mod reading;

use crate::found::FrameFault;

/// A reader of the frames of a stream over blocks of `size` bytes.
#[derive(Debug, Drop)]
pub struct Frames {
    buf: Vec<u8>,
    size: usize,
    used: u64,
    fault: Option<FrameFault>,
    ghost room: { vec_len buf ≡ size + 41 },
    ghost small: { size < 2 ^ 15 },
    ghost at_most: { used ≤ 2 ^ 40 },
}
