//! The reader of a stream, with its memory.

ghost use Rattle.std.specs.Prelude.{◌≡◌, ◌^◌, ◌<◌, IfOk};

use std::alloc::{AllocError as OutOfMemory, Global};
use std::marker::Model;
use trap_frame::Frames;

/// The reader of one stream: a contract sees the size of its blocks. All memory that a run needs
/// is taken with it.
#[derive(Drop)]
pub struct Feed {
    pub(crate) frames: Frames,
    pub(crate) parity: Vec<u8>,
}

impl Model for Feed {
    ghost use Rattle.std.specs.Prelude.{◌≡◌, ℕ, None, vec_len};

    ghost Value = { ℕ };

    ghost view = { λ f. f.frames.size };

    ghost invariant = { λ f. (f.frames.used ≡ 0) × (f.frames.fault ≡ None)
        × (vec_len f.parity ≡ f.frames.size) };
}

impl Feed {
    /// Takes the memory to read a stream over blocks of `size` bytes.
    pub fn new(alloc: Global, size: usize) -> Result<Feed, OutOfMemory>
        requires { size < 2 ^ 15 }
        ensures { IfOk result (λ feed. feed ≡ size) }
    {
        let frames = Frames::new(alloc, size)?;
        let parity = vec![in alloc; 0u8; size]?;
        Ok(Feed { frames, parity })
    }
}
