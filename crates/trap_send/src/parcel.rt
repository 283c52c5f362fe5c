//! The memory that sending takes.

ghost use Rattle.std.specs.Prelude.{◌≡◌, ◌^◌, ◌<◌, IfOk};

use std::alloc::{AllocError as OutOfMemory, Global};
use std::marker::Model;
use trap_port::Outgoing;

/// The frames that wait have at least this many bytes before they are said.
const PIECE_BYTES: usize = 32768;

/// A code is at most this much longer than its block.
const CODE_EXCESS: usize = 7;

/// And a frame at most this much: its header has 34 bytes.
pub(crate) const FRAME_EXCESS: usize = 41;

/// Room for a code, for a frame, and for frames that wait: a contract sees the size of the blocks
/// that it is for.
#[derive(Drop)]
pub struct Parcel {
    pub(crate) outgoing: Outgoing,
    pub(crate) code: Vec<u8>,
    pub(crate) frame: Vec<u8>,
    pub(crate) size: usize,
}

impl Model for Parcel {
    ghost use Rattle.std.specs.Prelude.{◌≡◌, ℕ, ◌+◌, [], vec_len};

    ghost Value = { ℕ };

    ghost view = { λ p. p.size };

    ghost invariant = { λ p. (vec_len p.code ≡ p.size + 7) × (vec_len p.frame ≡ p.size + 41)
        × (p.outgoing ≡ record { room = 32768 + p.size + 41; bytes = [] }) };
}

impl Parcel {
    /// Takes room for frames over blocks of `size` bytes.
    pub fn new(alloc: Global, size: usize) -> Result<Parcel, OutOfMemory>
        requires { size < 2 ^ 15 }
        ensures { IfOk result (λ parcel. parcel ≡ size) }
    {
        let outgoing = Outgoing::new(alloc, PIECE_BYTES + size + FRAME_EXCESS)?;
        let code = vec![in alloc; 0u8; size + CODE_EXCESS]?;
        let frame = vec![in alloc; 0u8; size + FRAME_EXCESS]?;
        Ok(Parcel {
            outgoing,
            code,
            frame,
            size,
        })
    }
}
