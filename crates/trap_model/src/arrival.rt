//! What arrives at a receiver, and what becomes of it.

ghost use Rattle.std.specs.Prelude.{◌≡◌, length, replicate, IfOk};

use std::alloc::{AllocError as OutOfMemory, Global};
use std::marker::Model;

/// The parity of a write: old contents xor new ones. A contract sees the list of its bytes.
#[derive(Debug, Drop)]
pub struct Parity {
    bytes: Vec<u8>,
}

impl Model for Parity {
    ghost use Rattle.std.specs.Prelude.{ℕ, List};

    ghost Value = { List ℕ };

    ghost view = { λ p. p.bytes.items };
}

impl Parity {
    /// Room for a parity of `size` bytes, all zero.
    pub fn zeros(alloc: Global, size: usize) -> Result<Parity, OutOfMemory>
        ensures { IfOk result (λ parity. parity ≡ replicate size 0) }
    {
        Ok(Parity {
            bytes: vec![in alloc; 0; size]?,
        })
    }

    /// The bytes.
    pub fn as_slice(&self) -> &[u8]
        ensures { result.now ≡ self.now }
    {
        self.bytes.as_slice()
    }

    /// Copies the bytes over the parity's.
    pub fn fill(&mut self, bytes: &[u8])
        requires { length bytes.now ≡ length self.old }
        ensures { self.new ≡ bytes.now }
    {
        self.bytes.as_mut_slice().copy_from_slice(bytes);
    }
}

/// A frame that came whole, as a receiver takes it.
#[derive(Debug, Drop)]
pub struct Arrival {
    /// The entry's number.
    pub seq: u64,
    /// The entry's time.
    pub time: u64,
    /// The block that it writes.
    pub block: u32,
    /// The block's old contents xor the new ones.
    pub parity: Parity,
}

/// What becomes of a frame.
#[derive(Clone, Copy, Debug, PartialEq, Eq)]
pub enum Taken {
    /// It was the next, and is applied, as are the held ones that follow it. The number applied is
    /// now this.
    Applied { upto: u64 },
    /// It is held until those before it have come.
    Held,
    /// It was applied or held before.
    Repeat,
    /// It lies beyond the window, and was left out.
    Beyond,
}
