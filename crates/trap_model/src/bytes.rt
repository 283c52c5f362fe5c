//! The contents of a block.

ghost use Rattle.std.specs.Prelude.{◌≡◌, replicate, length, IfOk};

use std::alloc::{AllocError as OutOfMemory, Global};
use std::marker::Model;

/// The contents of a block. A contract sees the list of its bytes.
#[derive(Debug, Drop)]
pub struct Block {
    bytes: Vec<u8>,
}

impl Model for Block {
    ghost use Rattle.std.specs.Prelude.{ℕ, List};

    ghost Value = { List ℕ };

    ghost view = { λ b. b.bytes.items };
}

impl Block {
    /// Copies the bytes.
    pub fn new(alloc: Global, bytes: &[u8]) -> Result<Block, OutOfMemory>
        ensures { IfOk result (λ block. block ≡ bytes.now) }
    {
        let mut copy = Vec::with_capacity(alloc, bytes.len())?;
        copy.extend_from_slice(bytes)?;
        Ok(Block { bytes: copy })
    }

    /// A block of zero bytes.
    pub(crate) fn zeros(alloc: Global, size: usize) -> Result<Block, OutOfMemory>
        ensures { IfOk result (λ block. block ≡ replicate size 0) }
    {
        Ok(Block {
            bytes: vec![in alloc; 0; size]?,
        })
    }

    /// The bytes.
    pub fn as_slice(&self) -> &[u8]
        ensures { result.now ≡ self.now }
    {
        self.bytes.as_slice()
    }
}
