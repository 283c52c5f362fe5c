//! Images of a volume.

ghost use Rattle.std.specs.Prelude.{◌≡◌, ◌<◌, length, replicate, set, IfOk};
ghost use Rattle.trap_model.specs.Image.{block_of};

use crate::Block;
use std::alloc::{AllocError as OutOfMemory, Global};
use std::marker::Model;

/// An image of a volume. A contract sees the list of its blocks.
#[derive(Debug, Drop)]
pub struct Image {
    blocks: Vec<Block>,
}

impl Model for Image {
    ghost use Rattle.std.specs.Prelude.{ℕ, List};

    ghost Value = { List (List ℕ) };

    ghost view = { λ image. image.blocks.items };
}

impl Image {
    /// So many zero blocks of one size.
    pub(crate) fn zeros(alloc: Global, count: usize, size: usize) -> Result<Image, OutOfMemory>
        ensures { IfOk result (λ image. image ≡ replicate count (replicate size 0)) }
    {
        let mut blocks = Vec::with_capacity(alloc, count)?;
        for _ in 0..count {
            blocks.push(Block::zeros(alloc, size)?)?;
        }
        Ok(Image { blocks })
    }

    /// How many blocks it has.
    pub(crate) fn len(&self) -> usize
        ensures { result ≡ length self.now }
    {
        self.blocks.len()
    }

    /// The block with this number.
    pub(crate) fn block(&self, number: usize) -> &Block
        requires { number < length self.now }
        ensures { result.now ≡ block_of self.now number }
    {
        &self.blocks[number]
    }

    /// Sets the block with this number.
    pub(crate) fn put(&mut self, number: usize, bytes: Block)
        requires { number < length self.old }
        ensures { self.new ≡ set self.old number bytes }
    {
        self.blocks[number] = bytes;
    }
}
