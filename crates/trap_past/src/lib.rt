//! A block as it was: its present contents, with the parities of the writes since taken back.
#![tactic(auto)]

pub mod laws;
mod memory;
mod source;
mod undo;

pub use memory::MemoryPast;
pub use source::{Parities, Present};
pub use undo::block_at;

#[cfg(test)]
mod tests;
