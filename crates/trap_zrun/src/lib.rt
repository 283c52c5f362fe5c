//! The code of a block: runs of zero bytes and literals between them, one spelling for each block.
#![tactic(auto)]

mod pieces;
mod reader;
mod scans;
mod writer;

pub use reader::{BadCode, check, decode};
pub use writer::code;

#[cfg(test)]
mod tests;
