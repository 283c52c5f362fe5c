//! The frames of a stream: a header and the code of a parity, written, and read from a source
//! however it cuts the bytes.
#![tactic(auto)]

mod filling;
mod found;
mod header;
mod reader;
mod writer;

pub use found::{FrameFault, Next};
pub use reader::Frames;
pub use trap_model::Frame;
pub use writer::spell;

#[cfg(test)]
mod tests;
