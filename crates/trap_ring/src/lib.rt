//! A ring of bytes on a disk, whose kept window no append touches.
#![tactic(auto)]

mod ring;

pub use ring::Ring;

#[cfg(test)]
mod tests;
