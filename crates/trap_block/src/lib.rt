//! Blocks of bytes: their exclusive-or, searches for zeros in them, and big-endian numbers in them.
#![tactic(auto)]

mod bits;
mod fields;
pub mod lanes;
pub mod laws;
mod pieces;
mod zeros;

pub use bits::{is_zero, xor_into};
pub use fields::{get_u16, get_u32, get_u64, put_u16, put_u32, put_u64};
pub use pieces::put;
pub use zeros::{four_zeros, four_zeros_before, zeros_from};

#[cfg(test)]
mod tests;
