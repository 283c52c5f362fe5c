//! Where the blocks and the parities of an array stand on its members.
#![tactic(auto)]

pub mod laws;
mod places;

pub use places::{Owner, Place, parity_of, place_of, whose};

#[cfg(test)]
mod tests;
