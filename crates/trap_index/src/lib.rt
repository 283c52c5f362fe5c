//! Which records the log retains, what their headers tell, and where they stand in the ring.
#![tactic(auto)]

mod index;
mod item;
pub mod laws;
mod times;

pub use index::Index;
pub use item::Item;
pub use trap_model::{Known, Path, Way};

#[cfg(test)]
mod tests;
