//! A large valid input from a number: writes of blocks all over a volume.
#![tactic(auto)]

mod drill;
mod generator;
pub mod laws;

pub use drill::Drill;

#[cfg(test)]
mod tests;
