//! Blocks at past instants, of which the sixteen that were used last are kept.
#![tactic(auto)]

mod cache;
pub mod laws;
mod slots;

pub use cache::Cache;

#[cfg(test)]
mod tests;
