//! A region of blocks, taken at once, and leases of them.
#![tactic(auto)]

mod bytes;
pub mod laws;
mod live;
mod pool;

pub use pool::{Lease, Pool};

#[cfg(test)]
mod tests;
