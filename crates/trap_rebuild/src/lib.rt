//! The lost member's disk, made anew and rebuilt row by row.
#![tactic(auto)]

mod fault;
mod replacing;
mod rows;
mod stepping;
#[cfg(test)]
mod test_arrays;
#[cfg(test)]
mod tests;

pub use fault::RebuildFault;
pub use replacing::replace;
pub use stepping::{Progress, step};
