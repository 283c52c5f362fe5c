//! Making an array on disks that aren't there, and mounting one: its state is found again.
#![tactic(auto)]

mod buffers;
mod creating;
#[cfg(test)]
mod creating_tests;
mod fault;
mod found;
pub mod laws;
mod mounting;
mod ring;

pub use buffers::Buffers;
pub use creating::create;
pub use fault::{CreateFault, MountFault};
pub use found::Found;
pub use mounting::mount;
pub use ring::ring_of;
