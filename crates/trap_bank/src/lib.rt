//! Traits of the outside: disks with a reply port, a source of bytes, and turns for background
//! work.
#![tactic(auto)]

mod chosen;
mod crashing;
mod disk;
mod disks;
mod draws;
mod filling;
mod input;
mod listed;
mod memory;
mod memory_calls;
mod memory_input;
mod memory_steps;
mod record;
#[cfg(test)]
mod tests;
mod through;
mod turning;

pub use disks::{Bank, DiskFault, Failed};
pub use filling::fill;
pub use input::Source;
pub use listed::{ListTurns, Steady};
pub use memory::MemoryBank;
pub use memory_input::MemorySource;
pub use through::write_through;
pub use turning::{Turn, Turns};
