//! The commands of a replica: it is made or loaded, takes frames, and its image is said.
#![tactic(auto)]

mod applying;
mod creating;
mod exporting;
mod lines;
mod loading;
mod outcome;
#[cfg(test)]
mod tests;

pub use applying::apply_frames;
pub use creating::create_replica;
pub use exporting::export_replica;
pub use loading::load_replica;
pub use outcome::{AskedReplica, ReplicaEnd, Start};
