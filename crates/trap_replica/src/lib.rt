//! A replica: an image of the array's volume on a disk of its own, which frames move on.
#![tactic(auto)]

mod applying;
mod creating;
mod exporting;
mod fault;
mod held;
pub mod laws;
mod layout;
mod loading;
mod mounting;
mod replica;
mod settling;
mod store;
mod taking;
#[cfg(test)]
mod tests;

pub use creating::create;
pub use exporting::ExportFault;
pub use fault::ReplicaFault;
pub use loading::load;
pub use replica::Replica;
pub use trap_model::{Frame, Taken};
