//! The frames of an array's retained entries, said on the port.
#![tactic(auto)]

mod fault;
mod framing;
pub mod laws;
mod parcel;
mod sending;
#[cfg(test)]
mod tests;

pub use fault::SendFault;
pub use parcel::Parcel;
pub use sending::send;
