//! Bytes on their way to the port: many pieces wait until they are said in one call.
#![tactic(auto)]

mod outgoing;
#[cfg(test)]
mod tests;

pub use outgoing::Outgoing;
