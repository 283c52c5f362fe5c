//! The log of an array: the head whose put commits, and the drain of what is pending.
#![tactic(auto)]

mod commit;
mod draining;
mod fault;
mod log;
mod refusals;

pub use fault::DrainFault;
pub use log::Log;
