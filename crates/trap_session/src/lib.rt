//! A session: its lines, each with a reply.
#![tactic(auto)]

mod buffers;
mod outcome;
mod reply;
mod session;
#[cfg(test)]
mod tests;

pub use outcome::{Ended, Next, SessionFault};
pub use session::Session;
