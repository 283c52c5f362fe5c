//! The array: a log whose head commits, and members under it.
#![tactic(auto)]

mod array;
mod coded;
mod denied;
mod fault;
mod fetch;
mod held;
mod instant;
pub mod laws;
mod log_past;
mod mount;
mod past;
#[cfg(test)]
mod past_tests;
#[cfg(test)]
mod plain_tests;
mod planning;
mod read;
mod refusals;
#[cfg(test)]
mod small;
mod source;
mod span;
#[cfg(test)]
mod span_tests;
mod write;
mod writing;

pub use array::Array;
pub use fault::Denied;
pub use span::Span;
pub use trap_mount::{CreateFault, MountFault, create, laws as mount_laws};
