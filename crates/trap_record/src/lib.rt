//! The records of a log: a header and one code or two, written and read exactly.
#![tactic(auto)]

mod header;
pub mod laws;
mod parts;
mod reader;
mod writer;

pub use parts::{Part, read_part};
pub use reader::{ReadRec, read};
pub use trap_model::LogRec;
pub use writer::spell;

#[cfg(test)]
mod tests;
