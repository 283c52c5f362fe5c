//! A reader of lines over a source of bytes.
#![tactic(auto)]

mod found;
mod reader;

pub use found::{Found, ReadFault};
pub use reader::LineReader;
