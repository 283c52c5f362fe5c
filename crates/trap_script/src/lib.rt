//! The lines of a session and the texts of its replies.
#![tactic(auto)]

mod answers;
mod digits;
pub mod laws;
mod lines;
mod numbers;
#[cfg(test)]
mod tests;
pub mod text;

pub use answers::{Answer, Span4, write_answer};
pub use lines::{Line, longest_line, read_line};
pub use numbers::read_number;
