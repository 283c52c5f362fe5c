//! A stream of frames, applied to a replica.
#![tactic(auto)]

mod applying;
mod counting;
mod feed;
pub mod laws;
mod outcome;
mod stepping;
mod summary;
#[cfg(test)]
mod tests;

pub use applying::apply;
pub use feed::Feed;
pub use outcome::{ApplyFault, Outcome};
pub use summary::{SUMMARY_BYTES, Summary, put_word_number, write_summary};
