//! Reads, small writes and drains over the members of an array, of which one may be lost.
#![tactic(auto)]

mod own_disk;
#[cfg(test)]
mod pending_tests;
mod raid;
mod reads;
#[cfg(test)]
mod test_blocks;
#[cfg(test)]
mod tests;
mod writes;

pub use own_disk::{is_own, make_member};
pub use raid::Raid;
pub use reads::{MemberFailed, row_offset};
