//! The formats of an array's disks: which numbers it can have, the headers, and the head.
#![tactic(auto)]

mod head;
mod head_value;
pub mod laws;
pub mod layout;
mod limits;
mod log_disk;
mod member_disk;
mod pieces;
mod replica_disk;
pub mod replica_laws;
mod shape;

pub use head::Head;
pub use head_value::{read_head, spell_head};
pub use limits::{BadGeometry, Field, check};
pub use log_disk::{is_log, log_len, read_log, ring_len, ring_start, spell_log};
pub use member_disk::{member_len, read_member, spell_member};
pub use pieces::put_bytes;
pub use replica_disk::{check_shape, is_replica, read_replica, replica_len, spell_replica};
pub use shape::Shape;

#[cfg(test)]
mod tests;
