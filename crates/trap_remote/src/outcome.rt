//! How the commands of a replica end.

use trap_apply::ApplyFault;
use trap_format::Field;
use trap_replica::ReplicaFault;

/// How a replica's command ended.
#[derive(Debug, Clone, Copy, PartialEq, Eq)]
pub enum ReplicaEnd {
    /// It was done, and its input was read to its end.
    Done,
    /// There was no memory.
    Memory,
    /// The port failed: its count of faults rose.
    Port,
    /// A number breaks its limit: this field's is the first.
    BadGeometry(Field),
    /// The replica could not be mounted.
    NoReplica(ReplicaFault),
    /// No replica was made.
    NotMade(ReplicaFault),
    /// The frames were taken up to this fault.
    NotApplied(ApplyFault),
    /// Disk 17 failed while its image was said.
    NotExported,
}

/// The numbers of a replica that is asked for: an array's id, the size of a block in bytes, and how
/// many blocks.
#[derive(Debug, Clone, Copy, PartialEq, Eq)]
pub struct AskedReplica {
    pub id: u64,
    pub block: u64,
    pub volume: u64,
}

/// The number and the time that a loaded image begins with.
#[derive(Debug, Clone, Copy, PartialEq, Eq)]
pub struct Start {
    pub seq: u64,
    pub time: u64,
}
