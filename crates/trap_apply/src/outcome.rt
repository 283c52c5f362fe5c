//! How a run ends.

use crate::Summary;
use trap_frame::FrameFault;
use trap_replica::ReplicaFault;

/// Why no more frames were taken.
#[derive(Clone, Copy, Debug, PartialEq, Eq)]
pub enum ApplyFault {
    /// The stream has no frame there.
    Stream(FrameFault),
    /// The replica refused the frame, or its disk failed.
    Replica(ReplicaFault),
}

/// What became of a stream, and why it wasn't read to its end, if it wasn't.
#[derive(Clone, Copy, Debug, PartialEq, Eq)]
pub struct Outcome {
    pub summary: Summary,
    pub fault: Option<ApplyFault>,
}
