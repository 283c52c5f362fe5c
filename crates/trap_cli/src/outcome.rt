//! How runs end.

use trap_array::{CreateFault, MountFault};
use trap_format::Field;
use trap_remote::ReplicaEnd;
use trap_session::SessionFault;

/// The instant with a number isn't retained.
#[derive(Debug, Clone, Copy, PartialEq, Eq)]
pub enum Unretained {
    /// The number is below the first that is retained, which is `bound`.
    NotKept { bound: u64 },
    /// The number is above the last, which is `last`.
    Ahead { last: u64 },
}

/// How a run ends.
#[derive(Debug, Clone, Copy, PartialEq, Eq)]
pub enum Ended {
    /// The array was made, the lines were answered up to the end of the input or to `Q`, or the
    /// history or the frames were said.
    Done,
    /// The words are no command.
    Usage,
    /// A number of `create` breaks its limit: this field's is the first.
    BadGeometry(Field),
    /// No array was made.
    NotCreated(CreateFault),
    /// The array could not be mounted.
    NotMounted(MountFault),
    /// The array has no such instant.
    NotRetained(Unretained),
    /// The session stopped, or `send` found no frame of an entry.
    Stopped(SessionFault),
    /// The reply port failed while `create` said that the array is made, in the lines of `history`,
    /// or in the frames of `send`.
    Port,
    /// There was no memory for the session, or for the frames.
    Memory,
    /// A replica's command ended so.
    Replica(ReplicaEnd),
}
