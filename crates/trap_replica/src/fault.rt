//! Why a replica could not be made, loaded or mounted, or a frame not be taken.

ghost use Rattle.std.specs.Prelude.{◌≡◌};
ghost use Rattle.trap_replica.specs.declared.fault.ReplicaFault.TheVariants as fault;

use std::alloc::AllocError;
use thiserror::Error;
use trap_bank::{DiskFault, Failed};

/// Why a replica's call was refused or failed.
#[derive(Clone, Copy, Debug, PartialEq, Eq, Error)]
pub enum ReplicaFault {
    /// That disk is there already.
    #[error("the disk is there")]
    Exists { disk: u8 },
    /// Disk 17 is absent, or doesn't begin as a replica.
    #[error("not a replica")]
    NotAReplica,
    /// What stands at a byte offset of disk 17 has no meaning.
    #[error("a part of the replica is damaged")]
    Damaged { offset: u64 },
    /// Disk 17 failed: its count of faults rose in the call.
    #[error("the replica's disk failed")]
    DiskFault,
    /// The source failed: its count of faults rose in the call.
    #[error("the input failed")]
    ReadFault,
    /// The image ended after `at` bytes.
    #[error("the image is too short")]
    ShortImage { at: u64 },
    /// A byte follows the first `at`, which are a whole image.
    #[error("the image is too long")]
    LongImage { at: u64 },
    /// The frame is of another array.
    #[error("a frame of another array")]
    Stranger { id: u64 },
    /// The frame's block isn't below the volume.
    #[error("no such block")]
    NoBlock { block: u32 },
    /// The disk failed before: the replica has to be mounted again.
    #[error("stopped")]
    Stopped,
    /// There was no memory.
    #[error("out of memory")]
    OutOfMemory,
}

impl From<DiskFault> for ReplicaFault {
    ghost from_gives = { λ _ e. e ≡ fault.DiskFault };

    fn from(_fault: DiskFault) -> ReplicaFault {
        ReplicaFault::DiskFault
    }
}

impl From<Failed> for ReplicaFault {
    ghost from_gives = { λ _ e. e ≡ fault.DiskFault };

    fn from(_failed: Failed) -> ReplicaFault {
        ReplicaFault::DiskFault
    }
}

impl From<AllocError> for ReplicaFault {
    ghost from_gives = { λ _ e. e ≡ fault.OutOfMemory };

    fn from(_error: AllocError) -> ReplicaFault {
        ReplicaFault::OutOfMemory
    }
}
