//! Why a stage could not be mounted.

ghost use Rattle.std.specs.Prelude.{◌≡◌};
ghost use Rattle.trap_stage.specs.declared.fault.StageFault.TheVariants as variant;

use std::alloc::AllocError;
use thiserror::Error;
use trap_bank::Failed;

/// Why a stage could not be mounted. Nothing was written.
#[derive(Debug, Drop, Error)]
pub enum StageFault {
    /// Disk 0 failed: its count of faults rose in the call.
    #[error("the disk failed")]
    DiskFault,
    /// The slot at this byte offset of disk 0 has another number than its own, or a block that
    /// isn't the array's.
    #[error("a staging slot is damaged")]
    Damaged { offset: u64 },
    /// There was no memory for the pending writes.
    #[error("out of memory")]
    OutOfMemory,
}

impl From<Failed> for StageFault {
    ghost from_gives = { λ _ e. e ≡ variant.DiskFault };

    fn from(_failed: Failed) -> StageFault {
        StageFault::DiskFault
    }
}

impl From<AllocError> for StageFault {
    ghost from_gives = { λ _ e. e ≡ variant.OutOfMemory };

    fn from(_none: AllocError) -> StageFault {
        StageFault::OutOfMemory
    }
}
