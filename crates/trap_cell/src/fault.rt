//! Why a cell could not be mounted.

ghost use Rattle.std.specs.Prelude.{◌≡◌};
ghost use Rattle.trap_cell.specs.declared.fault.CellFault.TheVariants.{DiskFault};

use thiserror::Error;
use trap_bank::Failed;

/// Why a cell could not be mounted. Nothing was written.
#[derive(Debug, Drop, Error)]
pub enum CellFault {
    /// Neither slot is on.
    #[error("no value")]
    NoValue,
    /// The disk failed: its count of faults rose in the call.
    #[error("the disk failed")]
    DiskFault,
}

impl From<Failed> for CellFault {
    ghost from_gives = { λ _ e. e ≡ DiskFault };

    fn from(_failed: Failed) -> CellFault {
        CellFault::DiskFault
    }
}
