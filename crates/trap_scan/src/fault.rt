//! Why records could not be read.

ghost use Rattle.std.specs.Prelude.{◌≡◌};
ghost use Rattle.trap_scan.specs.Faults.{check_fault};
ghost use Rattle.trap_scan.specs.declared.fault.ScanFault.TheVariants as scan;
ghost use Rattle.trap_scan.specs.declared.fault.CheckFault.TheVariants as check;

use std::alloc::AllocError as OutOfMemory;
use trap_bank::DiskFault;

/// Why the next record could not be read.
#[derive(Clone, Copy, Debug, PartialEq, Eq)]
pub enum ScanFault {
    /// The ring's disk failed: its count of faults rose in the call.
    DiskFault,
    /// No record that may come next stands at this offset in the ring.
    Damaged { at: u64 },
}

impl From<DiskFault> for ScanFault {
    ghost from_gives = { λ _ e. e ≡ scan.DiskFault };

    fn from(_fault: DiskFault) -> ScanFault {
        ScanFault::DiskFault
    }
}

/// Why the records are not known to stand.
#[derive(Clone, Copy, Debug, PartialEq, Eq)]
pub enum CheckFault {
    /// The ring's disk failed: its count of faults rose in the call.
    DiskFault,
    /// The first record that is not right begins at this offset in the ring.
    Damaged { at: u64 },
    /// There was no memory for the buffer. Nothing was read.
    OutOfMemory,
}

impl From<OutOfMemory> for CheckFault {
    ghost from_gives = { λ _ e. e ≡ check.OutOfMemory };

    fn from(_fault: OutOfMemory) -> CheckFault {
        CheckFault::OutOfMemory
    }
}

impl From<ScanFault> for CheckFault {
    ghost from_gives = { λ fault e. e ≡ check_fault fault };

    fn from(fault: ScanFault) -> CheckFault {
        match fault {
            ScanFault::DiskFault => CheckFault::DiskFault,
            ScanFault::Damaged { at } => CheckFault::Damaged { at },
        }
    }
}
