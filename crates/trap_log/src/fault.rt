//! Why a drain did not end.

ghost use Rattle.std.specs.Prelude.{◌≡◌};
ghost use Rattle.trap_log.specs.declared.fault.DrainFault.TheVariants.{LogFault, MemberFault};

use trap_bank::DiskFault;
use trap_raid::MemberFailed;

/// Why a drain did not end. The log is of no further use, and the disks hold the state still: mount
/// the array again.
#[derive(Debug, Clone, Copy, PartialEq, Eq)]
pub enum DrainFault {
    /// Disk 0 failed: its count of faults rose in the call.
    LogFault,
    /// A member failed of which some row counts: not the lost one, unless rows of it are rebuilt.
    /// The count of its disk rose in the call.
    MemberFault { member: u8 },
}

impl From<DiskFault> for DrainFault {
    ghost from_gives = { λ _ e. e ≡ LogFault };

    fn from(_fault: DiskFault) -> DrainFault {
        DrainFault::LogFault
    }
}

impl From<MemberFailed> for DrainFault {
    ghost from_gives = { λ failed e. e ≡ MemberFault failed.member };

    fn from(failed: MemberFailed) -> DrainFault {
        DrainFault::MemberFault {
            member: failed.member,
        }
    }
}
