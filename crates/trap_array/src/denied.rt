//! The faults of the layers below, as a call of an array answers them; and which of its answers are
//! faults.

ghost use Rattle.std.specs.Prelude.{◌≡◌};
ghost use Rattle.trap_array.specs.Calls.{is_fault};
ghost use Rattle.trap_array.specs.Ending.{denied_by};
ghost use Rattle.trap_array.specs.declared.fault.Denied.TheVariants.{LogFault, MemberFault};

use crate::Denied;
use trap_bank::DiskFault;
use trap_log::DrainFault;
use trap_raid::MemberFailed;

impl From<DiskFault> for Denied {
    ghost from_gives = { λ _ e. e ≡ LogFault };

    fn from(_fault: DiskFault) -> Denied {
        Denied::LogFault
    }
}

impl From<MemberFailed> for Denied {
    ghost from_gives = { λ failed e. e ≡ MemberFault failed.member failed.member };

    fn from(failed: MemberFailed) -> Denied {
        Denied::MemberFault {
            first: failed.member,
            second: failed.member,
        }
    }
}

impl From<DrainFault> for Denied {
    ghost from_gives = { λ fault e. e ≡ denied_by fault };

    fn from(fault: DrainFault) -> Denied {
        match fault {
            DrainFault::LogFault => Denied::LogFault,
            DrainFault::MemberFault { member } => Denied::MemberFault {
                first: member,
                second: member,
            },
        }
    }
}

/// Whether a call ended by a fault, which stops the array.
pub(crate) fn has_failed<T>(answer: &Result<T, Denied>) -> bool
    ensures { result ≡ is_fault answer.now }
{
    matches!(answer, Err(Denied::LogFault | Denied::MemberFault { .. }))
}
