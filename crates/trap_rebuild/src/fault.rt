//! Why a rebuild stopped.

ghost use Rattle.std.specs.Prelude.{◌≡◌};
ghost use Rattle.trap_rebuild.specs.declared.fault.RebuildFault.TheVariants as fault;

use trap_raid::MemberFailed;

/// Why the lost member's disk could not be replaced or rebuilt.
#[derive(Debug, Clone, Copy, PartialEq, Eq)]
pub enum RebuildFault {
    /// This member isn't the lost one. Nothing was done.
    NotLost { member: u64 },
    /// A member failed: the count of its disk rose in the call. The rows below the mark are as they
    /// were, and none above it counts.
    MemberFailed { member: u8 },
}

impl From<MemberFailed> for RebuildFault {
    ghost from_gives = { λ failed e. e ≡ fault.MemberFailed failed.member };

    fn from(failed: MemberFailed) -> RebuildFault {
        RebuildFault::MemberFailed {
            member: failed.member,
        }
    }
}
