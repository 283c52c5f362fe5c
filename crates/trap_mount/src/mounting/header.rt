//! The log's header, read at mounting.

ghost use Rattle.std.specs.Prelude.{◌≡◌, ◌≤◌, ◌+◌, length, IsTrue, OnOk, OnErr, IfOk, IfErr};
ghost use Rattle.std.specs.Prelude.{IsErrOf, false};
ghost use Rattle.trap_bank.specs.Disks.{region};
ghost use Rattle.trap_bank.specs.Faults.{Rose};
ghost use Rattle.trap_bank.specs.Calls.{Fits};
ghost use Rattle.trap_bank.specs.Steps.{OnlyReads};
ghost use Rattle.trap_mount.specs.Mounting.{IsNoLog, Refuses, MountFails, names_member};
ghost use Rattle.trap_mount.specs.MountSteps.{IsStable, ReadsHeader};

use crate::MountFault;
use trap_bank::{Bank, Failed};
use trap_format::layout::SLOTS_AT;
use trap_format::{is_log, log_len, read_log};
use trap_model::Geometry;

/// Syncs a disk, and reads its first bytes.
pub(super) fn settle<B: Bank>(bank: &mut B, d: u8, into: &mut [u8]) -> Result<(), Failed>
    requires disk { d ≤ 20 }
    requires there { Fits (B.view bank.old) d (length into.old) }
    ensures bytes { IsTrue (B.view bank.old).tells
        → OnOk result (into.new ≡ region (B.view bank.old).now.disks d 0 (length into.old)) }
    ensures stable { OnOk result (IsStable (B.view bank.new) d) }
    ensures reads { OnlyReads (B.view bank.old) (B.view bank.new) }
    ensures cause { OnErr result (Rose ((B.view bank.old).faults d) ((B.view bank.new).faults d)) }
{
    // A crash leaves what is read from here on.
    bank.sync(d)?;
    bank.read(d, 0, into)?;
    Ok(())
}

/// Reads the numbers of the array from the header of disk 0.
pub(super) fn read_header<B: Bank>(bank: &mut B) -> Result<Geometry, MountFault>
    ensures ok { IfOk result (λ g. ReadsHeader g (B.view bank.old) (B.view bank.new)) }
    ensures reads { OnlyReads (B.view bank.old) (B.view bank.new) }
    ensures no_log { IsNoLog ((B.view bank.old).sizes 0)
        → IsErrOf result MountFault.NotAnArray × (bank.new ≡ bank.old) }
    ensures refused { IfErr result (λ why. IsTrue (B.view bank.old).tells
        → Refuses (B.view bank.old) why) }
    ensures log { IfErr result (λ why. names_member why ≡ false) }
    ensures cause { IfErr result (λ why. MountFails why (B.view bank.old) (B.view bank.new)) }
{
    let Some(size) = bank.size(0) else {
        return Err(MountFault::NotAnArray);
    };
    // A log has room at least for its header and the head's cell.
    if size < SLOTS_AT {
        return Err(MountFault::NotAnArray);
    }
    let mut bytes = [0; 64];
    let Ok(()) = settle(bank, 0, &mut bytes) else {
        return Err(MountFault::LogFault);
    };
    if !is_log(&bytes) {
        return Err(MountFault::NotAnArray);
    }
    let Some(g) = read_log(&bytes) else {
        return Err(MountFault::Damaged { offset: 0 });
    };
    if log_len(&g) != size {
        return Err(MountFault::Damaged { offset: 0 });
    }
    Ok(g)
}
