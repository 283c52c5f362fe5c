//! Mounting: the state is found again, whatever a crash left.

ghost use Rattle.std.specs.Prelude.{◌≡◌, ◌≢◌, ◌↔◌, ◌≤◌, ◌<◌, ℕ, ◌+◌, IsTrue, IsErrOf, IfOk, IfErr};
ghost use Rattle.std.specs.Prelude.{OnOk, OnErr};
ghost use Rattle.std.specs.Option.{ForSome};
ghost use Rattle.trap_bank.specs.Disks.{Quiet};
ghost use Rattle.trap_bank.specs.Faults.{Rose};
ghost use Rattle.trap_bank.specs.Steps.{Moves};
ghost use Rattle.trap_mount.specs.Found.{array_of, IsFoundOn};
ghost use Rattle.trap_mount.specs.Holding.{head_place};
ghost use Rattle.trap_mount.specs.Mounting.{IsNoLog, KeepsEachState, WritesHead};
ghost use Rattle.trap_mount.specs.MountEnds.{MountsFor, MountEnds};
ghost use Rattle.trap_mount.specs.MountSteps.{IsHeadCell, MayPut, HasPut};
ghost use Rattle.trap_mount.specs.declared.fault.MountFault.{MountFault};

mod header;
mod history;
mod members;
mod records;
#[cfg(test)]
mod tests;

use crate::mounting::history::find_log;
use crate::mounting::members::find_members;
use crate::{Found, MountFault};
use std::alloc::Global;
use trap_bank::{Bank, DiskFault};
use trap_cell::Cell;
use trap_format::layout::HEAD_VALUE_BYTES;
use trap_format::{Head, spell_head};

/// Puts the head where it isn't the one that was found.
fn put_changed<B: Bank>(
    cell: &mut Cell,
    bank: &mut B,
    found: &Head,
    head: &Head,
) -> Result<(), DiskFault>
    requires cell { IsHeadCell cell.old (B.view bank.old) }
    requires lost { ForSome head.now.lost (λ member. member < 16) }
    ensures ok { OnOk result (Moves (B.view bank.old) (B.view bank.new)
        (MayPut cell.old found.now head.now)
        (HasPut (B.view bank.new) cell.old cell.new found.now head.now)) }
    ensures contents { IsTrue (B.view bank.old).tells
        → Quiet (MayPut cell.old found.now head.now) (B.view bank.old).now (B.view bank.new).now }
    ensures place { cell.new.place ≡ head_place }
    ensures sizes { (e : ℕ) → (B.view bank.new).sizes e ≡ (B.view bank.old).sizes e }
    ensures cause { OnErr result (Rose ((B.view bank.old).faults 0) ((B.view bank.new).faults 0)) }
    ensures any_moment { Moves (B.view bank.old) (B.view bank.new)
        (MayPut cell.old found.now head.now) (MayPut cell.old found.now head.now) }
{
    if *head == *found {
        return Ok(());
    }
    let mut value = [0; HEAD_VALUE_BYTES];
    spell_head(head, &mut value);
    // The member that is out, or whose rows no longer count, is recorded before a call relies on
    // it.
    cell.put(bank, &value)
}

/// Mounts the array that the disks hold. Nothing is written but the head, and that as the last
/// step, where a member is newly out or its rebuilt rows no longer count.
pub fn mount<B: Bank>(alloc: Global, bank: &mut B) -> Result<Found, MountFault>
    ensures mounted { IfOk result (λ found.
        MountsFor (array_of found) (B.view bank.old) (B.view bank.new)) }
    ensures knows { IfOk result (λ found. IsFoundOn found (B.view bank.old)) }
    ensures ended { IfErr result (λ why. MountEnds why (B.view bank.old) (B.view bank.new)) }
    ensures no_log { IsNoLog ((B.view bank.old).sizes 0)
        → IsErrOf result MountFault.NotAnArray × (bank.new ≡ bank.old) }
    ensures sizes { (e : ℕ) → (B.view bank.new).sizes e ≡ (B.view bank.old).sizes e }

    // Whatever the answer, no disk but the log changes.
    ensures others { IsTrue (B.view bank.old).tells
        → (e : ℕ) → e ≢ 0 → (B.view bank.new).now.disks e ≡ (B.view bank.old).now.disks e }

    // Stopped at any moment, the disks are as they were, but perhaps for the slot of the head's
    // cell that isn't current; or they hold what they held. A member is lost only where it was out.
    ensures keeps { KeepsEachState (B.view bank.old) (B.view bank.new) }

    // Nothing is written but the head, over whatever disks.
    ensures writes { WritesHead (B.view bank.old) (B.view bank.new) }
{
    let mut found = find_log(alloc, bank)?;
    let head = find_members(bank, &found.g, &found.head)?;
    let Ok(()) = put_changed(&mut found.cell, bank, &found.head, &head) else {
        return Err(MountFault::LogFault);
    };
    Ok(Found { head, ..found })
}
