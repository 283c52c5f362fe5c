//! Making an array: the members first, the log last, its gate last of all.

ghost use Rattle.std.specs.Prelude.{◌≡◌, ◌≢◌, ◌↔◌, ◌≤◌, ◌<◌, ◌^◌, ℕ, ◌+◌, ◌*◌, OnOk, OnErr, IsTrue};
ghost use Rattle.std.specs.Prelude.{◌⊎◌, IsErrOf, IsOk, IfErr, IfSome, IfNone, None, Some};
ghost use Rattle.trap_bank.specs.Called.{TakesCalls};
ghost use Rattle.trap_bank.specs.Faults.{Rose};
ghost use Rattle.trap_bank.specs.Steps.{Moves};
ghost use Rattle.trap_format.specs.LogDisk.{log_size};
ghost use Rattle.trap_mount.specs.CreateEnds.{IsMade, IsMaking, KeepsOrder, DisksBeyondStay};
ghost use Rattle.trap_mount.specs.Creating.{CreateFails, IsLowest, NoneIsThere, AreSized, OnlyDisk};
ghost use Rattle.trap_mount.specs.Creating.{OnlyMembers, HasNewMembers, ShutsLog};
ghost use Rattle.trap_mount.specs.Creating.{HasShutLog, MakesLog, HasNewLog};
ghost use Rattle.trap_mount.specs.declared.fault.CreateFault.TheVariants as fault;

use crate::CreateFault;
use trap_bank::{Bank, DiskFault, write_through};
use trap_cell::Cell;
use trap_format::layout::{CELL_AT, HEAD_VALUE_BYTES, OPEN_GATE};
use trap_format::{Head, log_len, spell_head, spell_log};
use trap_model::Geometry;
use trap_raid::{MemberFailed, make_member};

/// The head before the first write.
const FRESH: Head = Head {
    version: 1,
    lost: None,
    rebuilt: 0,
    first: 0,
    base_time: 0,
    first_off: 0,
    last: 0,
    end_off: 0,
    drained: 0,
    last_time: 0,
};

impl From<DiskFault> for CreateFault {
    ghost from_gives = { λ _ e. e ≡ fault.LogFault };

    fn from(_fault: DiskFault) -> CreateFault {
        CreateFault::LogFault
    }
}

impl From<MemberFailed> for CreateFault {
    ghost from_gives = { λ failed e. e ≡ fault.MemberFault failed.member failed.member };

    fn from(failed: MemberFailed) -> CreateFault {
        CreateFault::MemberFault {
            first: failed.member,
            second: failed.member,
        }
    }
}

/// The lowest of the array's disks that has a size.
fn lowest<B: Bank>(bank: &B, g: &Geometry) -> Option<u8>
    ensures some { IfSome result (λ d. IsLowest g.now (B.view bank.now) d) }
    ensures none { IfNone result (NoneIsThere g.now (B.view bank.now)) }
{
    for d in 0..g.members + 1 {
        if bank.size(d).is_some() {
            return Some(d);
        }
    }
    None
}

/// Makes the disks of all members.
fn create_members<B: Bank>(bank: &mut B, g: &Geometry) -> Result<(), MemberFailed>
    ensures ok { OnOk result (Moves (B.view bank.old) (B.view bank.new)
        (OnlyMembers g.now) (HasNewMembers g.now g.now.members)) }
    ensures made { OnOk result (AreSized g.now g.now.members (B.view bank.new)) }
    ensures sizes { (e : ℕ) → (e ≡ 0) ⊎ (g.now.members < e)
        → (B.view bank.new).sizes e ≡ (B.view bank.old).sizes e }
    ensures touches { IsTrue (B.view bank.old).tells
        → OnlyMembers g.now (B.view bank.old).now.disks (B.view bank.new).now.disks }
    ensures inside { IfErr result (λ failed. failed.member < g.now.members) }
    ensures cause { IfErr result (λ failed.
        Rose ((B.view bank.old).faults (failed.member + 1))
        ((B.view bank.new).faults (failed.member + 1))) }
    ensures calls { TakesCalls (3 * g.now.members) result (B.view bank.old) (B.view bank.new) }
    ensures any_moment { Moves (B.view bank.old) (B.view bank.new)
        (OnlyMembers g.now) (OnlyMembers g.now) }
{
    for member in 0..g.members {
        make_member(bank, g, member)?;
    }
    Ok(())
}

/// Makes the log with its gate off: the head's cell, and the header's other bytes.
fn shut_log<B: Bank>(bank: &mut B, g: &Geometry) -> Result<(), DiskFault>
    ensures ok { OnOk result (Moves (B.view bank.old) (B.view bank.new)
        ShutsLog (HasShutLog g.now)) }
    ensures size { OnOk result ((B.view bank.new).sizes 0 ≡ Some (log_size g.now)) }
    ensures sizes { (e : ℕ) → e ≢ 0 → (B.view bank.new).sizes e ≡ (B.view bank.old).sizes e }
    ensures touches { IsTrue (B.view bank.old).tells
        → OnlyDisk 0 (B.view bank.old).now.disks (B.view bank.new).now.disks }
    ensures cause { OnErr result (Rose ((B.view bank.old).faults 0) ((B.view bank.new).faults 0)) }
    ensures calls { TakesCalls 7 result (B.view bank.old) (B.view bank.new) }
    ensures any_moment { Moves (B.view bank.old) (B.view bank.new) ShutsLog ShutsLog }
{
    let mut head = [0; HEAD_VALUE_BYTES];
    spell_head(&FRESH, &mut head);
    let mut header = [0; 64];
    spell_log(g, &mut header);
    bank.make(0, log_len(g))?;
    // Head and header are stable before the gate says that they are there.
    Cell::first(bank, 0, CELL_AT, &head)?;
    write_through(bank, 0, 1, &header[1..])?;
    Ok(())
}

/// Makes the log, whatever stood on disk 0.
fn create_log<B: Bank>(bank: &mut B, g: &Geometry) -> Result<(), DiskFault>
    requires one_slot { g.now.slots ≡ 1 }
    ensures ok { OnOk result (Moves (B.view bank.old) (B.view bank.new)
        (MakesLog g.now) (HasNewLog g.now)) }
    ensures size { OnOk result ((B.view bank.new).sizes 0 ≡ Some (log_size g.now)) }
    ensures sizes { (e : ℕ) → e ≢ 0 → (B.view bank.new).sizes e ≡ (B.view bank.old).sizes e }
    ensures touches { IsTrue (B.view bank.old).tells
        → OnlyDisk 0 (B.view bank.old).now.disks (B.view bank.new).now.disks }
    ensures cause { OnErr result (Rose ((B.view bank.old).faults 0) ((B.view bank.new).faults 0)) }
    ensures calls { TakesCalls 9 result (B.view bank.old) (B.view bank.new) }
    ensures any_moment { Moves (B.view bank.old) (B.view bank.new)
        (MakesLog g.now) (MakesLog g.now) }
{
    // An id that is read is known to fit the header's field.
    let _id = g.id;
    shut_log(bank, g)?;
    // The gate is a write of its own: whatever byte a crash leaves of it, disk 0 is a whole log or
    // no log.
    write_through(bank, 0, 0, &[OPEN_GATE])?;
    Ok(())
}

/// Makes an array: the members first, the log last, its gate last of all. Nothing is done where a
/// disk of the array is there.
pub fn create<B: Bank>(bank: &mut B, g: &Geometry) -> Result<(), CreateFault>
    requires one_slot { g.now.slots ≡ 1 }
    ensures made { OnOk result (IsMade g.now (B.view bank.old) (B.view bank.new)) }

    // It succeeds where no disk of the array is there, and none of them fails.
    ensures complete { NoneIsThere g.now (B.view bank.old)
        → ((d : ℕ) → d ≤ g.now.members
        → Rose ((B.view bank.old).faults d) ((B.view bank.new).faults d) → ⊥)
        → IsOk result }

    // The disks beyond the members stay.
    ensures beside { DisksBeyondStay g.now (B.view bank.old) (B.view bank.new) }

    // It is refused exactly where a disk of the array has a size, with the lowest of them; the bank
    // isn't called then.
    ensures exists { (d : ℕ) → IsErrOf result (fault.Exists d)
        ↔ IsLowest g.now (B.view bank.old) d }
    ensures untouched { (d : ℕ) → IsLowest g.now (B.view bank.old) d → bank.new ≡ bank.old }
    ensures cause { IfErr result (λ why.
        CreateFails g.now why (B.view bank.old) (B.view bank.new)) }

    // Stopped at any moment, the log's gate is off, or the disks hold the fresh array.
    ensures making { NoneIsThere g.now (B.view bank.old)
        → IsMaking g.now (B.view bank.old) (B.view bank.new) }

    // Stopped at any moment, the members were made before the log.
    ensures order { KeepsOrder g.now (B.view bank.old) (B.view bank.new) }
{
    if let Some(disk) = lowest(bank, g) {
        return Err(CreateFault::Exists { disk });
    }
    // All members are stable before the log's gate says that they are there.
    create_members(bank, g)?;
    Ok(create_log(bank, g)?)
}
