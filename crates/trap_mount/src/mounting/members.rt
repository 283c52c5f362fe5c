//! The members' disks, looked at when an array is mounted.

ghost use Rattle.std.specs.Prelude.{◌≡◌, ◌≢◌, ◌≤◌, ◌<◌, ◌+◌, ℕ, Some, None, IsTrue, OnOk};
ghost use Rattle.std.specs.Prelude.{IfOk, IfErr, IfSome, IfNone};
ghost use Rattle.std.specs.Option.{ForSome};
ghost use Rattle.trap_bank.specs.Steps.{OnlyReads};
ghost use Rattle.trap_format.specs.HeadValue.{IsHead};
ghost use Rattle.trap_format.specs.declared.head.Head.{Head};
ghost use Rattle.trap_mount.specs.Mounting.{Refuses, MountFails, SizesShow, HasRecords, HasMembers};
ghost use Rattle.trap_mount.specs.MountSteps.{IsOnlyOut, IsFirstOut, FindsLost};
ghost use Rattle.trap_mount.specs.MountSteps.{ReadsMember, ReadsMembers, IsNextMember, KeepsRows};
ghost use Rattle.trap_mount.specs.MountSteps.{FindsMembers};

use crate::MountFault;
use trap_bank::Bank;
use trap_format::Head;
use trap_model::Geometry;
use trap_raid::is_own;

/// The lowest member whose disk is absent, but for one.
fn lowest_absent<B: Bank>(bank: &B, members: u8, but: Option<u8>) -> Option<u8>
    requires { members ≤ 16 }
    ensures some { IfSome result
        (λ m. (m < members) × (but ≢ Some m) × ((B.view bank.now).sizes (m + 1) ≡ None)
        × ((k : ℕ) → k < m → but ≢ Some k → (B.view bank.now).sizes (k + 1) ≢ None)) }
    ensures none { IfNone result
        ((k : ℕ) → k < members → but ≢ Some k → (B.view bank.now).sizes (k + 1) ≢ None) }
{
    for member in 0..members {
        if but != Some(member) && bank.size(member + 1).is_none() {
            return Some(member);
        }
    }
    None
}

/// The first member that is out: the recorded lost one, or else the lowest absent one.
fn first_out<B: Bank>(bank: &B, g: &Geometry, head: &Head) -> Option<u8>
    requires head { IsHead g.now head.now }
    ensures { IsFirstOut g.now head.now.lost (B.view bank.now) result }
{
    match head.lost {
        None => lowest_absent(bank, g.members, None),
        Some(member) => Some(member),
    }
}

/// The member that is out, if one is. A second one is refused.
fn find_lost<B: Bank>(bank: &B, g: &Geometry, head: &Head) -> Result<Option<u8>, MountFault>
    requires head { IsHead g.now head.now }
    ensures ok { IfOk result (λ lost. FindsLost g.now head.now.lost lost (B.view bank.now)) }
    ensures refused { IfErr result (λ why. IsTrue (B.view bank.now).tells
        → HasRecords g.now head.now (B.view bank.now).now.disks → Refuses (B.view bank.now) why) }
    ensures shown { IfErr result (λ why. SizesShow g.now why (B.view bank.now)) }
    ensures cause { IfErr result (λ why. MountFails why (B.view bank.now) (B.view bank.now)) }
{
    let out = first_out(bank, g, head);
    let Some(first) = out else {
        return Ok(None);
    };
    match lowest_absent(bank, g.members, out) {
        None => Ok(out),
        Some(second) => Err(MountFault::TooManyLost { first, second }),
    }
}

/// Checks that the disk of a member is its own.
fn check_member<B: Bank>(bank: &mut B, g: &Geometry, member: u8) -> Result<(), MountFault>
    requires member { member < g.now.members }
    ensures ok { OnOk result (ReadsMember g.now member (B.view bank.old) (B.view bank.new)) }
    ensures reads { OnlyReads (B.view bank.old) (B.view bank.new) }
    ensures wrong { IfErr result (λ why. IsTrue (B.view bank.old).tells → (h : Head)
        → IsNextMember g.now h (B.view bank.old).now.disks member
        → HasMembers g.now h (B.view bank.old).now.disks → Refuses (B.view bank.old) why) }
    ensures shown { IfErr result (λ why. SizesShow g.now why (B.view bank.old)) }
    ensures cause { IfErr result (λ why. MountFails why (B.view bank.old) (B.view bank.new)) }
{
    match is_own(bank, g, member) {
        Ok(true) => Ok(()),
        Ok(false) => Err(MountFault::WrongMember { member }),
        Err(_) => Err(MountFault::MemberFault {
            first: member,
            second: member,
        }),
    }
}

/// Checks that the disk of each member is its own, but for the lost one's.
fn check_members<B: Bank>(bank: &mut B, g: &Geometry, lost: Option<u8>) -> Result<(), MountFault>
    ensures ok { OnOk result
        (ReadsMembers g.now lost g.now.members (B.view bank.old) (B.view bank.new)) }
    ensures reads { OnlyReads (B.view bank.old) (B.view bank.new) }
    ensures refused { IfErr result (λ why. IsTrue (B.view bank.old).tells → (h : Head)
        → IsOnlyOut g.now h.lost lost (B.view bank.old).now.disks
        → HasMembers g.now h (B.view bank.old).now.disks → Refuses (B.view bank.old) why) }
    ensures shown { IfErr result (λ why. SizesShow g.now why (B.view bank.old)) }
    ensures cause { IfErr result (λ why. MountFails why (B.view bank.old) (B.view bank.new)) }
{
    for member in 0..g.members {
        if lost != Some(member) {
            check_member(bank, g, member)?;
        }
    }
    Ok(())
}

/// How many rows of a member that is recorded lost count: those before, or none where its disk
/// isn't its own or fails.
fn rows_of<B: Bank>(bank: &mut B, g: &Geometry, member: u8, rebuilt: u32) -> u32
    requires member { member < 16 }
    ensures rows { KeepsRows g.now member rebuilt result (B.view bank.old) (B.view bank.new) }
    ensures reads { OnlyReads (B.view bank.old) (B.view bank.new) }
{
    let Ok(own) = is_own(bank, g, member) else {
        return 0;
    };
    if own { rebuilt } else { 0 }
}

/// How many rows of the lost member count. A newly lost one has none.
fn rebuilt_rows<B: Bank>(bank: &mut B, g: &Geometry, head: &Head) -> u32
    requires head { IsHead g.now head.now }
    ensures none { head.now.lost ≡ None → result ≡ 0 }
    ensures some { (m : ℕ) → head.now.lost ≡ Some m
        → KeepsRows g.now m head.now.rebuilt result (B.view bank.old) (B.view bank.new) }
    ensures reads { OnlyReads (B.view bank.old) (B.view bank.new) }
{
    match head.lost {
        None => 0,
        Some(member) => rows_of(bank, g, member, head.rebuilt),
    }
}

/// Looks at the members' disks: the head with the member that is out, and with how many of its rows
/// count.
pub(super) fn find_members<B: Bank>(
    bank: &mut B,
    g: &Geometry,
    head: &Head,
) -> Result<Head, MountFault>
    requires head { IsHead g.now head.now }
    ensures ok { IfOk result
        (λ next. FindsMembers g.now head.now next (B.view bank.old) (B.view bank.new)) }
    ensures reads { OnlyReads (B.view bank.old) (B.view bank.new) }
    ensures refused { IfErr result (λ why. IsTrue (B.view bank.old).tells
        → HasRecords g.now head.now (B.view bank.old).now.disks → Refuses (B.view bank.old) why) }
    ensures shown { IfErr result (λ why. SizesShow g.now why (B.view bank.old)) }
    ensures cause { IfErr result (λ why. MountFails why (B.view bank.old) (B.view bank.new)) }
{
    let lost = find_lost(bank, g, head)?;
    check_members(bank, g, lost)?;
    let rebuilt = rebuilt_rows(bank, g, head);
    Ok(Head {
        lost,
        rebuilt,
        ..*head
    })
}
