//! The disk of one member: made anew, or found to be the member's own.

ghost use Rattle.std.specs.Prelude.{◌≡◌, ◌≢◌, ◌↔◌, ◌<◌, ℕ, ◌+◌, Some, IsTrue, OnOk, OnErr, IfOk};
ghost use Rattle.std.specs.Prelude.{IfErr};
ghost use Rattle.trap_bank.specs.Called.{TakesCalls};
ghost use Rattle.trap_bank.specs.Faults.{Rose};
ghost use Rattle.trap_bank.specs.Steps.{Moves, OnlyReads};
ghost use Rattle.trap_format.specs.MemberDisk.{member_size, member_header};
ghost use Rattle.trap_raid.specs.Members.{HasFailed, IsMember};
ghost use Rattle.trap_raid.specs.OwnDisk.{OnlyDisk, HasMember, IsStable, ReadsMember, LooksOnce};

use crate::MemberFailed;
use trap_bank::{Bank, Failed, write_through};
use trap_format::{member_len, read_member, spell_member};
use trap_model::Geometry;

/// Makes the disk of a member, whatever stood there: its header, and a zero block at each place.
pub fn make_member<B: Bank>(bank: &mut B, g: &Geometry, member: u8) -> Result<(), MemberFailed>
    requires { member < g.now.members }
    ensures ok { OnOk result (Moves (B.view bank.old) (B.view bank.new)
        (OnlyDisk (member + 1)) (HasMember g.now member)) }
    ensures size { OnOk result ((B.view bank.new).sizes (member + 1) ≡ Some (member_size g.now)) }
    ensures sizes { (e : ℕ) → e ≢ member + 1
        → (B.view bank.new).sizes e ≡ (B.view bank.old).sizes e }
    ensures touches { IsTrue (B.view bank.old).tells
        → OnlyDisk (member + 1) (B.view bank.old).now.disks (B.view bank.new).now.disks }
    ensures cause { IfErr result (λ failed. (failed.member ≡ member)
        × HasFailed (B.view bank.old) (B.view bank.new) failed.member) }
    ensures calls { TakesCalls 3 result (B.view bank.old) (B.view bank.new) }
    ensures any_moment { Moves (B.view bank.old) (B.view bank.new)
        (OnlyDisk (member + 1)) (OnlyDisk (member + 1)) }
{
    let mut header = [0; 16];
    spell_member(g.id, member, &mut header);
    // The zeros are stable when the disk is made.
    let Ok(()) = bank.make(member + 1, member_len(g)) else {
        return Err(MemberFailed { member });
    };
    // The header is stable before a head, or the log's gate, says that the member is there.
    match write_through(bank, member + 1, 0, &header) {
        Ok(()) => Ok(()),
        Err(Failed) => Err(MemberFailed { member }),
    }
}

/// Whether the bytes are the header of the member.
fn is_header(bytes: &[u8; 16], id: u64, member: u8) -> bool
    ensures { IsTrue result ↔ (bytes.now ≡ member_header id member) }
{
    match read_member(bytes) {
        Some((other, m)) => other == id && m == member,
        None => false,
    }
}

/// Syncs the disk of a member, and reads whether its header is the member's own.
fn has_header<B: Bank>(bank: &mut B, g: &Geometry, member: u8) -> Result<bool, Failed>
    requires member { member < 16 }
    requires size { (B.view bank.old).sizes (member + 1) ≡ Some (member_size g.now) }
    ensures own { IfOk result (λ is. IsTrue (B.view bank.old).tells
        → (IsTrue is ↔ IsMember g.now (B.view bank.old).now.disks member)) }
    ensures stable { OnOk result (IsStable (B.view bank.new) (member + 1)) }
    ensures reads { OnlyReads (B.view bank.old) (B.view bank.new) }
    ensures cause { OnErr result (HasFailed (B.view bank.old) (B.view bank.new) member) }
    ensures calls { TakesCalls 2 result (B.view bank.old) (B.view bank.new) }
{
    let mut bytes = [0; 16];
    // A crash leaves what is read from here on.
    bank.sync(member + 1)?;
    bank.read(member + 1, 0, &mut bytes)?;
    Ok(is_header(&bytes, g.id, member))
}

/// Whether the disk has the member's size and header. A disk of another size isn't read.
pub fn is_own<B: Bank>(bank: &mut B, g: &Geometry, member: u8) -> Result<bool, MemberFailed>
    requires member { member < 16 }
    ensures own { IfOk result (λ is. IsTrue (B.view bank.old).tells
        → (IsTrue is ↔ IsMember g.now (B.view bank.old).now.disks member)) }
    ensures read { IfOk result (λ is. IsTrue is
        → ReadsMember g.now member (B.view bank.old) (B.view bank.new)) }
    ensures reads { OnlyReads (B.view bank.old) (B.view bank.new) }

    // It fails only where the disk has the member's size.
    ensures sized { OnErr result ((B.view bank.old).sizes (member + 1) ≡ Some (member_size g.now)) }
    ensures cause { IfErr result (λ failed. (failed.member ≡ member)
        × HasFailed (B.view bank.old) (B.view bank.new) failed.member) }
    ensures calls { LooksOnce g.now member result (B.view bank.old) (B.view bank.new) }
{
    if bank.size(member + 1) != Some(member_len(g)) {
        return Ok(false);
    }
    match has_header(bank, g, member) {
        Ok(is) => Ok(is),
        Err(Failed) => Err(MemberFailed { member }),
    }
}
