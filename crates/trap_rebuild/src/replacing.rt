//! The disk of the lost member, kept or made anew.

ghost use Rattle.std.specs.Prelude.{◌≡◌, ◌≢◌, ◌↔◌, ℕ, ◌+◌, Some, Err, IsTrue, OnOk, IfErr};
ghost use Rattle.trap_bank.specs.Steps.{Moves};
ghost use Rattle.trap_raid.specs.OwnDisk.{OnlyDisk};
ghost use Rattle.trap_rebuild.specs.Replacing.{named, HasOwnDisk, KeepsMark, ReplaceFails};
ghost use Rattle.trap_rebuild.specs.declared.fault.RebuildFault.TheVariants as fault;

use crate::RebuildFault;
use trap_bank::Bank;
use trap_raid::{Raid, is_own, make_member};

/// Gives the lost member a disk of its own, where its disk has another size or header. It is made
/// anew then, and none of its rows is rebuilt. The caller has put a head with mark 0 first.
pub fn replace<B: Bank>(
    bank: &mut B,
    raid: &mut Raid,
    id: u64,
    member: u64,
) -> Result<(), RebuildFault>
    ensures ok { OnOk result (HasOwnDisk (named raid.old.g id) member (B.view bank.new)) }

    // The mark falls only where the disk is made anew.
    ensures mark { KeepsMark (named raid.old.g id) member raid.old raid.new
        (B.view bank.old) (B.view bank.new) }
    ensures not_lost { (result ≡ Err (fault.NotLost member)) ↔ (raid.old.lost ≢ Some member) }
    ensures untouched { raid.old.lost ≢ Some member
        → (raid.new ≡ raid.old) × (bank.new ≡ bank.old) }
    ensures sizes { (e : ℕ) → e ≢ member + 1
        → (B.view bank.new).sizes e ≡ (B.view bank.old).sizes e }
    ensures touches { IsTrue (B.view bank.old).tells
        → OnlyDisk (member + 1) (B.view bank.old).now.disks (B.view bank.new).now.disks }
    ensures cause { IfErr result (ReplaceFails member (B.view bank.old) (B.view bank.new)) }

    // Stopped at any moment, no other disk has changed.
    ensures any_moment { Moves (B.view bank.old) (B.view bank.new)
        (OnlyDisk (member + 1)) (OnlyDisk (member + 1)) }
{
    let Some(lost) = raid.lost() else {
        return Err(RebuildFault::NotLost { member });
    };
    if u64::from(lost) != member {
        return Err(RebuildFault::NotLost { member });
    }
    let mut g = raid.geometry();
    g.id = id;
    if is_own(bank, &g, lost)? {
        return Ok(());
    }
    raid.set_rebuilt(0);
    make_member(bank, &g, lost)?;
    Ok(())
}
