//! What stands at a place, from the pending writes and the members' disks.

ghost use Rattle.std.specs.Prelude.{◌≡◌, ◌≢◌, ℕ, ◌+◌, ◌<◌, [], ◌∷◌, Option, Some, None, length};
ghost use Rattle.std.specs.Prelude.{IsTrue, OnOk, IfErr};
ghost use Rattle.trap_bank.specs.Called.{CalledTimes, TakesCalls};
ghost use Rattle.trap_block.specs.Xor.{xor_but};
ghost use Rattle.trap_format.specs.MemberDisk.{row_at};
ghost use Rattle.trap_pool.specs.Frames.{AreLeases, Only};
ghost use Rattle.trap_pool.specs.Pooled.{pool_block};
ghost use Rattle.trap_stage.specs.Staged.{newest_at, laid_over};
ghost use Rattle.trap_raid.specs.Members.{IsPlace, RowFits, BareFits, member_place};
ghost use Rattle.trap_raid.specs.Reads.{OnlyReads, FailedMember};
ghost use Rattle.trap_raid.specs.Standing.{calls_for, bare_others};

use trap_bank::{Bank, Failed};
use trap_format::layout::MEMBER_HEADER_BYTES;
use trap_map::Place;
use trap_model::Geometry;
use trap_pool::{Lease, Pool};
use trap_stage::Stage;

/// A member failed in the call: the count of faults of its disk rose.
#[derive(Debug, Clone, Copy, PartialEq, Eq)]
pub struct MemberFailed {
    /// The member, whose disk has the next number.
    pub member: u8,
}

/// Where a row begins on a member's disk, in bytes.
pub fn row_offset(g: &Geometry, row: u32) -> u64
    ensures { result ≡ row_at g.now row }
{
    MEMBER_HEADER_BYTES + u64::from(row) * u64::from(g.block)
}

/// Reads the bytes of a place from its member.
pub(crate) fn read_member<B: Bank>(
    g: &Geometry,
    bank: &mut B,
    place: Place,
    into: &mut [u8],
) -> Result<(), MemberFailed>
    requires place { IsPlace g.now place }
    requires disk { RowFits g.now (B.view bank.old) place.row place.member }
    requires into { length into.old ≡ g.now.block }
    ensures bytes { IsTrue (B.view bank.old).tells → OnOk result
        (into.new ≡ member_place g.now (B.view bank.old).now.disks place.row place.member) }
    ensures cause { IfErr result (λ failed. (failed.member ≡ place.member)
        × FailedMember g.now None (B.view bank.old) (B.view bank.new) failed.member) }
    ensures calls { CalledTimes 1 (B.view bank.old) (B.view bank.new) }
    ensures any_moment { OnlyReads (B.view bank.old) (B.view bank.new) }
{
    match bank.read(place.member + 1, row_offset(g, place.row), into) {
        Ok(()) => Ok(()),
        Err(Failed) => Err(MemberFailed {
            member: place.member,
        }),
    }
}

/// Reads what stands at a place of a member that isn't lost: the newest pending bytes, else the
/// member's.
pub(crate) fn read_standing<B: Bank>(
    g: &Geometry,
    bank: &mut B,
    stage: &Stage,
    place: Place,
    into: &mut [u8],
) -> Result<(), MemberFailed>
    requires stage { stage.now.g ≡ g.now }
    requires place { IsPlace g.now place }
    requires disk { BareFits g.now stage.now.pending (B.view bank.old) place.row place.member }
    requires into { length into.old ≡ g.now.block }
    ensures bytes { IsTrue (B.view bank.old).tells → OnOk result
        (into.new ≡ laid_over g.now stage.now.pending
        (member_place g.now (B.view bank.old).now.disks)
        place.row place.member) }
    ensures bare { IfErr result (λ failed.
        newest_at g.now stage.now.pending place.row place.member ≡ None) }
    ensures cause { IfErr result (λ failed. (failed.member ≡ place.member)
        × FailedMember g.now None (B.view bank.old) (B.view bank.new) failed.member) }
    ensures calls { CalledTimes
        (calls_for (newest_at g.now stage.now.pending place.row place.member))
        (B.view bank.old) (B.view bank.new) }
    ensures any_moment { OnlyReads (B.view bank.old) (B.view bank.new) }
{
    match stage.pending_at(place) {
        Some(bytes) => {
            into.copy_from_slice(bytes);
            Ok(())
        }
        None => read_member(g, bank, place, into),
    }
}

/// The exclusive-or of what stands at the other members' places of the row.
#[tactic(auto, using(crate::proofs::ReadLemmas::xor_but_more))]
pub(crate) fn read_others<B: Bank>(
    g: &Geometry,
    bank: &mut B,
    stage: &Stage,
    pool: &mut Pool,
    place: Place,
    into: &Lease,
    scratch: &Lease,
) -> Result<(), MemberFailed>
    requires stage { stage.now.g ≡ g.now }
    requires place { IsPlace g.now place }
    requires disks { (m : ℕ) → m < g.now.members → m ≢ place.member
        → BareFits g.now stage.now.pending (B.view bank.old) place.row m }
    requires size { pool.old.size ≡ g.now.block }
    requires leases { AreLeases pool.old (into.now ∷ scratch.now ∷ []) }
    ensures others { IsTrue (B.view bank.old).tells → OnOk result (pool_block pool.new into.now
        ≡ xor_but g.now.block place.member (laid_over g.now stage.now.pending
        (member_place g.now (B.view bank.old).now.disks)
        place.row) g.now.members) }
    ensures rest { Only (into.now ∷ scratch.now ∷ []) pool.old pool.new }
    ensures bare { IfErr result (λ failed.
        newest_at g.now stage.now.pending place.row failed.member ≡ None) }
    ensures cause { IfErr result (λ failed.
        FailedMember g.now (Some place.member) (B.view bank.old) (B.view bank.new) failed.member) }
    ensures calls { TakesCalls
        (bare_others g.now stage.now.pending place.row place.member g.now.members)
        result (B.view bank.old) (B.view bank.new) }
    ensures failed_calls { IfErr result (λ failed. CalledTimes
        (bare_others g.now stage.now.pending place.row place.member failed.member + 1)
        (B.view bank.old) (B.view bank.new)) }
    ensures any_moment { OnlyReads (B.view bank.old) (B.view bank.new) }
{
    pool.bytes_mut(into).fill(0);
    for member in 0..g.members {
        if member != place.member {
            let other = Place {
                member,
                row: place.row,
            };
            read_standing(g, bank, stage, other, pool.bytes_mut(scratch))?;
            pool.xor(into, scratch);
        }
    }
    Ok(())
}
