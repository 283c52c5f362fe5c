//! The rows of the lost member, written as they stand at their places.

ghost use Rattle.std.specs.Prelude.{◌≡◌, ◌<◌, ◌≤◌, ℕ, ◌+◌, ◌-◌, [], ◌∷◌, Some, IsTrue, OnOk, IfErr};
ghost use Rattle.trap_bank.specs.Called.{TakesCalls};
ghost use Rattle.trap_bank.specs.Disks.{Differs, Torn};
ghost use Rattle.trap_bank.specs.Steps.{Moves};
ghost use Rattle.trap_pool.specs.Frames.{AreLeases, Only};
ghost use Rattle.trap_raid.specs.Draining.{place_area};
ghost use Rattle.trap_raid.specs.Members.{IsPlace, HasFailed, member_place};
ghost use Rattle.trap_raid.specs.Standing.{standing_at, reads_of};
ghost use Rattle.trap_rebuild.specs.Rebuilding.{AllFit, InNextRows, AreRebuilt, RebuildsRows};
ghost use Rattle.trap_rebuild.specs.Rebuilding.{row_calls};

use trap_bank::{Bank, Failed};
use trap_map::Place;
use trap_pool::{Lease, Pool};
use trap_raid::{MemberFailed, Raid, row_offset};
use trap_stage::Stage;

/// Writes what stands at a place of the lost member to its disk. A crash may leave any bytes there.
fn rebuild_row<B: Bank>(
    bank: &mut B,
    raid: &Raid,
    stage: &Stage,
    pool: &mut Pool,
    place: Place,
    into: &Lease,
    scratch: &Lease,
) -> Result<(), MemberFailed>
    requires place { IsPlace raid.now.g place }
    requires disks { AllFit raid.now.g (B.view bank.old) }
    requires stage { stage.now.g ≡ raid.now.g }
    requires size { pool.old.size ≡ raid.now.g.block }
    requires leases { AreLeases pool.old (into.now ∷ scratch.now ∷ []) }
    ensures written { IsTrue (B.view bank.old).tells → OnOk result
        (member_place raid.now.g (B.view bank.new).now.disks place.row place.member
        ≡ standing_at raid.now.g raid.now.lost stage.now.pending
        (member_place raid.now.g (B.view bank.old).now.disks) place.row place.member) }
    ensures rest { Only (into.now ∷ scratch.now ∷ []) pool.old pool.new }
    ensures contents { IsTrue (B.view bank.old).tells
        → Torn (place_area raid.now.g place.row place.member)
        (B.view bank.old).now (B.view bank.new).now }
    ensures sizes { (e : ℕ) → (B.view bank.new).sizes e ≡ (B.view bank.old).sizes e }
    ensures cause { IfErr result (λ failed. (failed.member < raid.now.g.members)
        × HasFailed (B.view bank.old) (B.view bank.new) failed.member) }
    ensures calls { TakesCalls (reads_of raid.now.g raid.now.lost stage.now.pending place.row
        place.member + 1) result (B.view bank.old) (B.view bank.new) }

    // Stopped at any moment, no other place has changed.
    ensures any_moment { Moves (B.view bank.old) (B.view bank.new)
        (Differs (place_area raid.now.g place.row place.member))
        (Differs (place_area raid.now.g place.row place.member)) }
{
    raid.read_place(bank, stage, pool, place, into, scratch)?;
    let at = row_offset(&raid.geometry(), place.row);
    match bank.write(place.member + 1, at, pool.bytes(into)) {
        Ok(()) => Ok(()),
        Err(Failed) => Err(MemberFailed {
            member: place.member,
        }),
    }
}

/// Writes the lost member's rows from its mark up to a later one.
fn write_rows<B: Bank>(
    bank: &mut B,
    raid: &Raid,
    stage: &Stage,
    pool: &mut Pool,
    member: u8,
    upto: u32,
    into: &Lease,
    scratch: &Lease,
) -> Result<(), MemberFailed>
    requires lost { (raid.now.lost ≡ Some member) × (member < raid.now.g.members) }
    requires upto { (raid.now.rebuilt ≤ upto) × (upto ≤ raid.now.g.rows) }
    requires disks { AllFit raid.now.g (B.view bank.old) }
    requires stage { stage.now.g ≡ raid.now.g }
    requires size { pool.old.size ≡ raid.now.g.block }
    requires leases { AreLeases pool.old (into.now ∷ scratch.now ∷ []) }
    ensures written { IsTrue (B.view bank.old).tells → OnOk result
        (AreRebuilt raid.now stage.now.pending
        (member_place raid.now.g (B.view bank.old).now.disks) upto (B.view bank.new).now.disks) }
    ensures rest { Only (into.now ∷ scratch.now ∷ []) pool.old pool.new }
    ensures contents { IsTrue (B.view bank.old).tells
        → Torn (InNextRows raid.now upto) (B.view bank.old).now (B.view bank.new).now }
    ensures sizes { (e : ℕ) → (B.view bank.new).sizes e ≡ (B.view bank.old).sizes e }
    ensures cause { IfErr result (λ failed. (failed.member < raid.now.g.members)
        × HasFailed (B.view bank.old) (B.view bank.new) failed.member) }
    ensures calls { TakesCalls
        (row_calls raid.now stage.now.pending member (upto - raid.now.rebuilt))
        result (B.view bank.old) (B.view bank.new) }

    // Stopped at any moment, nothing but these rows has changed.
    ensures any_moment { Moves (B.view bank.old) (B.view bank.new)
        (Differs (InNextRows raid.now upto)) (Differs (InNextRows raid.now upto)) }
{
    for row in raid.rebuilt()..upto {
        let place = Place { member, row };
        rebuild_row(bank, raid, stage, pool, place, into, scratch)?;
    }
    Ok(())
}

/// Writes the lost member's rows from its mark up to a later one, and syncs its disk.
pub(crate) fn rebuild_rows<B: Bank>(
    bank: &mut B,
    raid: &Raid,
    stage: &Stage,
    pool: &mut Pool,
    member: u8,
    upto: u32,
    into: &Lease,
    scratch: &Lease,
) -> Result<(), MemberFailed>
    requires lost { (raid.now.lost ≡ Some member) × (member < raid.now.g.members) }
    requires upto { (raid.now.rebuilt ≤ upto) × (upto ≤ raid.now.g.rows) }
    requires disks { AllFit raid.now.g (B.view bank.old) }
    requires stage { stage.now.g ≡ raid.now.g }
    requires size { pool.old.size ≡ raid.now.g.block }
    requires leases { AreLeases pool.old (into.now ∷ scratch.now ∷ []) }
    ensures rebuilt { OnOk result (RebuildsRows raid.now stage.now.pending upto
        (B.view bank.old) (B.view bank.new)) }
    ensures rest { Only (into.now ∷ scratch.now ∷ []) pool.old pool.new }
    ensures contents { IsTrue (B.view bank.old).tells
        → Torn (InNextRows raid.now upto) (B.view bank.old).now (B.view bank.new).now }
    ensures sizes { (e : ℕ) → (B.view bank.new).sizes e ≡ (B.view bank.old).sizes e }
    ensures cause { IfErr result (λ failed. (failed.member < raid.now.g.members)
        × HasFailed (B.view bank.old) (B.view bank.new) failed.member) }
    ensures calls { TakesCalls
        (row_calls raid.now stage.now.pending member (upto - raid.now.rebuilt) + 1)
        result (B.view bank.old) (B.view bank.new) }

    // Stopped at any moment, nothing but these rows has changed.
    ensures any_moment { Moves (B.view bank.old) (B.view bank.new)
        (Differs (InNextRows raid.now upto)) (Differs (InNextRows raid.now upto)) }
{
    write_rows(bank, raid, stage, pool, member, upto, into, scratch)?;
    // The rows are stable before a head says that they count.
    match bank.sync(member + 1) {
        Ok(()) => Ok(()),
        Err(Failed) => Err(MemberFailed { member }),
    }
}
