//! The members of an array, of which one may be lost.

ghost use Rattle.std.specs.Prelude.{◌≡◌, ◌<◌, ◌≤◌, ℕ, List, [], ◌∷◌, Option, Some, None, IsTrue};
ghost use Rattle.std.specs.Prelude.{OnOk, IfErr};
ghost use Rattle.std.specs.Option.{ForSome};
ghost use Rattle.trap_model.specs.Image.{volume};
ghost use Rattle.trap_map.specs.Table.{table};
ghost use Rattle.trap_bank.specs.Called.{CalledTimes, TakesCalls};
ghost use Rattle.trap_bank.specs.Disks.{Differs, Torn};
ghost use Rattle.trap_bank.specs.Steps.{Moves};
ghost use Rattle.trap_model.specs.Image.{IsImage};
ghost use Rattle.trap_pool.specs.Frames.{AreLeases, Only};
ghost use Rattle.trap_pool.specs.Pooled.{pool_block};
ghost use Rattle.trap_raid.specs.Members.{Counts, IsPlace, PlaceFits, BlockFits, DrainFits};
ghost use Rattle.trap_raid.specs.Members.{HoldImage, member_place};
ghost use Rattle.trap_raid.specs.Draining.{writes_to, Drains, InDrained, IsDrainedTo, drain_calls};
ghost use Rattle.trap_raid.specs.Reads.{OnlyReads, FailedMember, IsReadFor, IsReadForBlock};
ghost use Rattle.trap_raid.specs.Reads.{StopsPlanAt};
ghost use Rattle.trap_raid.specs.Standing.{standing_at, reads_of, reads_until, plan_reads};
ghost use Rattle.trap_raid.specs.Plan.{IsPlan, IsPlanFrom};

use crate::MemberFailed;
use crate::reads::{read_member, read_others};
use crate::writes::write_slot;
use std::marker::Model;
use trap_bank::Bank;
use trap_map::{Place, parity_of, place_of};
use trap_model::Geometry;
use trap_pool::{Lease, Pool};
use trap_stage::Stage;

/// The numbers of an array, and the member that is lost. A contract sees them as a `Condition`. The
/// bytes of the members are the bank's.
#[derive(Debug, Drop)]
pub struct Raid {
    g: Geometry,
    lost: Option<u8>,
    rebuilt: u32,
}

impl Model for Raid {
    ghost use Rattle.trap_raid.specs.Condition.{Condition, IsWithin};

    ghost Value = { Condition };

    ghost view = { λ r. record { g = r.g; lost = r.lost; rebuilt = r.rebuilt } };

    ghost invariant = { λ r. IsWithin r.g r.lost r.rebuilt };
}

impl Raid {
    /// The members of an array, with the lost one and how many of its rows are rebuilt.
    pub fn new(g: Geometry, lost: Option<u8>, rebuilt: u32) -> Raid
        requires member { ForSome lost (λ member. member < g.members) }
        requires rows { rebuilt < g.rows }
        ensures { result ≡ record { g = g; lost = lost; rebuilt = rebuilt } }
    {
        Raid { g, lost, rebuilt }
    }

    /// From here on the member is the lost one, with no row rebuilt.
    pub fn lose(&mut self, member: u8)
        requires { member < self.old.g.members }
        ensures { self.new ≡ record self.old { lost = Some member; rebuilt = 0 } }
    {
        self.lost = Some(member);
        self.rebuilt = 0;
    }

    /// From here on this many rows of the lost member are rebuilt.
    pub fn set_rebuilt(&mut self, rebuilt: u32)
        requires { rebuilt < self.old.g.rows }
        ensures { self.new ≡ record self.old { rebuilt = rebuilt } }
    {
        self.rebuilt = rebuilt;
    }

    /// From here on no member is lost.
    pub fn whole(&mut self)
        ensures { self.new ≡ record self.old { lost = None; rebuilt = 0 } }
    {
        self.lost = None;
        self.rebuilt = 0;
    }

    /// The numbers of the array.
    pub fn geometry(&self) -> Geometry
        ensures { result ≡ self.now.g }
    {
        self.g
    }

    /// The lost member.
    pub fn lost(&self) -> Option<u8>
        ensures lost { result ≡ self.now.lost }
        ensures member { ForSome result (λ member. member < self.now.g.members) }
    {
        self.lost
    }

    /// How many rows of the lost member are rebuilt, from row 0 on.
    pub fn rebuilt(&self) -> u32
        ensures rebuilt { result ≡ self.now.rebuilt }
        ensures rows { result < self.now.g.rows }
    {
        self.rebuilt
    }

    /// Reads what stands at a place: the newest pending bytes, else its member's, or where that
    /// member is lost, the exclusive-or of what stands at the other members' places of the row.
    /// After a failure `into` and `scratch` hold any bytes.
    pub fn read_place<B: Bank>(
        &self,
        bank: &mut B,
        stage: &Stage,
        pool: &mut Pool,
        place: Place,
        into: &Lease,
        scratch: &Lease,
    ) -> Result<(), MemberFailed>
        requires stage { stage.now.g ≡ self.now.g }
        requires place { IsPlace self.now.g place }
        requires disks { PlaceFits self.now.g self.now.lost stage.now.pending (B.view bank.old)
            place.row place.member }
        requires size { pool.old.size ≡ self.now.g.block }
        requires leases { AreLeases pool.old (into.now ∷ scratch.now ∷ []) }
        ensures bytes { IsTrue (B.view bank.old).tells
            → OnOk result (pool_block pool.new into.now ≡ standing_at self.now.g
            self.now.lost stage.now.pending (member_place self.now.g (B.view bank.old).now.disks)
            place.row place.member) }
        ensures table { IsTrue (B.view bank.old).tells → (image : List (List ℕ))
            → IsImage self.now.g image
            → HoldImage self.now.g self.now.lost stage.now.pending
            (member_place self.now.g (B.view bank.old).now.disks) image
            → OnOk result
            (pool_block pool.new into.now ≡ table self.now.g image place.row place.member) }

        // No other block changes, whatever the answer.
        ensures rest { Only (into.now ∷ scratch.now ∷ []) pool.old pool.new }
        ensures read { IfErr result (λ failed. IsReadFor self.now.g self.now.lost stage.now.pending
            place.row place.member failed.member) }
        ensures cause { IfErr result (λ failed.
            FailedMember self.now.g self.now.lost (B.view bank.old) (B.view bank.new)
            failed.member) }
        ensures calls { TakesCalls
            (reads_of self.now.g self.now.lost stage.now.pending place.row place.member)
            result (B.view bank.old) (B.view bank.new) }

        // Nothing is read after a failure.
        ensures failed_calls { IfErr result (λ failed. CalledTimes
            (reads_until self.now.g self.now.lost stage.now.pending place.row place.member
            failed.member) (B.view bank.old) (B.view bank.new)) }

        // Stopped at any moment, the disks are as they were.
        ensures any_moment { OnlyReads (B.view bank.old) (B.view bank.new) }
    {
        if let Some(bytes) = stage.pending_at(place) {
            pool.bytes_mut(into).copy_from_slice(bytes);
            return Ok(());
        }
        if self.lost == Some(place.member) {
            read_others(&self.g, bank, stage, pool, place, into, scratch)
        } else {
            read_member(&self.g, bank, place, pool.bytes_mut(into))
        }
    }

    /// What a write of `fresh` to the block changes: `delta` becomes the old bytes xor the fresh
    /// ones, and `parity` the parity of the block's row after the write. After a failure `delta`,
    /// `parity` and `scratch` hold any bytes.
    pub fn write_plan<B: Bank>(
        &self,
        bank: &mut B,
        stage: &Stage,
        pool: &mut Pool,
        block: u32,
        fresh: &Lease,
        delta: &Lease,
        parity: &Lease,
        scratch: &Lease,
    ) -> Result<(), MemberFailed>
        requires stage { stage.now.g ≡ self.now.g }
        requires block { block < volume self.now.g }
        requires disks { BlockFits self.now.g self.now.lost stage.now.pending (B.view bank.old)
            block }
        requires size { pool.old.size ≡ self.now.g.block }
        requires leases { AreLeases pool.old
            (fresh.now ∷ delta.now ∷ parity.now ∷ scratch.now ∷ []) }
        ensures bytes { IsTrue (B.view bank.old).tells → OnOk result (IsPlanFrom self.now.g
            (standing_at self.now.g self.now.lost stage.now.pending
            (member_place self.now.g (B.view bank.old).now.disks))
            block (pool_block pool.old fresh.now) (pool_block pool.new delta.now)
            (pool_block pool.new parity.now)) }
        ensures plan { IsTrue (B.view bank.old).tells → (image : List (List ℕ))
            → IsImage self.now.g image
            → HoldImage self.now.g self.now.lost stage.now.pending
            (member_place self.now.g (B.view bank.old).now.disks) image
            → OnOk result (IsPlan self.now.g image block (pool_block pool.old fresh.now)
            (pool_block pool.new delta.now) (pool_block pool.new parity.now)) }

        // No other block changes, whatever the answer; so `fresh` stays.
        ensures rest { Only (delta.now ∷ parity.now ∷ scratch.now ∷ []) pool.old pool.new }
        ensures read { IfErr result (λ failed.
            IsReadForBlock self.now.g self.now.lost stage.now.pending block failed.member) }
        ensures cause { IfErr result (λ failed.
            FailedMember self.now.g self.now.lost (B.view bank.old) (B.view bank.new)
            failed.member) }
        ensures calls { TakesCalls (plan_reads self.now.g self.now.lost stage.now.pending block)
            result (B.view bank.old) (B.view bank.new) }

        // Nothing is read after a failure.
        ensures failed_calls { IfErr result (λ failed.
            StopsPlanAt self.now.g self.now.lost stage.now.pending block
            (B.view bank.old) (B.view bank.new) failed.member) }

        // Stopped at any moment, the disks are as they were.
        ensures any_moment { OnlyReads (B.view bank.old) (B.view bank.new) }
    {
        // Each block of the pool has the array's size.
        prove!(pool.bytes(fresh).len() == self.g.block as usize);
        let place = place_of(&self.g, block);
        self.read_place(bank, stage, pool, place, delta, scratch)?;
        pool.xor(delta, fresh);
        let parity_place = Place {
            member: parity_of(&self.g, place.row),
            row: place.row,
        };
        self.read_place(bank, stage, pool, parity_place, parity, scratch)?;
        pool.xor(parity, delta);
        Ok(())
    }

    /// Writes the pending writes up to this number to the members, the oldest first, and syncs each
    /// place. Places that don't count are left, as are the writes above the number. The slots stay
    /// pending: the caller puts a head with the new number first.
    pub fn drain<B: Bank>(&self, bank: &mut B, stage: &Stage, upto: u64) -> Result<(), MemberFailed>
        requires stage { stage.now.g ≡ self.now.g }
        requires disks { DrainFits self.now.g self.now.lost self.now.rebuilt
            (writes_to stage.now upto) (B.view bank.old) }
        ensures ok { OnOk result (Moves (B.view bank.old) (B.view bank.new)
            (Differs (InDrained self.now.g self.now.lost self.now.rebuilt
            (writes_to stage.now upto)))
            (Drains self.now.g self.now.lost self.now.rebuilt (writes_to stage.now upto))) }
        ensures contents { IsTrue (B.view bank.old).tells
            → Torn (InDrained self.now.g self.now.lost self.now.rebuilt
            (writes_to stage.now upto)) (B.view bank.old).now (B.view bank.new).now }
        ensures sizes { (e : ℕ) → (B.view bank.new).sizes e ≡ (B.view bank.old).sizes e }
        ensures counts { IfErr result (λ failed.
            Counts self.now.lost self.now.rebuilt 0 failed.member) }
        ensures cause { IfErr result (λ failed. FailedMember self.now.g None
            (B.view bank.old) (B.view bank.new) failed.member) }

        // It fails only by a member that it writes.
        ensures place { IfErr result (λ failed.
            IsDrainedTo self.now.g self.now.lost self.now.rebuilt (writes_to stage.now upto)
            failed.member) }
        ensures calls { TakesCalls (drain_calls self.now.g self.now.lost self.now.rebuilt
            (writes_to stage.now upto)) result (B.view bank.old) (B.view bank.new) }

        // Stopped at any moment, no byte has changed but in places that count and that these writes
        // cover: nothing of the lost member's from its mark on, and no slot.
        ensures any_moment { Moves (B.view bank.old) (B.view bank.new)
            (Differs (InDrained self.now.g self.now.lost self.now.rebuilt
            (writes_to stage.now upto)))
            (Differs (InDrained self.now.g self.now.lost self.now.rebuilt
            (writes_to stage.now upto))) }
    {
        for number in stage.drained()..upto.min(stage.last()) {
            let (block, bytes, parity) = stage.slot(number + 1);
            write_slot(&self.g, bank, self.lost, self.rebuilt, block, bytes, parity)?;
        }
        Ok(())
    }
}
