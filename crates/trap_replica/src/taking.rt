//! A frame is taken: applied, held, or left out.

ghost use Rattle.std.specs.Prelude.{◌≡◌, ◌≢◌, ◌+◌, ◌<◌, ◌≤◌, ◌^◌, ℕ, List, length, false, None};
ghost use Rattle.std.specs.Prelude.{Some, Ok, Err, OnOk, OnErr, IfOk, IfErr, IsTrue, ◌||◌, is_err};
ghost use Rattle.trap_bank.specs.Faults.{Rose};
ghost use Rattle.trap_bank.specs.Disks.{Quiet};
ghost use Rattle.trap_bank.specs.Steps.{Moves};
ghost use Rattle.trap_model.specs.Receiver.{answer};
ghost use Rattle.trap_model.specs.declared.arrival.Arrival.{Arrival};
ghost use Rattle.trap_model.specs.declared.arrival.Taken.{Taken};
ghost use Rattle.trap_model.specs.declared.arrival.Taken.TheVariants as taken;
ghost use Rattle.trap_replica.specs.Applying.{Elsewhere, Leaves};
ghost use Rattle.trap_replica.specs.Holding.{SuitAll, Suits, holding};
ghost use Rattle.trap_replica.specs.Mounted.{IsUsable, Receives, StaysBeside, StopsByDisk, arrival};
ghost use Rattle.trap_replica.specs.Mounted.{receiver, frame_refusal, left_out};
ghost use Rattle.trap_replica.specs.Standing.{IsStoreReady, Mirrors, HasAppliedHeld, AppliesHeld};
ghost use Rattle.trap_replica.specs.Standing.{HoldsApplied, arrived, seen};
ghost use Rattle.trap_replica.specs.declared.fault.ReplicaFault.TheVariants as fault;
ghost use Rattle.trap_replica.specs.declared.fault.ReplicaFault.{ReplicaFault};

use crate::held::Held;
use crate::settling::settle;
use crate::store::Store;
use crate::{Replica, ReplicaFault};
use trap_bank::{Bank, DiskFault};
use trap_model::{Frame, Taken};

/// How far above the number applied a frame's may be.
const WINDOW: u64 = 64;

/// What becomes of a frame that is left out.
fn left_out(store: &Store, held: &Held, seq: u64) -> Option<Taken>
    ensures { (frame : Arrival) → frame.seq ≡ seq
        → result ≡ left_out store.now held.now frame }
{
    if seq <= store.number || held.has(seq) {
        return Some(Taken::Repeat);
    }
    if seq > store.number + WINDOW {
        return Some(Taken::Beyond);
    }
    None
}

/// Holds a frame that wasn't known, and applies those that follow.
fn admit<B: Bank>(
    bank: &mut B,
    store: &mut Store,
    held: &mut Held,
    frame: &Frame,
    parity: &[u8],
) -> Result<Taken, DiskFault>
    requires ready { IsStoreReady store.old (B.view bank.old) }
    requires suit { SuitAll store.old.shape (store.old.number + 1) store.old.number held.old }
    requires fits { Suits store.old.shape store.old.number (arrival frame.now parity.now) }
    requires fresh { left_out store.old held.old (arrival frame.now parity.now) ≡ None }
    ensures answer { IfOk result (λ given. (image : List (List ℕ)) → given
        ≡ answer (seen store.old held.old image) (arrival frame.now parity.now)) }
    ensures ok { OnOk result (HasAppliedHeld store.old store.new
        (holding held.old (arrival frame.now parity.now)) held.new (B.view bank.old)
        (B.view bank.new)) }
    ensures done { OnOk result (SuitAll store.new.shape (store.new.number + 1) store.new.number
        held.new) }
    ensures waits { result ≡ Ok taken.Held → (store.new ≡ store.old) × (bank.new ≡ bank.old) }
    ensures passes { AppliesHeld store.old store.new
        (holding held.old (arrival frame.now parity.now)) (B.view bank.old) (B.view bank.new) }
    ensures cause { OnErr result (Rose ((B.view bank.old).faults 17)
        ((B.view bank.new).faults 17)) }
{
    held.insert(frame.seq, frame.time, frame.block, parity);
    if frame.seq != store.number + 1 {
        // It waits for those before it, which no held frame stands for.
        return Ok(Taken::Held);
    }
    settle(bank, store, held)?;
    Ok(Taken::Applied { upto: store.number })
}

impl Replica {
    /// Why a frame is refused, if it is.
    fn refusal(&self, frame: &Frame) -> Option<ReplicaFault>
        ensures { result ≡ frame_refusal self.now frame.now }
    {
        if frame.id != self.store.shape.id {
            return Some(ReplicaFault::Stranger { id: frame.id });
        }
        if frame.block >= self.store.shape.volume {
            return Some(ReplicaFault::NoBlock { block: frame.block });
        }
        if self.is_stopped {
            return Some(ReplicaFault::Stopped);
        }
        None
    }

    /// Takes a frame, with its parity. A frame is applied in the order of numbers, within a window
    /// of 64; held ones that follow it are applied too. After a fault the replica is stopped.
    pub fn take<B: Bank>(
        &mut self,
        bank: &mut B,
        frame: &Frame,
        parity: &[u8],
    ) -> Result<Taken, ReplicaFault>
        requires last { frame.now.seq ≤ 2 ^ 40 }
        requires sized { length parity.now ≡ self.old.store.shape.block }
        requires ready { IsUsable self.old (B.view bank.old) }

        // The answer is the receiver's, and the disk holds its image.
        ensures answer { IfOk result (λ given. (image : List (List ℕ)) → given
            ≡ answer (receiver self.old image) (arrival frame.now parity.now)) }
        ensures ok { OnOk result (Receives self.old self.new (arrival frame.now parity.now)
            (B.view bank.old) (B.view bank.new)) }
        ensures stays { StaysBeside self.old self.new (B.view bank.old) (B.view bank.new) }

        // What is left out, and what waits, makes no call of the bank.
        ensures left_out { frame_refusal self.old frame.now ≡ None → (given : Taken)
            → left_out self.old.store self.old.held (arrival frame.now parity.now) ≡ Some given
            → (result ≡ Ok given) × (self.new ≡ self.old) × (bank.new ≡ bank.old) }
        ensures waits { result ≡ Ok taken.Held
            → (self.new.store ≡ self.old.store) × (bank.new ≡ bank.old) }

        // What is refused changes nothing.
        ensures refused { (why : ReplicaFault) → frame_refusal self.old frame.now ≡ Some why
            → (result ≡ Err why) × (self.new ≡ self.old) × (bank.new ≡ bank.old) }

        // Nothing else fails but the disk, which stops the replica.
        ensures cause { frame_refusal self.old frame.now ≡ None
            → StopsByDisk result self.old self.new (B.view bank.old) (B.view bank.new) }

        // Stopped at any moment, the disk holds the image after some of the frames that are to be
        // applied.
        ensures any_moment { (image : List (List ℕ))
            → Mirrors self.old.store (B.view bank.old) image
            → Leaves (B.view bank.old) (B.view bank.new) (HoldsApplied self.old.store.shape
            (arrived (receiver self.old image) (arrival frame.now parity.now))) }
    {
        if let Some(why) = self.refusal(frame) {
            return Err(why);
        }
        if let Some(taken) = left_out(&self.store, &self.held, frame.seq) {
            return Ok(taken);
        }
        match admit(bank, &mut self.store, &mut self.held, frame, parity) {
            Ok(taken) => Ok(taken),
            Err(failed) => {
                self.is_stopped = true;
                Err(ReplicaFault::from(failed))
            }
        }
    }
}
