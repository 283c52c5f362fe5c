//! A mounted replica.

ghost use Rattle.std.specs.Prelude.{◌≡◌, ◌==◌, ◌↔◌, ◌<◌, ◌||◌, ℕ, List, length, true, false};
ghost use Rattle.std.specs.Prelude.{is_err, IsTrue, IsErrOf, OnOk, IfErr, if◌then◌else◌};
ghost use Rattle.trap_bank.specs.Called.{TakesCalls};
ghost use Rattle.trap_bank.specs.Faults.{Rose};
ghost use Rattle.trap_bank.specs.Steps.{OnlyReads};
ghost use Rattle.trap_model.specs.Image.{block_of};
ghost use Rattle.trap_replica.specs.Mounted.{IsUsable};
ghost use Rattle.trap_replica.specs.Standing.{Mirrors};
ghost use Rattle.trap_replica.specs.declared.fault.ReplicaFault.TheVariants as fault;

use crate::ReplicaFault;
use crate::held::Held;
use crate::store::Store;
use std::marker::Model;
use trap_bank::Bank;
use trap_format::Shape;

/// A replica that is mounted: what is known of its disk, and the frames that wait for those before
/// them. After a fault of its disk it is stopped: mount it again. What waits isn't kept over a new
/// mounting. Its memory was taken at mounting: no call takes more.
#[derive(Drop)]
pub struct Replica {
    pub(crate) store: Store,
    pub(crate) held: Held,
    pub(crate) is_stopped: bool,
}

impl Model for Replica {
    ghost use Rattle.trap_replica.specs.Mounted.{MountedReplica, WaitsInOrder};

    ghost Value = { MountedReplica };

    ghost view = { λ r. record {
      store = r.store;
      held = r.held;
      is_stopped = r.is_stopped;
    } };

    ghost invariant = { λ r. WaitsInOrder (record {
      store = r.store;
      held = r.held;
      is_stopped = r.is_stopped;
    }) };
}

impl Replica {
    /// The numbers of the replica, as its header has them.
    pub fn shape(&self) -> Shape
        ensures { result ≡ self.now.store.shape }
    {
        self.store.shape
    }

    /// The number of the last frame applied.
    pub fn applied(&self) -> u64
        ensures { result ≡ self.now.store.number }
    {
        self.store.number
    }

    /// How many frames wait.
    pub fn held(&self) -> u32
        ensures { result ≡ length self.now.held.frames }
    {
        self.held.len() as u32
    }

    /// Fills `into` with a block of the image. After a fault it holds any bytes, and the replica is
    /// stopped.
    pub fn block<B: Bank>(
        &mut self,
        bank: &mut B,
        block: u32,
        into: &mut [u8],
    ) -> Result<(), ReplicaFault>
        requires inside { block < self.old.store.shape.volume }
        requires sized { length into.old ≡ self.old.store.shape.block }
        requires ready { IsUsable self.old (B.view bank.old) }
        ensures bytes { (image : List (List ℕ)) → Mirrors self.old.store (B.view bank.old) image
            → IsTrue (B.view bank.old).tells → OnOk result (into.new ≡ block_of image block) }
        ensures same { self.new
            ≡ record self.old { is_stopped = self.old.is_stopped || is_err result } }
        ensures ready { IsUsable self.new (B.view bank.new) }
        ensures stopped { IsErrOf result fault.Stopped ↔ IsTrue self.old.is_stopped }
        ensures untouched { self.old.is_stopped ≡ true → bank.new ≡ bank.old }
        ensures cause { self.old.is_stopped ≡ false → IfErr result (λ why. (why ≡ fault.DiskFault)
            × Rose ((B.view bank.old).faults 17) ((B.view bank.new).faults 17)) }
        ensures calls { self.old.is_stopped ≡ false
            → TakesCalls (if block == self.old.store.block then 0 else 1) result
            (B.view bank.old) (B.view bank.new) }

        // Stopped at any moment, the disks are as they were.
        ensures any_moment { OnlyReads (B.view bank.old) (B.view bank.new) }
    {
        if self.is_stopped {
            return Err(ReplicaFault::Stopped);
        }
        match self.store.read_block(bank, block, into) {
            Ok(()) => Ok(()),
            Err(failed) => {
                self.is_stopped = true;
                Err(ReplicaFault::from(failed))
            }
        }
    }
}
