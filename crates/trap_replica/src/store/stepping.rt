//! How the image on the disk moves on by one frame.

ghost use Rattle.std.specs.Prelude.{◌≡◌, ℕ, ◌+◌, ◌^◌, ◌<◌, List, length, OnOk, OnErr};
ghost use Rattle.trap_bank.specs.Called.{TakesCalls};
ghost use Rattle.trap_bank.specs.Faults.{Rose};
ghost use Rattle.trap_cell.specs.Steps.{put_calls};
ghost use Rattle.trap_model.specs.Receiver.{xored};
ghost use Rattle.trap_replica.specs.Applying.{Leaves, LeavesOthers, HoldsEither};
ghost use Rattle.trap_replica.specs.Standing.{IsStoreReady, Mirrors, HasApplied};

use super::Store;
use crate::applying::apply;
use trap_bank::{Bank, DiskFault};
use trap_model::Arrival;

impl Store {
    /// Applies the frame of the next number. After a fault the disk has to be mounted again.
    pub fn apply_next<B: Bank>(&mut self, bank: &mut B, frame: &Arrival) -> Result<(), DiskFault>
        requires ready { IsStoreReady self.old (B.view bank.old) }
        requires room { self.old.number < 2 ^ 40 }
        requires inside { frame.now.block < self.old.shape.volume }
        requires sized { length frame.now.parity ≡ self.old.shape.block }
        ensures ok { (image : List (List ℕ)) → Mirrors self.old (B.view bank.old) image
            → OnOk result (Mirrors self.new (B.view bank.new) (xored image frame.now)) }
        ensures fields { HasApplied result frame.now self.old self.new }
        ensures ready { OnOk result (IsStoreReady self.new (B.view bank.new)) }
        ensures beside { LeavesOthers (B.view bank.old) (B.view bank.new) }
        ensures cause { OnErr result (Rose ((B.view bank.old).faults 17)
            ((B.view bank.new).faults 17)) }
        ensures calls { TakesCalls (3 + put_calls self.old.cell) result (B.view bank.old)
            (B.view bank.new) }
        ensures any_moment { (image : List (List ℕ)) → Mirrors self.old (B.view bank.old) image
            → Leaves (B.view bank.old) (B.view bank.new)
            (HoldsEither self.old.shape self.old.number self.old.time image frame.now) }
    {
        apply(
            bank,
            &self.shape,
            &mut self.cell,
            self.block,
            self.number + 1,
            frame,
            self.contents.as_mut_slice(),
            self.value.as_mut_slice(),
        )?;
        self.number += 1;
        self.time = frame.time;
        self.block = frame.block;
        Ok(())
    }
}
