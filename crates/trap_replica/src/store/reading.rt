//! How a block of the image is read.

ghost use Rattle.std.specs.Prelude.{◌≡◌, ◌==◌, ℕ, ◌<◌, List, length, IsTrue, OnOk, OnErr};
ghost use Rattle.std.specs.Prelude.{if◌then◌else◌};
ghost use Rattle.trap_bank.specs.Called.{TakesCalls};
ghost use Rattle.trap_bank.specs.Faults.{Rose};
ghost use Rattle.trap_bank.specs.Calls.{Fits};
ghost use Rattle.trap_bank.specs.Steps.{OnlyReads};
ghost use Rattle.trap_format.specs.ReplicaDisk.{replica_size};
ghost use Rattle.trap_model.specs.Image.{block_of};
ghost use Rattle.trap_replica.specs.Standing.{Mirrors};

use super::Store;
use crate::layout::{DISK, home_at};
use trap_bank::{Bank, DiskFault};

impl Store {
    /// Fills the buffer with a block of the image. After a fault it holds any bytes.
    pub fn read_block<B: Bank>(
        &self,
        bank: &mut B,
        block: u32,
        into: &mut [u8],
    ) -> Result<(), DiskFault>
        requires there { Fits (B.view bank.old) 17 (replica_size self.now.shape) }
        requires inside { block < self.now.shape.volume }
        requires sized { length into.old ≡ self.now.shape.block }
        ensures bytes { (image : List (List ℕ)) → Mirrors self.now (B.view bank.old) image
            → IsTrue (B.view bank.old).tells → OnOk result (into.new ≡ block_of image block) }
        ensures reads { OnlyReads (B.view bank.old) (B.view bank.new) }
        ensures cause { OnErr result (Rose ((B.view bank.old).faults 17)
            ((B.view bank.new).faults 17)) }
        ensures calls { TakesCalls (if block == self.now.block then 0 else 1) result
            (B.view bank.old) (B.view bank.new) }
    {
        if block == self.block {
            // The cell alone is sure to have this one.
            into.copy_from_slice(self.contents.as_slice());
            return Ok(());
        }
        bank.read(DISK, home_at(&self.shape, block), into)?;
        Ok(())
    }
}
