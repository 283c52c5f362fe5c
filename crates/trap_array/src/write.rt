//! A write of one block.

ghost use Rattle.std.specs.Prelude.{◌≡◌, ℕ, ◌+◌, length, IsErrOf, ◌||◌};
ghost use Rattle.trap_array.specs.Beside.{StaysFrom};
ghost use Rattle.trap_array.specs.Calls.{IsReady, SameArray, is_fault};
ghost use Rattle.trap_array.specs.Causes.{DeniedBy, of_write};
ghost use Rattle.trap_array.specs.Taking.{TakesStep};

use crate::denied::has_failed;
use crate::refusals::admit;
use crate::writing::write_block;
use crate::{Array, Denied};
use trap_bank::Bank;

impl Array {
    /// Writes a block, at a time not below the last one, and answers the number of the write. It is
    /// committed when the call returns. The bytes are as many as a block has.
    pub fn write<B: Bank>(
        &mut self,
        bank: &mut B,
        time: u64,
        block: u64,
        bytes: &[u8],
    ) -> Result<u64, Denied>
        requires size { length bytes.now ≡ self.old.g.block }
        requires ready { IsReady self.old (B.view bank.old) }

        // What was done is what the model's step does, and what is answered is its reply. Stopped
        // at any moment, the disks hold the state before the write or the one after it. An answer
        // says how many writes are pending after it.
        ensures takes { TakesStep self.old self.new time block bytes.now result (B.view bank.old)
            (B.view bank.new) }
        ensures ready { IsReady self.new (B.view bank.new) }
        ensures same_array { SameArray self.old self.new }
        ensures sizes { (e : ℕ) → (B.view bank.new).sizes e ≡ (B.view bank.old).sizes e }
        ensures others { StaysFrom (self.old.g.members + 1) (B.view bank.old) (B.view bank.new) }
        ensures damaged { (offset : ℕ) → IsErrOf result (Denied.Damaged offset) → ⊥ }

        // A fault stops the array.
        ensures stops { self.new.is_stopped ≡ (self.old.is_stopped || is_fault result) }

        ensures causes { DeniedBy self.old block (of_write self.old time) result (B.view bank.old)
            (B.view bank.new) }
    {
        admit(&self.log, self.is_stopped, block)?;
        let result = write_block(
            &mut self.log,
            &mut self.index,
            bank,
            &mut self.buffers,
            time,
            block as u32,
            bytes,
        );
        // A fault of any step stops the array, here alone.
        self.is_stopped = has_failed(&result);
        result
    }
}
