//! A read of one block.

ghost use Rattle.std.specs.Prelude.{◌≡◌, ◌<◌, ℕ, length, IsTrue, IsErrOf, ◌||◌};
ghost use Rattle.trap_bank.specs.Steps.{OnlyReads};
ghost use Rattle.trap_model.specs.Image.{volume};
ghost use Rattle.trap_model.specs.declared.request.Request.TheVariants as request;
ghost use Rattle.trap_array.specs.Calling.{CallsInRead};
ghost use Rattle.trap_array.specs.Calls.{AnswersRead, IsReady, ReadReplies, is_fault};
ghost use Rattle.trap_array.specs.Causes.{DeniedBy, of_read};

use crate::fetch::read_block;
use crate::refusals::admit;
use crate::{Array, Denied};
use trap_bank::Bank;

impl Array {
    /// Reads the present contents of a block into `into`, which has as many bytes as a block. After
    /// a refusal or a fault `into` holds any bytes.
    pub fn read<B: Bank>(&mut self, bank: &mut B, block: u64, into: &mut [u8]) -> Result<(), Denied>
        requires size { length into.old ≡ self.old.g.block }
        requires ready { IsReady self.old (B.view bank.old) }
        ensures answers { AnswersRead self.old self.new (request.Read block)
            (ReadReplies result into.new) result (B.view bank.old) (B.view bank.new) }
        ensures ready { IsReady self.new (B.view bank.new) }
        ensures same { self.new
            ≡ record self.old { is_stopped = self.old.is_stopped || is_fault result } }

        // Neither a record nor anything else of disk 0 is read.
        ensures log { IsErrOf result Denied.LogFault → ⊥ }
        ensures damaged { (offset : ℕ) → IsErrOf result (Denied.Damaged offset) → ⊥ }

        ensures causes { DeniedBy self.old block (of_read self.old) result (B.view bank.old)
            (B.view bank.new) }

        // The block's place is read, or where its member is lost, each other one of its row; and
        // none after one that failed.
        ensures calls { CallsInRead self.old block result (B.view bank.old) (B.view bank.new) }

        // Stopped at any moment, the disks are as they were.
        ensures any_moment { OnlyReads (B.view bank.old) (B.view bank.new) }
    {
        admit(&self.log, self.is_stopped, block)?;
        match read_block(&self.log, bank, &mut self.buffers, block as u32, into) {
            Ok(()) => Ok(()),
            Err(failed) => {
                // A fault stops the array.
                self.is_stopped = true;
                Err(Denied::from(failed))
            }
        }
    }
}
