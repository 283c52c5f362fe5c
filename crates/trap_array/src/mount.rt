//! Mounting: the state is found again, whatever a crash left.

ghost use Rattle.std.specs.Prelude.{◌≡◌, ◌≢◌, ℕ, IsTrue, IsErrOf, IfOk, IfErr};
ghost use Rattle.trap_array.specs.Mounting.{IsNoLog, KeepsEachState, WritesHead};
ghost use Rattle.trap_array.specs.MountEnds.{MountsFor, MountEnds};
ghost use Rattle.trap_mount.specs.declared.fault.MountFault.{MountFault};

use crate::Array;
use std::alloc::Global;
use trap_bank::Bank;
use trap_mount::MountFault;

impl Array {
    /// Mounts the array that the disks hold. Nothing is written but the head, and that as the last
    /// step, where a member is newly out or its rebuilt rows no longer count.
    pub fn mount<B: Bank>(alloc: Global, bank: &mut B) -> Result<Array, MountFault>
        ensures mounted { IfOk result (λ a. MountsFor a (B.view bank.old) (B.view bank.new)) }
        ensures ended { IfErr result (λ why. MountEnds why (B.view bank.old) (B.view bank.new)) }
        ensures no_log { IsNoLog ((B.view bank.old).sizes 0)
            → IsErrOf result MountFault.NotAnArray × (bank.new ≡ bank.old) }
        ensures sizes { (e : ℕ) → (B.view bank.new).sizes e ≡ (B.view bank.old).sizes e }

        // Whatever the answer, no disk but the log changes.
        ensures others { IsTrue (B.view bank.old).tells → (e : ℕ) → e ≢ 0
            → (B.view bank.new).now.disks e ≡ (B.view bank.old).now.disks e }

        // Stopped at any moment, the disks are as they were, but perhaps for the slot of the head's
        // cell that isn't current; or they hold what they held. A member is lost only where it was
        // out.
        ensures keeps { KeepsEachState (B.view bank.old) (B.view bank.new) }

        // Nothing is written but the head, over whatever disks, and that only where the lost member
        // or its mark changed.
        ensures writes { WritesHead (B.view bank.old) (B.view bank.new) }
    {
        let found = trap_mount::mount(alloc, bank)?;
        Ok(Array::assemble(
            found.g,
            found.head,
            found.cell,
            found.stage,
            found.index,
            found.buffers,
        ))
    }
}
