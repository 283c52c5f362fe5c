//! The command `replica-export`.

ghost use Rattle.std.specs.Prelude.{◌≡◌, ◌≢◌, false};
ghost use Rattle.trap_replica.specs.Mounted.{IsUsable};
ghost use Rattle.trap_remote.specs.Exporting.{ExportOutcome, GoesByImage, SaysImage};
ghost use Rattle.trap_remote.specs.Found.{LacksHeader};
ghost use Rattle.trap_remote.specs.declared.outcome.ReplicaEnd.TheVariants as ending;

use crate::ReplicaEnd;
use std::alloc::Global;
use trap_bank::Bank;
use trap_port::Outgoing;
use trap_replica::{ExportFault, Replica};

/// One call of the port has so many bytes of the image, unless fewer are left.
const PIECE_BYTES: usize = 32768;

/// Mounts the replica, and says the bytes of its image.
pub fn export_replica<B: Bank>(alloc: Global, bank: &mut B) -> ReplicaEnd
    ensures outcome { ExportOutcome result (B.view bank.old) (B.view bank.new) }
    ensures goes { GoesByImage B.view result bank.old bank.new }

    // Where disk 17 has no header, the bank isn't called.
    ensures untouched { LacksHeader (B.view bank.old) → bank.new ≡ bank.old }
{
    match Replica::mount(alloc, bank) {
        Ok(replica) => say_image(alloc, replica, bank),
        Err(why) => ReplicaEnd::NoReplica(why),
    }
}

// Takes the memory for the pieces, and says the image.
fn say_image<B: Bank>(alloc: Global, mut replica: Replica, bank: &mut B) -> ReplicaEnd
    requires running { replica.is_stopped ≡ false }
    requires ready { IsUsable replica (B.view bank.old) }
    ensures idle { result ≡ ending.Memory → bank.new ≡ bank.old }
    ensures says { result ≢ ending.Memory
        → SaysImage replica result (B.view bank.old) (B.view bank.new) }
{
    let size = usize::from(replica.shape().block);
    let Ok(mut outgoing) = Outgoing::new(alloc, PIECE_BYTES + size) else {
        return ReplicaEnd::Memory;
    };
    let Ok(mut block) = vec![in alloc; 0u8; size] else {
        return ReplicaEnd::Memory;
    };
    match replica.export(bank, &mut outgoing, block.as_mut_slice()) {
        Ok(()) => ReplicaEnd::Done,
        Err(ExportFault::Port) => ReplicaEnd::Port,
        Err(ExportFault::Disk) => ReplicaEnd::NotExported,
    }
}
