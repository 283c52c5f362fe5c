//! Saying the image on the port, block after block.

ghost use Rattle.std.specs.Prelude.{◌≡◌, ◌↔◌, ◌≤◌, ◌<◌, ◌+◌, ◌*◌, ◌++◌, ℕ, List, [], length, false};
ghost use Rattle.std.specs.Prelude.{IsTrue, IsErrOf, IfErr, OnOk};
ghost use Rattle.trap_bank.specs.Steps.{Steps, SpokePart};
ghost use Rattle.trap_port.specs.Outgoing.{KeepsDisks};
ghost use Rattle.trap_replica.specs.Exporting.{image_bytes, HasSaidImage, IsExportFault};
ghost use Rattle.trap_replica.specs.Exporting.{SaysInPieces};
ghost use Rattle.trap_replica.specs.Mounted.{IsUsable};
ghost use Rattle.trap_replica.specs.Standing.{Mirrors};
ghost use Rattle.trap_replica.specs.declared.exporting.ExportFault.TheVariants as failed;

use crate::Replica;
use trap_bank::Bank;
use trap_port::Outgoing;

/// Why not all of the image was said. A first part of its bytes may have been.
#[derive(Clone, Copy, Debug, PartialEq, Eq)]
pub enum ExportFault {
    /// Disk 17 failed: its count of faults rose, and the replica is stopped.
    Disk,
    /// The port failed: its count of faults rose.
    Port,
}

impl Replica {
    /// Says the image, in pieces that wait in `outgoing`. `buffer` is room for a block. Frames that
    /// wait are left alone.
    pub fn export<B: Bank>(
        &mut self,
        bank: &mut B,
        outgoing: &mut Outgoing,
        buffer: &mut [u8],
    ) -> Result<(), ExportFault>
        requires running { self.old.is_stopped ≡ false }
        requires ready { IsUsable self.old (B.view bank.old) }
        requires sized { length buffer.old ≡ self.old.store.shape.block }
        requires empty { outgoing.old.bytes ≡ [] }
        requires room { self.old.store.shape.block ≤ outgoing.old.room }

        // Whichever image the replica mirrors is said; stopped at any moment, a first part of it,
        // and the disks are as they were.
        ensures steps { (image : List (List ℕ)) → Mirrors self.old.store (B.view bank.old) image
            → Steps (B.view bank.old) (B.view bank.new)
            (SpokePart (image_bytes image)) (HasSaidImage image result) }
        ensures spent { (outgoing.new.room ≡ outgoing.old.room)
            × OnOk result (outgoing.new ≡ outgoing.old) }
        ensures disks { KeepsDisks (B.view bank.old) (B.view bank.new) }
        ensures same { self.new ≡ record self.old { is_stopped = self.new.is_stopped } }
        ensures ready { IsUsable self.new (B.view bank.new) }
        ensures stops { IsErrOf result failed.Disk ↔ IsTrue self.new.is_stopped }
        ensures cause { IfErr result (IsExportFault (B.view bank.old) (B.view bank.new)) }
        ensures calls { SaysInPieces self.old.store.shape outgoing.old.room result
            (B.view bank.old) (B.view bank.new) }
    {
        let shape = self.shape();
        'blocks: for block in 0..shape.volume {
            let Ok(()) = self.block(bank, block, buffer) else {
                return Err(ExportFault::Disk);
            };
            let Ok(()) = outgoing.make_room(bank, buffer.len()) else {
                return Err(ExportFault::Port);
            };
            outgoing.put(buffer);
        }
        match outgoing.flush(bank) {
            Ok(()) => Ok(()),
            Err(_) => Err(ExportFault::Port),
        }
    }
}
