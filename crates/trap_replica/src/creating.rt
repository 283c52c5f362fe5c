//! Making a replica: its cell and its header, and the gate last.

ghost use Rattle.std.specs.Prelude.{◌≡◌, ◌≢◌, ◌↔◌, ℕ, ◌+◌, ◌≤◌, length, OnOk, OnErr, IfErr};
ghost use Rattle.std.specs.Prelude.{IsErrOf, IsTrue, None, Some, replicate};
ghost use Rattle.trap_bank.specs.Called.{TakesCalls};
ghost use Rattle.trap_bank.specs.Calls.{Fits};
ghost use Rattle.trap_bank.specs.Disks.{Differs, Torn};
ghost use Rattle.trap_bank.specs.Faults.{Rose};
ghost use Rattle.trap_bank.specs.Steps.{Moves};
ghost use Rattle.trap_format.specs.ReplicaDisk.{replica_size, replica_value_len};
ghost use Rattle.trap_replica.specs.OnDisk.{value_bytes};
ghost use Rattle.trap_replica.specs.Creating.{BeginsShut, front, ShutsReplica, HasShutReplica};
ghost use Rattle.trap_replica.specs.Creating.{MakesDisk, MakesReplica, HasMade, zero_blocks};
ghost use Rattle.trap_replica.specs.declared.fault.ReplicaFault.TheVariants as fault;

use crate::ReplicaFault;
use crate::layout::{CELL_AT, DISK, NUMBERS};
use trap_bank::{Bank, DiskFault, write_through};
use trap_cell::Cell;
use trap_format::layout::OPEN_GATE;
use trap_format::{Shape, replica_len, spell_replica};

/// The value of a new replica's cell, which is all zeros.
fn fresh_value<'a>(zeros: &'a [u8], s: &Shape) -> &'a [u8]
    requires { zeros.now ≡ replicate 4116 0 }
    ensures { result.now ≡ value_bytes 0 0 0 (replicate s.now.block 0) }
{
    &zeros[..NUMBERS + s.block as usize]
}

/// Begins the cell with its first value, and writes the header after its gate, which stays off.
pub(crate) fn begin_shut<B: Bank>(bank: &mut B, s: &Shape, value: &[u8]) -> Result<(), DiskFault>
    requires room { Fits (B.view bank.old) 17 (replica_size s.now) }
    requires long { length value.now ≡ replica_value_len s.now }
    ensures ok { OnOk result (Moves (B.view bank.old) (B.view bank.new) (Differs (front s.now))
        (BeginsShut (B.view bank.new) s.now value.now)) }
    ensures contents { IsTrue (B.view bank.old).tells
        → Torn (front s.now) (B.view bank.old).now (B.view bank.new).now }
    ensures sizes { (e : ℕ) → (B.view bank.new).sizes e ≡ (B.view bank.old).sizes e }
    ensures cause { OnErr result
        (Rose ((B.view bank.old).faults 17) ((B.view bank.new).faults 17)) }
    ensures calls { TakesCalls 6 result (B.view bank.old) (B.view bank.new) }
    ensures any_moment { Moves (B.view bank.old) (B.view bank.new) (Differs (front s.now))
        (Differs (front s.now)) }
{
    let mut header = [0; 32];
    spell_replica(s, &mut header);
    // Cell and header are stable before the gate says that they are there.
    Cell::first(bank, DISK, CELL_AT, value)?;
    write_through(bank, DISK, 1, &header[1..])?;
    Ok(())
}

/// Makes a new disk's cell and header, and leaves the gate off.
fn shut_replica<B: Bank>(bank: &mut B, s: &Shape) -> Result<(), DiskFault>
    ensures ok { OnOk result (Moves (B.view bank.old) (B.view bank.new) ShutsReplica
        (HasShutReplica s.now 0 0 (zero_blocks s.now))) }
    ensures disk { MakesDisk s.now result (B.view bank.old) (B.view bank.new) }
    ensures cause { OnErr result
        (Rose ((B.view bank.old).faults 17) ((B.view bank.new).faults 17)) }
    ensures calls { TakesCalls 7 result (B.view bank.old) (B.view bank.new) }
    ensures any_moment { Moves (B.view bank.old) (B.view bank.new) ShutsReplica ShutsReplica }
{
    let zeros = [0; 4116];
    let value = fresh_value(&zeros, s);
    bank.make(DISK, replica_len(s))?;
    begin_shut(bank, s, value)?;
    Ok(())
}

/// Makes a replica that holds the zero image at number 0. Nothing is done where disk 17 is there.
pub fn create<B: Bank>(bank: &mut B, s: &Shape) -> Result<(), ReplicaFault>
    ensures ok { OnOk result (Moves (B.view bank.old) (B.view bank.new)
        (MakesReplica s.now 0 0 (zero_blocks s.now)) (HasMade s.now 0 0 (zero_blocks s.now))) }
    ensures disk { MakesDisk s.now result (B.view bank.old) (B.view bank.new) }
    ensures exists { IsErrOf result (fault.Exists 17) ↔ ((B.view bank.old).sizes 17 ≢ None) }
    ensures untouched { (B.view bank.old).sizes 17 ≢ None → bank.new ≡ bank.old }
    ensures cause { (B.view bank.old).sizes 17 ≡ None → IfErr result (λ why. (why ≡ fault.DiskFault)
        × Rose ((B.view bank.old).faults 17) ((B.view bank.new).faults 17)) }
    ensures calls { (B.view bank.old).sizes 17 ≡ None
        → TakesCalls 9 result (B.view bank.old) (B.view bank.new) }

    // Stopped at any moment, the gate of disk 17 is off, or the disk holds the zero image.
    ensures any_moment { (B.view bank.old).sizes 17 ≡ None
        → Moves (B.view bank.old) (B.view bank.new)
        (MakesReplica s.now 0 0 (zero_blocks s.now)) (MakesReplica s.now 0 0 (zero_blocks s.now)) }
{
    // An id that is read is known to fit the header's field.
    let _id = s.id;
    if bank.size(DISK).is_some() {
        return Err(ReplicaFault::Exists { disk: DISK });
    }
    shut_replica(bank, s)?;
    // The gate is a write of its own: whatever byte a crash leaves of it, the replica is whole or
    // is none.
    write_through(bank, DISK, 0, &[OPEN_GATE])?;
    Ok(())
}
