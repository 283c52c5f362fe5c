//! Mounting: the replica is found again, whatever a crash left.

ghost use Rattle.std.specs.Prelude.{◌≡◌, ◌+◌, ◌^◌, ◌≤◌, ◌<◌, ◌≢◌, ℕ, length, drop, vec_len, IsTrue};
ghost use Rattle.std.specs.Prelude.{IsErrOf, IfOk, IfErr, OnOk, OnErr, Err, Some, IfSome, IfNone};
ghost use Rattle.trap_bank.specs.Called.{TakesCalls};
ghost use Rattle.trap_bank.specs.Calls.{Fits};
ghost use Rattle.trap_bank.specs.Disks.{region};
ghost use Rattle.trap_bank.specs.Faults.{Rose};
ghost use Rattle.trap_bank.specs.Steps.{OnlyReads};
ghost use Rattle.trap_cell.specs.Steps.{IsMounted};
ghost use Rattle.trap_format.specs.ReplicaDisk.{replica_size, replica_value_len};
ghost use Rattle.trap_replica.specs.OnDisk.{cell_place, value_bytes};
ghost use Rattle.trap_replica.specs.Mounting.{HasReplicaHeader, IsMountFault, IsNoValue};
ghost use Rattle.trap_replica.specs.Mounting.{IsRefusedAs, IsReplicaStable, ReadsReplicaHeader};
ghost use Rattle.trap_replica.specs.Mounting.{Opens, MountsReplica};
ghost use Rattle.trap_replica.specs.declared.fault.ReplicaFault.TheVariants as fault;

use crate::held::Held;
use crate::layout::{CELL_AT, DISK, NUMBERS};
use crate::store::Store;
use crate::{Replica, ReplicaFault};
use std::alloc::Global;
use trap_bank::{Bank, DiskFault};
use trap_block::{get_u32, get_u64};
use trap_cell::{Cell, CellFault};
use trap_format::{Shape, is_replica, read_replica, replica_len};

/// The greatest number that a replica applies.
const MOST: u64 = 1 << 40;

/// The numbers at the front of the cell's value.
#[derive(Clone, Copy)]
struct Numbers {
    number: u64,
    time: u64,
    block: u32,
}

/// Syncs the disk, and reads its first bytes.
fn read_first<B: Bank>(bank: &mut B, into: &mut [u8]) -> Result<(), DiskFault>
    requires { Fits (B.view bank.old) 17 (length into.old) }
    ensures bytes { IsTrue (B.view bank.old).tells
        → OnOk result (into.new ≡ region (B.view bank.old).now.disks 17 0 (length into.old)) }
    ensures stable { OnOk result (IsReplicaStable (B.view bank.new)) }
    ensures reads { OnlyReads (B.view bank.old) (B.view bank.new) }
    ensures cause { OnErr result
        (Rose ((B.view bank.old).faults 17) ((B.view bank.new).faults 17)) }
    ensures calls { TakesCalls 2 result (B.view bank.old) (B.view bank.new) }
{
    // A crash leaves what is read from here on.
    bank.sync(DISK)?;
    bank.read(DISK, 0, into)?;
    Ok(())
}

/// Reads the numbers of the replica from its header.
fn read_header<B: Bank>(bank: &mut B) -> Result<Shape, ReplicaFault>
    ensures ok { IfOk result (λ s. ReadsReplicaHeader s (B.view bank.old) (B.view bank.new)) }
    ensures kinds { IfErr result IsMountFault }
    ensures absent { ((n : ℕ) → (B.view bank.old).sizes 17 ≡ Some n → n < 32)
        → (result ≡ Err fault.NotAReplica) × (bank.new ≡ bank.old) }
    ensures reads { OnlyReads (B.view bank.old) (B.view bank.new) }
    ensures refused { IfErr result (λ why. IsTrue (B.view bank.old).tells
        → IsRefusedAs (B.view bank.old).now.disks why) }
    ensures cause { IsErrOf result fault.DiskFault
        → Rose ((B.view bank.old).faults 17) ((B.view bank.new).faults 17) }
    ensures calls { TakesCalls 2 result (B.view bank.old) (B.view bank.new) }
{
    let Some(size) = bank.size(DISK) else {
        return Err(ReplicaFault::NotAReplica);
    };
    if size < CELL_AT {
        return Err(ReplicaFault::NotAReplica);
    }
    let mut bytes = [0; 32];
    read_first(bank, &mut bytes)?;
    if !is_replica(&bytes) {
        return Err(ReplicaFault::NotAReplica);
    }
    let Some(shape) = read_replica(&bytes) else {
        return Err(ReplicaFault::Damaged { offset: 0 });
    };
    if replica_len(&shape) != size {
        return Err(ReplicaFault::Damaged { offset: 0 });
    }
    Ok(shape)
}

/// Mounts the cell, and fills `value` with its value.
fn read_cell<B: Bank>(bank: &mut B, s: &Shape, value: &mut [u8]) -> Result<Cell, ReplicaFault>
    requires there { Fits (B.view bank.old) 17 (replica_size s.now) }
    requires stable { IsReplicaStable (B.view bank.old) }
    requires long { length value.old ≡ replica_value_len s.now }
    ensures mounted { IfOk result (IsMounted (B.view bank.old) (B.view bank.new)
        (cell_place s.now) value.new) }
    ensures kinds { IfErr result IsMountFault }
    ensures reads { OnlyReads (B.view bank.old) (B.view bank.new) }
    ensures refused { IfErr result (λ why. IsTrue (B.view bank.old).tells
        → HasReplicaHeader s.now (B.view bank.old).now.disks
        → IsRefusedAs (B.view bank.old).now.disks why) }
    ensures cause { IsErrOf result fault.DiskFault
        → Rose ((B.view bank.old).faults 17) ((B.view bank.new).faults 17) }
    ensures calls { TakesCalls 3 result (B.view bank.old) (B.view bank.new) }
{
    match Cell::mount(bank, DISK, CELL_AT, value) {
        Ok(cell) => Ok(cell),
        Err(CellFault::NoValue) => Err(ReplicaFault::Damaged { offset: CELL_AT }),
        Err(CellFault::DiskFault) => Err(ReplicaFault::DiskFault),
    }
}

/// The numbers of a cell's value, if it is one.
fn read_numbers(s: &Shape, value: &[u8]) -> Option<Numbers>
    requires { length value.now ≡ replica_value_len s.now }
    ensures some { IfSome result (λ n. value.now
        ≡ value_bytes n.number n.time n.block (drop 20 value.now)) }
    ensures most { IfSome result (λ n. n.number ≤ 2 ^ 40) }
    ensures inside { IfSome result (λ n. n.block < s.now.volume) }
    ensures fits { IfSome result (λ n. n.time < 2 ^ 64) }
    ensures none { IfNone result (IsNoValue s.now value.now) }
{
    let number = get_u64(value, 0);
    let time = get_u64(value, 8);
    let block = get_u32(value, 16);
    if number > MOST || block >= s.volume {
        return None;
    }
    Some(Numbers {
        number,
        time,
        block,
    })
}

/// Copies the contents out of a cell's value.
fn copy_contents(contents: &mut [u8], value: &[u8])
    requires { length value.now ≡ 20 + length contents.old }
    ensures { contents.new ≡ drop 20 value.now }
{
    contents.copy_from_slice(&value[NUMBERS..]);
}

/// Finds what the cell says, over a header that was read.
fn open_store<B: Bank>(alloc: Global, bank: &mut B, s: &Shape) -> Result<Store, ReplicaFault>
    requires there { Fits (B.view bank.old) 17 (replica_size s.now) }
    requires id { s.now.id < 2 ^ 64 }
    requires stable { IsReplicaStable (B.view bank.old) }
    requires has { IsTrue (B.view bank.old).tells
        → HasReplicaHeader s.now (B.view bank.old).now.disks }
    ensures ok { IfOk result (λ store. Opens store (B.view bank.old) (B.view bank.new)) }
    ensures kinds { IfErr result IsMountFault }
    ensures shape { IfOk result (λ store. store.shape ≡ s.now) }
    ensures reads { OnlyReads (B.view bank.old) (B.view bank.new) }
    ensures refused { IfErr result (λ why. IsTrue (B.view bank.old).tells
        → IsRefusedAs (B.view bank.old).now.disks why) }
    ensures cause { IsErrOf result fault.DiskFault
        → Rose ((B.view bank.old).faults 17) ((B.view bank.new).faults 17) }
    ensures calls { TakesCalls 3 result (B.view bank.old) (B.view bank.new) }
{
    let size = s.block as usize;
    let mut value = vec![in alloc; 0u8; NUMBERS + size]?;
    let mut contents = vec![in alloc; 0u8; size]?;
    let cell = read_cell(bank, s, value.as_mut_slice())?;
    let bytes = value.as_slice();
    let Some(numbers) = read_numbers(s, bytes) else {
        return Err(ReplicaFault::Damaged { offset: CELL_AT });
    };
    copy_contents(contents.as_mut_slice(), bytes);
    Ok(Store {
        shape: *s,
        cell,
        number: numbers.number,
        time: numbers.time,
        block: numbers.block,
        contents,
        value,
    })
}

impl Replica {
    /// Mounts the replica that disk 17 holds. Nothing is written.
    pub fn mount<B: Bank>(alloc: Global, bank: &mut B) -> Result<Replica, ReplicaFault>
        ensures ok { IfOk result (λ r. MountsReplica r (B.view bank.old) (B.view bank.new)) }
        ensures kinds { IfErr result IsMountFault }
        ensures absent { ((n : ℕ) → (B.view bank.old).sizes 17 ≡ Some n → n < 32)
            → (result ≡ Err fault.NotAReplica) × (bank.new ≡ bank.old) }
        ensures refused { IfErr result (λ why. IsTrue (B.view bank.old).tells
            → IsRefusedAs (B.view bank.old).now.disks why) }
        ensures cause { IsErrOf result fault.DiskFault
            → Rose ((B.view bank.old).faults 17) ((B.view bank.new).faults 17) }
        ensures calls { TakesCalls 5 result (B.view bank.old) (B.view bank.new) }

        // Stopped at any moment, the disks are as they were.
        ensures any_moment { OnlyReads (B.view bank.old) (B.view bank.new) }
    {
        let shape = read_header(bank)?;
        let held = Held::new(alloc, shape.block as usize)?;
        let store = open_store(alloc, bank, &shape)?;
        Ok(Replica {
            store,
            held,
            is_stopped: false,
        })
    }
}
