//! The records of the retained entries, read into an index.

ghost use Rattle.std.specs.Prelude.{◌≡◌, ℕ, ◌+◌, ◌-◌, ◌<◌, ◌≤◌, List, IsErrOf, OnOk, IsTrue};
ghost use Rattle.trap_bank.specs.Calls.{Fits};
ghost use Rattle.trap_bank.specs.Faults.{Rose};
ghost use Rattle.trap_bank.specs.Steps.{OnlyReads};
ghost use Rattle.trap_index.specs.Indexed.{last_seq, last_record_time};
ghost use Rattle.trap_scan.specs.Window.{IsWindow, IsAhead};
ghost use Rattle.trap_scan.specs.Scan.{BreaksAt, BreaksAhead};
ghost use Rattle.trap_mount.specs.Reading.{Awaits, MayExpect, IsAtStart, ReadsRecords, ReadsAhead};

use std::alloc::Global;
use trap_bank::Bank;
use trap_index::Index;
use trap_ring::Ring;
use trap_scan::{CheckFault, Expected, Scan, ScanFault};

/// Takes all records that are to follow, and adds each to the index.
fn take_records<B: Bank>(
    scan: &mut Scan,
    bank: &mut B,
    ring: &Ring,
    index: &mut Index,
) -> Result<(), ScanFault>
    requires start { IsAtStart ring.now scan.old index.old (B.view bank.old) }
    requires room { scan.old.window.end ≤ scan.old.window.at + ring.now.len }
    requires there { Fits (B.view bank.old) ring.now.disk (ring.now.at + ring.now.len) }
    ensures ok { OnOk result
        (ReadsAhead ring.now scan.old index.old index.new (B.view bank.old)) }
    ensures damaged { IsTrue (B.view bank.old).tells → (at : ℕ)
        → IsErrOf result (ScanFault.Damaged at) → (bytes : List ℕ)
        → IsAhead ring.now scan.old.window bytes (B.view bank.old).now.disks
        → BreaksAhead scan.old bytes at }
    ensures looks { OnlyReads (B.view bank.old) (B.view bank.new) }
    ensures cause { IsErrOf result ScanFault.DiskFault
        → Rose ((B.view bank.old).faults ring.now.disk) ((B.view bank.new).faults ring.now.disk) }
{
    'records: while scan.is_more() {
        let rec = scan.next(bank, ring)?;
        index.add(&rec);
    }
    Ok(())
}

/// Reads all records that are expected in the ring into an index that has none yet, and checks that
/// they stand there.
pub(super) fn read_records<B: Bank>(
    alloc: Global,
    bank: &mut B,
    ring: &Ring,
    expected: &Expected,
    index: &mut Index,
) -> Result<(), CheckFault>
    requires expects { MayExpect ring.now expected.now }
    requires awaits { Awaits expected.now index.old }
    requires there { Fits (B.view bank.old) ring.now.disk (ring.now.at + ring.now.len) }
    ensures ok { OnOk result
        (ReadsRecords ring.now expected.now index.old index.new (B.view bank.old)) }
    ensures damaged { IsTrue (B.view bank.old).tells → (at : ℕ)
        → IsErrOf result (CheckFault.Damaged at) → (bytes : List ℕ)
        → IsWindow ring.now expected.now.first_off expected.now.end_off bytes
        (B.view bank.old).now.disks
        → BreaksAt expected.now bytes at }
    ensures reads { OnlyReads (B.view bank.old) (B.view bank.new) }
    ensures cause { IsErrOf result CheckFault.DiskFault
        → Rose ((B.view bank.old).faults ring.now.disk) ((B.view bank.new).faults ring.now.disk) }
{
    if expected.first == expected.last {
        return Ok(());
    }
    let mut scan = Scan::new(alloc, expected)?;
    take_records(&mut scan, bank, ring, index)?;
    Ok(())
}
