//! One frame is applied: the block that the cell names goes home first, then the cell is put.

ghost use Rattle.std.specs.Prelude.{◌≡◌, ℕ, ◌+◌, ◌^◌, ◌<◌, ◌≤◌, List, length, IsTrue, OnOk, OnErr};
ghost use Rattle.trap_bank.specs.Faults.{Rose};
ghost use Rattle.trap_bank.specs.Called.{TakesCalls};
ghost use Rattle.trap_bank.specs.Calls.{Fits};
ghost use Rattle.trap_bank.specs.Steps.{Always};
ghost use Rattle.trap_cell.specs.Slots.{Stands};
ghost use Rattle.trap_cell.specs.Steps.{put_calls};
ghost use Rattle.trap_format.specs.ReplicaDisk.{home_at, replica_size, replica_value_len};
ghost use Rattle.trap_model.specs.Image.{block_of};
ghost use Rattle.trap_model.specs.Receiver.{xored};
ghost use Rattle.trap_replica.specs.OnDisk.{HoldsImageBy, cell_place};
ghost use Rattle.trap_replica.specs.Applying.{Leaves, LeavesOthers, HoldsEither, TurnsCell};

use crate::layout::{DISK, home_at, spell_value};
use trap_bank::{Bank, DiskFault, write_through};
use trap_block::xor_into;
use trap_cell::Cell;
use trap_format::Shape;
use trap_model::Arrival;

/// Applies a frame. `contents` is the block that the cell names, and then the frame's; `value` is
/// room for the cell's value. After a fault both hold any bytes.
pub(crate) fn apply<B: Bank>(
    bank: &mut B,
    s: &Shape,
    cell: &mut Cell,
    block: u32,
    seq: u64,
    frame: &Arrival,
    contents: &mut [u8],
    value: &mut [u8],
) -> Result<(), DiskFault>
    requires place { cell.old.place ≡ cell_place s.now }
    requires there { Fits (B.view bank.old) 17 (replica_size s.now) }
    requires stands { Always (B.view bank.old) (Stands cell.old) }
    requires named { block < s.now.volume }
    requires inside { frame.now.block < s.now.volume }
    requires sized { length frame.now.parity ≡ s.now.block }
    requires contents { length contents.old ≡ s.now.block }
    requires value { length value.old ≡ replica_value_len s.now }
    ensures ok { (number time : ℕ) (image : List (List ℕ)) → number + 1 ≡ seq → seq ≤ 2 ^ 40
        → (IsTrue (B.view bank.old).tells → contents.old ≡ block_of image block)
        → Always (B.view bank.old) (HoldsImageBy s.now block number time image)
        → OnOk result (Always (B.view bank.new)
        (HoldsImageBy s.now frame.now.block seq frame.now.time (xored image frame.now))) }
    ensures kept { (number time : ℕ) (image : List (List ℕ))
        → (IsTrue (B.view bank.old).tells → contents.old ≡ block_of image block)
        → Always (B.view bank.old) (HoldsImageBy s.now block number time image)
        → OnOk result (IsTrue (B.view bank.old).tells
        → contents.new ≡ block_of (xored image frame.now) frame.now.block) }
    ensures cell { OnOk result (TurnsCell cell.old cell.new (B.view bank.new)) }
    ensures place { cell.new.place ≡ cell.old.place }

    // Nothing but disk 17 changes.
    ensures beside { LeavesOthers (B.view bank.old) (B.view bank.new) }
    ensures cause { OnErr result
        (Rose ((B.view bank.old).faults 17) ((B.view bank.new).faults 17)) }
    ensures calls { TakesCalls (3 + put_calls cell.old) result (B.view bank.old)
        (B.view bank.new) }

    // Stopped at any moment, the disk holds the image before the frame or the one after it.
    ensures any_moment { (number time : ℕ) (image : List (List ℕ)) → number + 1 ≡ seq → seq ≤ 2 ^ 40
        → (IsTrue (B.view bank.old).tells → contents.old ≡ block_of image block)
        → Always (B.view bank.old) (HoldsImageBy s.now block number time image)
        → Leaves (B.view bank.old) (B.view bank.new)
        (HoldsEither s.now number time image frame.now) }
{
    // What the cell alone holds is stable at home before the put takes it away.
    write_through(bank, DISK, home_at(s, block), contents)?;
    bank.read(DISK, home_at(s, frame.block), contents)?;
    xor_into(contents, frame.parity.as_slice());
    spell_value(value, seq, frame.time, frame.block, contents);
    // Number and contents change in one commit.
    Ok(cell.put(bank, value)?)
}
