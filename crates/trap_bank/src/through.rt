//! A write that is stable when it returns.

ghost use Rattle.std.specs.Prelude.{◌≡◌, ◌+◌, ◌≤◌, ℕ, length, OnErr, OnOk, IsTrue};
ghost use Rattle.trap_bank.specs.Faults.{Rose};
ghost use Rattle.trap_bank.specs.Disks.{Within, Differs, Torn, region};
ghost use Rattle.trap_bank.specs.Called.{TakesCalls};
ghost use Rattle.trap_bank.specs.Calls.{Fits};
ghost use Rattle.trap_bank.specs.Steps.{Moves, PlacedThrough};

use crate::{Bank, Failed};

/// Writes the bytes at the byte offset `at` of disk `d`, and syncs that disk.
pub fn write_through<B: Bank>(bank: &mut B, d: u8, at: u64, bytes: &[u8]) -> Result<(), Failed>
    requires disk { d ≤ 20 }
    requires room { Fits (B.view bank.old) d (at + length bytes.now) }
    ensures ok { OnOk result (Moves (B.view bank.old) (B.view bank.new)
        (Differs (Within d at (length bytes.now)))
        (PlacedThrough (B.view bank.new) d at bytes.now)) }
    ensures written { IsTrue (B.view bank.old).tells
        → OnOk result (region (B.view bank.new).now.disks d at (length bytes.now) ≡ bytes.now) }
    ensures contents { IsTrue (B.view bank.old).tells
        → Torn (Within d at (length bytes.now)) (B.view bank.old).now (B.view bank.new).now }
    ensures sizes { (e : ℕ) → (B.view bank.new).sizes e ≡ (B.view bank.old).sizes e }
    ensures cause { OnErr result (Rose ((B.view bank.old).faults d) ((B.view bank.new).faults d)) }
    ensures calls { TakesCalls 2 result (B.view bank.old) (B.view bank.new) }

    // Stopped at any moment, nothing outside the range has changed.
    ensures any_moment { Moves (B.view bank.old) (B.view bank.new)
        (Differs (Within d at (length bytes.now))) (Differs (Within d at (length bytes.now))) }
{
    bank.write(d, at, bytes)?;
    bank.sync(d)?;
    Ok(())
}
